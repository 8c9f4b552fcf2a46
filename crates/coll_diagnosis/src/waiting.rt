ghost use Rattle.std.specs.Prelude.{◌≡◌};
ghost use Rattle.coll_diagnosis.specs.Readings.{waits_in_reading};

use coll_verdict::HeardRows;

/// For which members the completion of a collective waits.
#[derive(Clone, Copy, Debug, PartialEq, Eq)]
pub enum WaitsFor {
    /// The members whose contributions the outcome needs: every library waits for them.
    Needed,
    /// The members from which something has come by way of the schedule: this engine waits for them.
    Heard,
    /// All members: a library may wait for them.
    All,
}

/// For which members completions wait in a course.
#[derive(Clone, Copy, Debug)]
pub enum Reading<'t> {
    Needed,
    /// Those from whom members hear by these tables, one for each collective of the job.
    Heard(&'t [HeardRows]),
    All,
}

impl<'t> Reading<'t> {
    /// The reading without its tables.
    pub fn waits_for(self) -> WaitsFor
        ensures { result ≡ waits_in_reading self.entry }
    {
        match self {
            Reading::Needed => WaitsFor::Needed,
            Reading::Heard(_) => WaitsFor::Heard,
            Reading::All => WaitsFor::All,
        }
    }
}

/// Whether a member hears from another by the table of that index; none says that it does not.
pub(crate) fn hears(tables: &[HeardRows], index: usize, member: u8, other: u8) -> bool {
    match tables.get(index) {
        Some(table) => match table.rows.get(usize::from(member)) {
            Some(row) => row.get(usize::from(other)).copied() == Some(true),
            None => false,
        },
        None => false,
    }
}
