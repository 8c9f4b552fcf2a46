ghost use Rattle.std.specs.Prelude.{◌≡◌};
ghost use Rattle.coll_verdict.specs.Checking.{is_of, says_no, says_yes};

use coll_kinds::Signature;

/// The libraries of which a verdict speaks, by what is known of their calls.
#[derive(Debug, Drop)]
pub enum Library {
    /// Every library: a request waits at least for those on whom its value rests, and perhaps for all members; an
    /// initialisation may wait for all.
    Any,
    /// One whose requests wait for the members of these tables, and whose initialisations don't wait. Of a collective that
    /// no table is of nothing is known.
    Hears(Vec<HeardRows>),
}

/// For whom the requests of one collective wait.
#[derive(Debug, Drop)]
pub struct HeardRows {
    pub sig: Signature,
    /// For each member, of each whether its request waits for that one.
    pub rows: Vec<Vec<bool>>,
}

impl HeardRows {
    /// Whether this is the table of that collective among `n` members.
    pub(crate) fn is_of(&self, sig: &Signature, n: usize) -> bool
        ensures { result ≡ is_of sig.now n self.now }
    {
        self.sig.is_same(sig) && self.rows.len() == n
    }

    /// Whether it says that the member waits for the other.
    pub(crate) fn says_yes(&self, member: usize, other: usize) -> bool
        ensures { result ≡ says_yes self.now member other }
    {
        match self.rows.get(member) {
            Some(row) => match row.get(other) {
                Some(waits) => *waits,
                None => false,
            },
            None => false,
        }
    }

    /// Whether it says that the member doesn't wait for the other.
    pub(crate) fn says_no(&self, member: usize, other: usize) -> bool
        ensures { result ≡ says_no self.now member other }
    {
        match self.rows.get(member) {
            Some(row) => match row.get(other) {
                Some(waits) => !*waits,
                None => false,
            },
            None => false,
        }
    }
}
