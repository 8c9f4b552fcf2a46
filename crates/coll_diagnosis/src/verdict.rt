ghost use Rattle.std.specs.Prelude.{IfOk, IsTrue};
ghost use Rattle.coll_verdict.specs.Stalls.{StallsAlways, StallsNever};
ghost use Rattle.coll_verdict.specs.Code.{AlwaysFor, NeverFor};

use crate::course::{Choice, Course};
use crate::engine_tables::tables_of;
use crate::job::Job;
use crate::waiting::Reading;
use coll_kinds::Refusal;
use coll_script::Script;
use coll_verdict::{
    HeardRows, Library, always_stalls, always_stalls_by, never_stalls, never_stalls_by,
};
use std::alloc::Global;

/// Whether the runs of a job deadlock: in a run that deadlocks, a rank's thread waits for what never comes.
#[derive(Clone, Copy, Debug, PartialEq, Eq)]
pub enum Verdict {
    /// No run deadlocks, with any library. This is proved.
    Never,
    /// No run deadlocks in which each request waits for those from whom it hears by this engine's schedules, as in this engine's core; a
    /// library whose collectives wait for all their members may deadlock. This is proved.
    NeverHere,
    /// Neither was shown: that by this engine's schedules no run deadlocks, or that every one does.
    Perhaps,
    /// No run comes to its end in which each request waits for those from whom it hears by this engine's schedules, as in this engine's
    /// core; it wasn't shown of other libraries. This is proved.
    AlwaysHere,
    /// No run comes to its end, with any library. This is proved.
    Always,
}

impl Verdict {
    ghost use Rattle.std.specs.Prelude.{◌≡◌, IfOk};
    ghost use Rattle.coll_diagnosis.specs.Verdicts.{status_of, is_always_here, is_never, is_proved, IsStatus, Means};

    /// Judges the job of a script, by at most four courses. What it says but `Perhaps` was shown to the checkers of `coll_verdict`:
    /// that no run deadlocks, by the order in which ranks pass in the course that hinders them most; that every run does, by the stands
    /// of the course that helps them most. The only refusal is [`Refusal::NoMemory`].
    pub fn of(alloc: Global, script: &Script, job: &Job) -> Result<Verdict, Refusal>
        ensures { IfOk result (λ verdict. Means verdict script.now) }
    {
        if is_never_shown(alloc, script, job)? {
            return Ok(Verdict::Never);
        }
        if is_always_shown(alloc, script, job)? {
            return Ok(Verdict::Always);
        }
        Verdict::of_schedules(alloc, script, job)
    }

    /// Whether the runs by this engine's schedules deadlock.
    fn of_schedules(alloc: Global, script: &Script, job: &Job) -> Result<Verdict, Refusal>
        ensures { IfOk result (λ verdict. Means verdict script.now) }
    {
        let library = Library::Hears(tables_of(alloc, &job.collectives)?);
        if is_never_here_shown(alloc, script, job, &library)? {
            return Ok(Verdict::NeverHere);
        }
        if is_always_here_shown(alloc, script, job, &library)? {
            return Ok(Verdict::AlwaysHere);
        }
        Ok(Verdict::Perhaps)
    }

    /// Whether every run by this engine's schedules deadlocks.
    pub fn is_always_here(self) -> bool
        ensures { result ≡ is_always_here self }
    {
        matches!(self, Verdict::AlwaysHere | Verdict::Always)
    }

    /// Whether no run deadlocks, with any library.
    pub fn is_never(self) -> bool
        ensures { result ≡ is_never self }
    {
        matches!(self, Verdict::Never)
    }

    /// Whether it is proved of all runs of the job: with every library, or of those in which each request waits for those from whom it
    /// hears by this engine's schedules.
    pub fn is_proved(self) -> bool
        ensures { result ≡ is_proved self }
    {
        !matches!(self, Verdict::Perhaps)
    }

    /// The exit status: 0 if by this engine's schedules no run deadlocks, 3 if every one does, and 6 if neither was shown; if
    /// `is_strict`, also 6 if a run with another library may deadlock.
    pub fn status(self, is_strict: bool) -> u8
        ensures status { result ≡ status_of is_strict self }
        ensures few { IsStatus result }
    {
        match self {
            Verdict::Never => 0,
            Verdict::NeverHere => if is_strict { 6 } else { 0 },
            Verdict::Perhaps => 6,
            Verdict::AlwaysHere | Verdict::Always => 3,
        }
    }
}

/// Whether the course that hinders the ranks most shows that no run deadlocks, with any library.
pub(crate) fn is_never_shown(alloc: Global, script: &Script, job: &Job) -> Result<bool, Refusal>
    ensures { IfOk result (λ is_shown. IsTrue is_shown → StallsNever script.now) }
{
    let course = Course::of(alloc, job, Reading::All, Choice::Worst)?;
    if course.is_stuck() {
        return Ok(false);
    }
    Ok(never_stalls(alloc, script.history(), course.order())?)
}

/// Whether the course that helps the ranks most shows that every run deadlocks, with every library.
fn is_always_shown(alloc: Global, script: &Script, job: &Job) -> Result<bool, Refusal>
    ensures { IfOk result (λ is_shown. IsTrue is_shown → StallsAlways script.now) }
{
    let course = Course::of(alloc, job, Reading::Needed, Choice::Best)?;
    if !course.is_stuck() {
        return Ok(false);
    }
    let stands = course.stands(alloc)?;
    Ok(always_stalls(alloc, script.history(), &stands)?)
}

/// Whether the course that hinders the ranks most shows that no run with this library deadlocks.
fn is_never_here_shown(
    alloc: Global,
    script: &Script,
    job: &Job,
    library: &Library,
) -> Result<bool, Refusal>
    ensures { IfOk result (λ is_shown. IsTrue is_shown → NeverFor library.now script.now) }
{
    let reading = Reading::Heard(tables_in(library));
    let course = Course::of(alloc, job, reading, Choice::Worst)?;
    if course.is_stuck() {
        return Ok(false);
    }
    Ok(never_stalls_by(alloc, script.history(), course.order(), library)?)
}

/// Whether the course that helps the ranks most shows that every run with this library deadlocks.
fn is_always_here_shown(
    alloc: Global,
    script: &Script,
    job: &Job,
    library: &Library,
) -> Result<bool, Refusal>
    ensures { IfOk result (λ is_shown. IsTrue is_shown → AlwaysFor library.now script.now) }
{
    let reading = Reading::Heard(tables_in(library));
    let course = Course::of(alloc, job, reading, Choice::Best)?;
    if !course.is_stuck() {
        return Ok(false);
    }
    let stands = course.stands(alloc)?;
    Ok(always_stalls_by(alloc, script.history(), &stands, library)?)
}

/// The tables of a library; none where nothing is known of it.
fn tables_in(library: &Library) -> &[HeardRows] {
    match library {
        Library::Any => &[],
        Library::Hears(tables) => tables,
    }
}
