ghost use Rattle.std.specs.Prelude.{◌≡◌, IfOk, IfSome};
ghost use Rattle.coll_diagnosis.specs.Readings.{waits_in_reading};
ghost use Rattle.coll_diagnosis.specs.Standing.{IsShown, IsStandstill};

use crate::course::{Choice, Course};
use crate::cure::{Move, cure};
use crate::engine_tables::tables_of;
use crate::facts::Facts;
use crate::job::Job;
use crate::ring::shortest_ring;
use crate::standstill::Standstill;
use crate::verdict::Verdict;
use crate::waiting::{Reading, WaitsFor};
use coll_kinds::Refusal;
use coll_script::Script;
use std::alloc::Global;

/// Whether the runs of a text deadlock, and which rank then waits for which.
#[derive(Debug, Drop)]
pub struct Explanation {
    pub verdict: Verdict,
    /// Where the ranks stand, if some course of theirs deadlocks.
    pub shown: Option<ShownStall>,
    /// A move that makes a text which deadlocks in every run of this engine one that never deadlocks.
    pub cure: Option<Move>,
}

/// A deadlock that some course of the ranks reaches.
#[derive(Debug, Drop)]
pub struct ShownStall {
    /// For whom completions wait in that course.
    pub waiting: WaitsFor,
    /// What calls choose in that course.
    pub choice: Choice,
    pub standstill: Standstill,
    /// The fewest ranks that wait for one another: each waits for the next, and the last for the first.
    pub ring: Vec<u8>,
}

impl Explanation {
    ghost use Rattle.std.specs.Prelude.{◌≡◌, false, true, None, IfOk, IfSome, IsSome};
    ghost use Rattle.coll_diagnosis.specs.declared.verdict.Verdict.TheVariants.{Never};
    ghost use Rattle.coll_diagnosis.specs.Cures.{IsTried};
    ghost use Rattle.coll_diagnosis.specs.Details.{waiting_of};
    ghost use Rattle.coll_diagnosis.specs.Standing.{IsShown};
    ghost use Rattle.coll_diagnosis.specs.Verdicts.{is_always_here, Means};

    /// Judges a text without a fault. It searches no runs: each course lets all ranks go on while they can. A repair is tried only if
    /// `seeks_repair`.
    ///
    /// # Errors
    ///
    /// `NoMemory`; `Torn` if a deadlock that it found isn't true of the script, which doesn't happen.
    pub fn of(
        alloc: Global,
        text: &[u8],
        script: &Script,
        seeks_repair: bool,
    ) -> Result<Explanation, Refusal>
        // What is shown is true of the commands of the text.
        ensures shown { IfOk result (λ e. IfSome e.shown (IsShown script.now)) }
        // Completions wait there for those for whom they wait by the verdict.
        ensures reading { IfOk result (λ e. IfSome e.shown (λ shown. shown.waiting ≡ waiting_of e.verdict)) }
        // What the verdict says of all runs is true.
        ensures means { IfOk result (λ e. Means e.verdict script.now) }
        ensures never { IfOk result (λ e. e.verdict ≡ Never → e.shown ≡ None) }
        ensures standing { IfOk result (λ e. is_always_here e.verdict ≡ true → IsSome e.shown) }
        // A cure was tried: no run of the text with that line moved deadlocks.
        ensures cure { IfOk result (λ e. IfSome e.cure (IsTried text.now)) }
        ensures uncured { IfOk result (λ e. is_always_here e.verdict ≡ false → e.cure ≡ None) }
    {
        let job = Job::of(alloc, script)?;
        let verdict = Verdict::of(alloc, script, &job)?;
        Explanation::under(alloc, text, script, &job, verdict, seeks_repair)
    }

    /// The explanation of the same text under a verdict that is true of it.
    pub(crate) fn under(
        alloc: Global,
        text: &[u8],
        script: &Script,
        job: &Job,
        verdict: Verdict,
        seeks_repair: bool,
    ) -> Result<Explanation, Refusal>
        requires { Means verdict script.now }
        ensures verdict { IfOk result (λ e. e.verdict ≡ verdict) }
        ensures shown { IfOk result (λ e. IfSome e.shown (IsShown script.now)) }
        ensures reading { IfOk result (λ e. IfSome e.shown (λ shown. shown.waiting ≡ waiting_of e.verdict)) }
        ensures means { IfOk result (λ e. Means e.verdict script.now) }
        ensures never { IfOk result (λ e. e.verdict ≡ Never → e.shown ≡ None) }
        ensures standing { IfOk result (λ e. is_always_here e.verdict ≡ true → IsSome e.shown) }
        ensures cure { IfOk result (λ e. IfSome e.cure (IsTried text.now)) }
        ensures uncured { IfOk result (λ e. is_always_here e.verdict ≡ false → e.cure ≡ None) }
    {
        let shown = match verdict {
            Verdict::Never => None,
            Verdict::NeverHere => stall_among(alloc, script, job, Reading::All)?,
            Verdict::Perhaps => stall_by_schedules(alloc, script, job)?,
            Verdict::AlwaysHere | Verdict::Always => Some(stall_here(alloc, script, job)?),
        };
        let cure = match &shown {
            Some(shown) if seeks_repair && verdict.is_always_here() => {
                cure(alloc, job, text, &shown.standstill)?
            }
            _ => None,
        };
        Ok(Explanation {
            verdict,
            shown,
            cure,
        })
    }
}

/// Where the ranks stand in every run of this engine. Refuses [`Refusal::Torn`] if they come to their ends, which doesn't happen.
fn stall_here(alloc: Global, script: &Script, job: &Job) -> Result<ShownStall, Refusal>
    ensures shown { IfOk result (IsShown script.now) }
    ensures reading { IfOk result (λ shown. shown.waiting ≡ WaitsFor.Heard) }
{
    match stall_by_schedules(alloc, script, job)? {
        Some(shown) => Ok(shown),
        None => Err(Refusal::Torn),
    }
}

/// A deadlock by this engine's schedules, if a course comes to one.
fn stall_by_schedules(
    alloc: Global,
    script: &Script,
    job: &Job,
) -> Result<Option<ShownStall>, Refusal>
    ensures shown { IfOk result (λ found. IfSome found (IsShown script.now)) }
    ensures reading { IfOk result (λ found. IfSome found (λ shown. shown.waiting ≡ WaitsFor.Heard)) }
{
    let tables = tables_of(alloc, &job.collectives)?;
    stall_among(alloc, script, job, Reading::Heard(&tables))
}

/// A deadlock with that reading: of the course that helps the ranks most, and so of every run; else of one of the two courses that
/// a run may take. Refuses [`Refusal::Torn`] if the deadlock isn't true of the script, which doesn't happen.
fn stall_among(
    alloc: Global,
    script: &Script,
    job: &Job,
    reading: Reading<'_>,
) -> Result<Option<ShownStall>, Refusal>
    ensures shown { IfOk result (λ found. IfSome found (IsShown script.now)) }
    ensures reading { IfOk result (λ found. IfSome found (λ shown. shown.waiting ≡ waits_in_reading reading.entry)) }
{
    for choice in [Choice::Best, Choice::First, Choice::Last] {
        let course = Course::of(alloc, &*job, reading, choice)?;
        if course.is_stuck() {
            let standstill = true_standstill(alloc, script, &course)?;
            let ring = shortest_ring(alloc, &standstill.stuck)?;
            if !standstill.is_circle(&ring) {
                return Err(Refusal::Torn);
            }
            return Ok(Some(ShownStall {
                waiting: reading.waits_for(),
                choice,
                standstill,
                ring,
            }));
        }
    }
    Ok(None)
}

/// Where the ranks of a course stand. Refuses [`Refusal::Torn`] if that isn't true of the script, which doesn't happen.
fn true_standstill(
    alloc: Global,
    script: &Script,
    course: &Course<'_>,
) -> Result<Standstill, Refusal>
    ensures { IfOk result (IsStandstill script.now) }
{
    let standstill = Standstill::of(alloc, course)?;
    let history = script.history();
    let ranks = history.requests(alloc)?;
    let facts = Facts {
        issued: history.commands(),
        ranks: &ranks,
        groups: history.groups(),
    };
    if !standstill.holds(&facts) {
        return Err(Refusal::Torn);
    }
    Ok(standstill)
}
