//! That no run deadlocks, by cases of what calls complete that depend on time.

ghost use Rattle.std.specs.Prelude.{IfOk, IfSome, IsTrue};
ghost use Rattle.coll_plans.specs.Hearings.{hears_here};
ghost use Rattle.coll_verdict.specs.Stalls.{StallsNever};
ghost use Rattle.coll_verdict.specs.Waiting.{StallsNeverBy};
ghost use Rattle.coll_diagnosis.specs.Verdicts.{Means, MeansOf};

use crate::runs::spread;
use coll_cases::never_stalls_by_cases;
use coll_diagnosis::{Job, Verdict, tables_of};
use coll_kinds::Refusal;
use coll_script::{Script, ScriptFault};
use coll_verdict::Library;
use std::alloc::{AllocError, Global};

/// The verdict that no run of a text deadlocks, with every library or with this engine, if at most `states` cases show it: of a text
/// of 50 commands or more, fewer.
pub(crate) fn verdict_by_cases(
    alloc: Global,
    text: &[u8],
    states: u32,
) -> Result<Option<Verdict>, AllocError>
    ensures { IfOk result (λ found. IfSome found (MeansOf text.now)) }
{
    match Script::read(alloc, text) {
        Ok(script) => verdict_of_script(alloc, &script, states),
        Err(ScriptFault::Text(_)) => Ok(None),
        Err(ScriptFault::NoMemory) => Err(AllocError),
    }
}

/// The same of the script of a text. A collective without a schedule means that nothing is shown.
fn verdict_of_script(
    alloc: Global,
    script: &Script,
    states: u32,
) -> Result<Option<Verdict>, AllocError>
    ensures { IfOk result (λ found. IfSome found (λ verdict. Means verdict script.now)) }
{
    let states = spread(states, script.history().commands().len());
    match shown_verdict(alloc, script, states) {
        Ok(found) => Ok(found),
        Err(Refusal::NoMemory) => Err(AllocError),
        Err(_) => Ok(None),
    }
}

fn shown_verdict(alloc: Global, script: &Script, states: u32) -> Result<Option<Verdict>, Refusal>
    ensures { IfOk result (λ found. IfSome found (λ verdict. Means verdict script.now)) }
{
    if is_never(alloc, script, states)? {
        return Ok(Some(Verdict::Never));
    }
    if is_never_here(alloc, script, states)? {
        return Ok(Some(Verdict::NeverHere));
    }
    Ok(None)
}

/// Whether no run deadlocks, with any library.
fn is_never(alloc: Global, script: &Script, states: u32) -> Result<bool, Refusal>
    ensures { IfOk result (λ is_shown. IsTrue is_shown → StallsNever script.now) }
{
    let is_shown = never_stalls_by_cases(alloc, script.history(), &Library::Any, states)?;
    Ok(is_shown)
}

/// Whether no run by this engine's schedules deadlocks.
fn is_never_here(alloc: Global, script: &Script, states: u32) -> Result<bool, Refusal>
    ensures { IfOk result (λ is_shown. IsTrue is_shown → StallsNeverBy hears_here script.now) }
{
    let job = Job::of(alloc, script)?;
    let library = Library::Hears(tables_of(alloc, &job.collectives)?);
    let is_shown = never_stalls_by_cases(alloc, script.history(), &library, states)?;
    Ok(is_shown)
}
