//! The cure of a text that deadlocks: a line that is moved.

ghost use Rattle.std.specs.Prelude.{◌<◌, IfOk, IfSome, IsTrue};
ghost use Rattle.coll_diagnosis.specs.Cures.{IsCured, IsTried};

use crate::cured_text::moved;
use crate::job::Job;
use crate::standstill::Standstill;
use crate::stuck::Stuck;
use crate::verdict::is_never_shown;
use coll_kinds::Refusal;
use coll_script::{Script, ScriptFault};
use std::alloc::Global;

/// A line that is moved to a place after a later one.
#[derive(Clone, Copy, Debug, PartialEq, Eq)]
pub struct Move {
    pub rank: u8,
    pub line: u32,
    pub behind: u32,
}

/// The most texts that are tried.
const TRIES: u32 = 64;

/// Moves a wait of the cycle after a later line of its rank, such that the text never deadlocks, if one of the first moves that
/// are tried is such. Each try reads and judges the moved text.
pub(crate) fn cure(
    alloc: Global,
    job: &Job,
    text: &[u8],
    standstill: &Standstill,
) -> Result<Option<Move>, Refusal>
    ensures { IfOk result (λ found. IfSome found (IsTried text.now)) }
{
    let mut left = TRIES;
    for rank in &standstill.circle {
        if let Some(stuck) = standstill.stuck_rank(*rank) {
            let found = cure_of(alloc, job, text, stuck, &mut left)?;
            if found.is_some() {
                return Ok(found);
            }
        }
    }
    Ok(None)
}

/// A move of the call in which this rank waits.
fn cure_of(
    alloc: Global,
    job: &Job,
    text: &[u8],
    stuck: &Stuck,
    left: &mut u32,
) -> Result<Option<Move>, Refusal>
    ensures { IfOk result (λ found. IfSome found (IsTried text.now)) }
{
    let Some(line) = stuck.line else {
        return Ok(None);
    };
    let Some(section) = job.sections.get(usize::from(stuck.rank)) else {
        return Ok(None);
    };
    for step in &section.steps {
        let behind = step.line.unwrap_or(0);
        if behind > line && *left > 0 {
            *left -= 1;
            let tried = Move {
                rank: stuck.rank,
                line,
                behind,
            };
            if is_cure(alloc, text, tried)? {
                return Ok(Some(tried));
            }
        }
    }
    Ok(None)
}

/// Whether the text with that line moved has no fault and never deadlocks, with any library.
fn is_cure(alloc: Global, text: &[u8], tried: Move) -> Result<bool, Refusal>
    requires { tried.line < tried.behind }
    ensures { IfOk result (λ is_cure. IsTrue is_cure → IsTried text.now tried) }
{
    let cured = moved(alloc, text, tried.line, tried.behind)?;
    never_stalls(alloc, &cured)
}

/// Whether the text has no fault and never deadlocks, with any library.
fn never_stalls(alloc: Global, text: &[u8]) -> Result<bool, Refusal>
    ensures { IfOk result (λ never. IsTrue never → IsCured text.now) }
{
    match Script::read(alloc, text) {
        Ok(script) => {
            let job = Job::of(alloc, &script)?;
            let is_shown = is_never_shown(alloc, &script, &job)?;
            Ok(is_shown)
        }
        Err(ScriptFault::Text(_)) => Ok(false),
        Err(ScriptFault::NoMemory) => Err(Refusal::NoMemory),
    }
}
