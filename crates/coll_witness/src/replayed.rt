//! What runs show, by a replay of each: whoever found them is trusted with nothing.

ghost use Rattle.std.specs.Prelude.{IfOk, IfSome};
ghost use Rattle.coll_witness.specs.Findings.{Means};

use crate::finding::Finding;
use coll_kinds::Refusal;
use coll_replay::{Move, ends_by, stalls_by};
use coll_script::Script;
use std::alloc::Global;

/// Replays a schedule that is said to deadlock, and perhaps one that is said to end. None if the first one doesn't deadlock.
///
/// # Errors
///
/// `NoMemory`, and refusals of the engine.
pub(crate) fn replayed(
    alloc: Global,
    script: &Script,
    stalling: &[Move],
    ending: &[Move],
) -> Result<Option<Finding>, Refusal>
    ensures { IfOk result (λ found. IfSome found (λ finding. Means finding script.now)) }
{
    if !stalls_by(alloc, script, stalling)? {
        return Ok(None);
    }
    if ends_by(alloc, script, ending)? {
        return Ok(Some(Finding::Sometimes));
    }
    Ok(Some(Finding::InSome))
}
