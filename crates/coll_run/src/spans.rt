//! The times of the calls that made the entries of a trace.

ghost use Rattle.std.specs.Prelude.{◌≡◌, length, vec_len, IfErr, IfOk};
ghost use Rattle.coll_run.specs.Faults.{IsEnd};

use coll_report::{Entry, Span};
use coll_script::JobFault;
use std::alloc::{AllocError, Global};

/// The spans of a rank's entries, in the order of its calls.
#[derive(Drop)]
pub(crate) struct RankSpans {
    pub(crate) rank: u8,
    pub(crate) spans: Vec<Span>,
}

/// The spans of a trace's entries, one for each, in the order of the trace. Those of a rank are in the order of its calls,
/// which is also that of its entries.
///
/// # Errors
///
/// `Torn` if a rank has fewer spans than entries; `Memory` if memory was refused.
pub(crate) fn spans_along(
    alloc: Global,
    trace: &[Entry],
    ranks: &[RankSpans],
) -> Result<Vec<Span>, JobFault>
    ensures spans { IfOk result (λ spans. vec_len spans ≡ length trace.now) }
    ensures faults { IfErr result IsEnd }
{
    let Ok(mut next) = places(alloc, ranks.len()) else {
        return Err(JobFault::Memory);
    };
    let mut along = Vec::new(alloc);
    for entry in trace {
        let Some(span) = next_of(ranks, &mut next, usize::from(entry.rank())) else {
            return Err(JobFault::Torn);
        };
        let Ok(()) = along.push(span) else {
            return Err(JobFault::Memory);
        };
    }
    Ok(along)
}

/// Takes the next span of a rank.
fn next_of(ranks: &[RankSpans], next: &mut [usize], rank: usize) -> Option<Span> {
    let place = next.get_mut(rank)?;
    let span = ranks.get(rank)?.spans.get(*place)?;
    *place = place.checked_add(1)?;
    Some(*span)
}

/// For each rank, the index of its first span.
fn places(alloc: Global, ranks: usize) -> Result<Vec<usize>, AllocError> {
    vec![in alloc; 0; ranks]
}
