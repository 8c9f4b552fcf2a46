//! The ranks that wait for themselves by way of others.

use crate::members::Members;
use crate::stuck::Stuck;
use coll_kinds::MAX_RANKS;
use std::alloc::{AllocError, Global};

/// The ranks that wait for themselves by way of others, in rising order, of those that wait at all. Cubic in the ranks.
pub(crate) fn circle(alloc: Global, stuck: &[Stuck]) -> Result<Vec<u8>, AllocError> {
    let mut awaited = awaited(alloc, stuck)?;
    for by in 0..MAX_RANKS as u8 {
        pass_on(by, &mut awaited);
    }
    (0..MAX_RANKS as u8)
        .zip(&awaited)
        .filter(|(rank, awaited)| awaited.contains(*rank))
        .map(|(rank, _)| rank)
        .collect(alloc)
}

/// For each rank, the ranks for which it waits.
pub(crate) fn awaited(alloc: Global, stuck: &[Stuck]) -> Result<Vec<Members>, AllocError> {
    let mut awaited = vec![in alloc; Members::NONE; MAX_RANKS]?;
    for stuck in stuck {
        if let Some(awaited) = awaited.get_mut(usize::from(stuck.rank)) {
            note(stuck, awaited);
        }
    }
    Ok(awaited)
}

/// Adds the ranks for which this rank waits.
fn note(stuck: &Stuck, awaited: &mut Members) {
    for request in &stuck.requests {
        for lack in &request.lacks {
            awaited.insert(lack.rank);
        }
    }
}

/// Adds, for each rank that waits for `by`, all ranks for which `by` waits.
fn pass_on(by: u8, awaited: &mut [Members]) {
    let Some(further) = awaited.get(usize::from(by)).copied() else {
        return;
    };
    for awaited in awaited.iter_mut() {
        if awaited.contains(by) {
            awaited.insert_all(&further);
        }
    }
}
