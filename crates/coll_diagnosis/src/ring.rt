//! The fewest ranks that wait for one another in a ring.

use crate::circle::awaited;
use crate::members::Members;
use crate::stuck::Stuck;
use coll_kinds::MAX_RANKS;
use std::alloc::{AllocError, Global};

/// The ranks of a shortest cycle: each waits for the next one, and the last for the first. If there are several, the one with
/// the lowest rank; empty if no rank waits for itself by way of others.
pub(crate) fn shortest_ring(alloc: Global, stuck: &[Stuck]) -> Result<Vec<u8>, AllocError> {
    let awaited = awaited(alloc, stuck)?;
    let mut shortest = Vec::new(alloc);
    let mut most = MAX_RANKS;
    for rank in 0..MAX_RANKS as u8 {
        if let Some(levels) = levels(alloc, &awaited, rank, most)? {
            most = levels.len().saturating_sub(1);
            shortest = ring_of(alloc, &awaited, &levels, rank)?;
        }
    }
    Ok(shortest)
}

/// Level 0 is `rank` itself; each further level has the ranks for which those of the level before wait. The last level has a
/// rank that waits for `rank`. None if there would be more than `most` levels.
fn levels(
    alloc: Global,
    awaited: &[Members],
    rank: u8,
    most: usize,
) -> Result<Option<Vec<Members>>, AllocError> {
    let mut levels = Vec::new(alloc);
    let mut level = Members::one(rank);
    for _ in 0..most {
        levels.push(level)?;
        level = awaited_by(awaited, &level);
        if level.contains(rank) {
            return Ok(Some(levels));
        }
    }
    Ok(None)
}

/// The ranks for which some of these ranks wait.
fn awaited_by(awaited: &[Members], ranks: &Members) -> Members {
    let mut all = Members::NONE;
    for (rank, awaited) in (0..MAX_RANKS as u8).zip(awaited) {
        if ranks.contains(rank) {
            all.insert_all(awaited);
        }
    }
    all
}

/// One rank of each level: each waits for that of the next level, and the last one for `rank`.
fn ring_of(
    alloc: Global,
    awaited: &[Members],
    levels: &[Members],
    rank: u8,
) -> Result<Vec<u8>, AllocError> {
    let mut ring = Vec::new(alloc);
    let mut next = rank;
    for level in levels.iter().rev() {
        next = waits_for(awaited, level, next);
        ring.push(next)?;
    }
    ring.reverse();
    Ok(ring)
}

/// The lowest of these ranks that waits for `awaited_rank`.
fn waits_for(awaited: &[Members], ranks: &Members, awaited_rank: u8) -> u8 {
    let found = (0..MAX_RANKS as u8).zip(awaited).find(|(rank, awaited)| {
        ranks.contains(*rank) && awaited.contains(awaited_rank)
    });
    match found {
        Some((rank, _)) => rank,
        None => awaited_rank,
    }
}
