//! What a trace says of each rank when the engine is to be closed.

ghost use Rattle.std.specs.Prelude.{◌≡◌, ◌<◌, ◌+◌, ◌^◌, ◌==◌, ◌↔◌, ℕ, Contains, IfSome, IsNone, IsTrue, cond, length, slice_index};
ghost use Rattle.coll_report.specs.Traces.{caller, completes_by};
ghost use Rattle.coll_report.specs.Views.{seen, trace_seen};
ghost use Rattle.coll_traced.specs.Closings.{AreCounts, AreEnds, IsBalanced, begins_by, is_rank};

use crate::spent::Spent;
use crate::tally::Entries;
use coll_report::Entry;

/// How many rank numbers there are.
const RANKS: usize = 256;

/// Returns the rank whose request the entry activates by a post or a start.
fn beginner(entry: &Entry) -> Option<u8>
    ensures { (r : ℕ) → is_rank r result ≡ begins_by r (seen entry.now) }
{
    match entry {
        Entry::Posted { rank, .. } => Some(*rank),
        Entry::Inited { .. } => None,
        Entry::Started { rank, .. } => Some(*rank),
        Entry::Retired { .. } => None,
        Entry::Freed { .. } => None,
    }
}

/// Returns the rank whose request the entry completes.
fn completer(entry: &Entry) -> Option<u8>
    ensures { (r : ℕ) → is_rank r result ≡ completes_by r (seen entry.now) }
{
    match entry {
        Entry::Posted { .. } => None,
        Entry::Inited { .. } => None,
        Entry::Started { .. } => None,
        Entry::Retired { rank, .. } => Some(*rank),
        Entry::Freed { .. } => None,
    }
}

/// Adds one to the rank's count, if there is a rank.
fn count(counts: &mut [usize; RANKS], rank: Option<u8>)
    requires all { length counts.old ≡ 256 }
    requires few { (r : ℕ) → r < 256 → slice_index counts.old r + 1 < 2 ^ 64 }
    ensures all { length counts.new ≡ 256 }
    ensures each { (r : ℕ) → r < 256 → slice_index counts.new r ≡ slice_index counts.old r + cond (is_rank r rank) 1 0 }
{
    if let Some(rank) = rank {
        counts[rank as usize] += 1;
    }
}

/// Counts each rank's posts and starts.
fn count_begun(entries: &[Entry]) -> [usize; RANKS]
    ensures { AreCounts begins_by (trace_seen entries.now) result }
{
    let mut counts = [0; RANKS];
    for entry in entries {
        count(&mut counts, beginner(entry));
    }
    counts
}

/// Counts each rank's completions.
fn count_completed(entries: &[Entry]) -> [usize; RANKS]
    ensures { AreCounts completes_by (trace_seen entries.now) result }
{
    let mut counts = [0; RANKS];
    for entry in entries {
        count(&mut counts, completer(entry));
    }
    counts
}

/// Returns the lowest rank with more posts and starts than completions. Linear in the trace.
pub(crate) fn first_unbalanced(entries: &[Entry], ranks: u8) -> Option<u8>
    ensures none { IsNone result → (r : ℕ) → r < ranks → IsBalanced r (trace_seen entries.now) }
    ensures some { IfSome result (λ rank. IsBalanced rank (trace_seen entries.now) → ⊥) }
    ensures first { IfSome result (λ rank. (r : ℕ) → r < rank → IsBalanced r (trace_seen entries.now)) }
{
    let begun = count_begun(entries);
    let completed = count_completed(entries);
    for rank in 0..ranks {
        if begun[rank as usize] != completed[rank as usize] {
            return Some(rank);
        }
    }
    None
}

/// Counts each rank's entries.
fn count_made(entries: &[Entry]) -> [usize; RANKS]
    ensures { AreCounts (λ rank e. caller e == rank) (trace_seen entries.now) result }
{
    let mut counts = [0; RANKS];
    for entry in entries {
        count(&mut counts, Some(entry.rank()));
    }
    counts
}

/// Tells whether `spent` is the end of the rank's port, with `made` entries.
fn is_end<L: Entries>(spent: &Spent<L>, rank: u8, made: usize) -> bool
    ensures { IsTrue result ↔ (spent.now ≡ (rank, made)) }
{
    spent.rank() == rank && spent.made() == made as u64
}

/// Tells whether one of `spents` is the end of the rank's port with that many entries.
fn has_end<L: Entries>(spents: &[Spent<L>], rank: u8, made: usize) -> bool
    ensures { IsTrue result ↔ Contains spents.now (rank, made) }
{
    for spent in spents {
        if is_end(spent, rank, made) {
            return true;
        }
    }
    false
}

/// Tells whether `spents` are the ends of one port of each rank, in any order, each with as many
/// entries as its rank has in the trace. Linear in the trace, and in the ends for each rank.
pub(crate) fn are_ends<L: Entries>(entries: &[Entry], ranks: u8, spents: &[Spent<L>]) -> bool
    ensures { IsTrue result ↔ AreEnds ranks (trace_seen entries.now) spents.now }
{
    if spents.len() != ranks as usize {
        return false;
    }
    let made = count_made(entries);
    for rank in 0..ranks {
        if !has_end(spents, rank, made[rank as usize]) {
            return false;
        }
    }
    true
}
