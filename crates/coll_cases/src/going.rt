//! How far ranks surely come, and how far they may come.

ghost use Rattle.std.specs.Prelude.{◌≡◌, true, IfOk, IsTrue};
ghost use Rattle.coll_parser.specs.Code.{rows_view};
ghost use Rattle.coll_parser.specs.Histories.{History};
ghost use Rattle.coll_verdict.specs.Checking.{are_apart};
ghost use Rattle.coll_verdict.specs.Code.{AreStood};
ghost use Rattle.coll_cases.specs.Code.{HavePassed, StaysFor};

use crate::putting::to_beginnings;
use crate::setup::Setup;
use coll_kinds::MAX_RANKS;
use coll_verdict::{Stood, View, all_stay, are_at_beginnings, can_go_on, go_on, pass, stays};
use std::alloc::AllocError;

/// Lets ranks go on from their beginnings while one surely can, whatever calls complete. Returns whether that was possible.
pub(crate) fn pass_all(setup: &Setup<'_>, ranks: &mut Vec<Stood>) -> Result<bool, AllocError>
    ensures { IfOk result (λ is_kept. IsTrue is_kept → (h : History) → AreStood h ranks.old.items
        → rows_view setup.now.groups.now ≡ h.groups → are_apart setup.now.groups.now ≡ true
        → HavePassed setup.now.library.now h ranks.new.items) }
{
    to_beginnings(ranks);
    if !are_at_beginnings(ranks.as_slice()) {
        return Ok(false);
    }
    let steps = step_count(ranks.as_slice());
    let mut last = 0;
    for _step in 0..steps {
        let Some(rank) = next_sure(setup, ranks.as_slice(), last) else {
            break;
        };
        if !pass(setup.library, ranks, setup.groups, rank)? {
            return Ok(false);
        }
        last = rank;
    }
    Ok(true)
}

/// Lets ranks go on from their beginnings while one perhaps can. Returns whether that was possible.
pub(crate) fn push_all(setup: &Setup<'_>, ranks: &mut Vec<Stood>) -> Result<bool, AllocError>
    ensures { IfOk result (λ is_kept. IsTrue is_kept → (h : History) → AreStood h ranks.old.items → AreStood h ranks.new.items) }
{
    to_beginnings(ranks);
    let steps = step_count(ranks.as_slice());
    let mut last = 0;
    for _step in 0..steps {
        let Some(rank) = next_unheld(setup, ranks.as_slice(), last) else {
            break;
        };
        if !push(ranks, rank)? {
            return Ok(false);
        }
        last = rank;
    }
    Ok(true)
}

/// Takes in the next command of a rank. Returns whether there is one.
fn push(ranks: &mut Vec<Stood>, rank: u8) -> Result<bool, AllocError>
    ensures { IfOk result (λ is_kept. IsTrue is_kept → (h : History) → AreStood h ranks.old.items → AreStood h ranks.new.items) }
{
    if rank as usize >= ranks.len() {
        return Ok(false);
    }
    let own = &mut ranks[rank as usize];
    let has_gone = go_on(own)?;
    Ok(has_gone)
}

/// Whether in no run the rank passes its command of that number, because no rank can go on from where it stands, and that rank stands
/// there or before.
pub(crate) fn stays_at(setup: &Setup<'_>, ranks: &[Stood], rank: usize, place: usize) -> bool
    ensures { IsTrue result → (h : History) → AreStood h ranks.now → rows_view setup.now.groups.now ≡ h.groups
        → StaysFor setup.now.library.now h rank place }
{
    let Some(own) = ranks.get(rank) else {
        return false;
    };
    if own.stand > place {
        return false;
    }
    let view = View {
        library: setup.library,
        ranks,
        groups: setup.groups,
    };
    all_stay(&view)
}

/// How many commands all ranks have together.
fn step_count(ranks: &[Stood]) -> usize {
    let mut count: usize = 0;
    for own in ranks {
        count = count.saturating_add(own.commands.len());
    }
    count
}

/// The next rank, from that one on, that surely can go on.
fn next_sure(setup: &Setup<'_>, ranks: &[Stood], last: u8) -> Option<u8> {
    let view = View {
        library: setup.library,
        ranks,
        groups: setup.groups,
    };
    for step in 0..MAX_RANKS as u8 {
        let rank = (last.saturating_add(step)) % MAX_RANKS as u8;
        if let Some(own) = ranks.get(usize::from(rank)) {
            if can_go_on(&view, own) {
                return Some(rank);
            }
        }
    }
    None
}

/// The next rank, from that one on, that isn't at its end, and of which it isn't sure that it can't go on.
fn next_unheld(setup: &Setup<'_>, ranks: &[Stood], last: u8) -> Option<u8> {
    let view = View {
        library: setup.library,
        ranks,
        groups: setup.groups,
    };
    for step in 0..MAX_RANKS as u8 {
        let rank = (last.saturating_add(step)) % MAX_RANKS as u8;
        if let Some(own) = ranks.get(usize::from(rank)) {
            if !stays(&view, own) {
                return Some(rank);
            }
        }
    }
    None
}
