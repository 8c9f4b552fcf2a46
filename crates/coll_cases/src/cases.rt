//! No run deadlocks, by cases.

ghost use Rattle.std.specs.Prelude.{◌≡◌, true, IfOk, IsTrue};
ghost use Rattle.coll_parser.specs.Code.{rows_view};
ghost use Rattle.coll_parser.specs.Histories.{History};
ghost use Rattle.coll_verdict.specs.Checking.{are_apart};
ghost use Rattle.coll_verdict.specs.Code.{AreStood, NeverFor};
ghost use Rattle.coll_cases.specs.Code.{IsShown};

use crate::going::{pass_all, push_all, stays_at};
use crate::putting::{put_back, put_outcome};
use crate::setup::Setup;
use crate::split::split_of;
use coll_parser::History;
use coll_verdict::{Library, Stood, are_apart, are_at_ends, stand_all};
use std::alloc::{AllocError, Global};

/// How many calls are fixed at once at most.
const DEPTH: u32 = 32;

/// Whether no run of the job deadlocks with such a library, by cases of what calls complete whose effect depends on time: in `states`
/// cases at most. Where it shows nothing, nothing is known of the job. For each case the cost is that of `never_stalls_by`.
pub fn never_stalls_by_cases(
    alloc: Global,
    history: &History,
    library: &Library,
    states: u32,
) -> Result<bool, AllocError>
    ensures { IfOk result (λ is_shown. IsTrue is_shown → NeverFor library.now history.now) }
{
    let groups = history.groups();
    if !are_apart(groups) {
        return Ok(false);
    }
    let stands = vec![in alloc; 0usize; history.ranks() as usize]?;
    let Some(mut ranks) = stand_all(alloc, history, &stands)? else {
        return Ok(false);
    };
    let setup = Setup { library, groups };
    let mut left = states;
    let is_never = is_shown(alloc, &setup, &mut ranks, DEPTH, &mut left)?;
    Ok(is_never)
}

/// Whether no run of the job of these ranks deadlocks. What `left` counts is made less by one for each case.
fn is_shown(
    alloc: Global,
    setup: &Setup<'_>,
    ranks: &mut Vec<Stood>,
    depth: u32,
    left: &mut u32,
) -> Result<bool, AllocError>
    ensures { IfOk result (λ is_never. IsTrue is_never → (h : History) → AreStood h ranks.old.items
        → rows_view setup.now.groups.now ≡ h.groups → are_apart setup.now.groups.now ≡ true
        → IsShown setup.now.library.now h ranks.new.items) }
{
    if depth == 0 {
        return Ok(false);
    }
    if *left == 0 {
        return Ok(false);
    }
    *left -= 1;
    if !pass_all(setup, ranks)? {
        return Ok(false);
    }
    if are_at_ends(ranks.as_slice()) {
        return Ok(true);
    }
    let Some(found) = split_of(alloc, ranks.as_slice())? else {
        return Ok(false);
    };
    let split = &found;
    for outcome in &split.outcomes {
        if !put_outcome(alloc, ranks, split, outcome)? {
            return Ok(false);
        }
        if !push_all(setup, ranks)? {
            return Ok(false);
        }
        if !stays_at(setup, ranks.as_slice(), split.rank, split.place)
            && !is_shown(alloc, setup, ranks, depth - 1, left)?
        {
            return Ok(false);
        }
        if !put_back(alloc, ranks, split)? {
            return Ok(false);
        }
    }
    Ok(true)
}
