//! Another command in the place of one.

ghost use Rattle.std.specs.Prelude.{◌≡◌, ℕ, List, IfOk, IsTrue};
ghost use Rattle.coll_parser.specs.Histories.{History};
ghost use Rattle.coll_verdict.specs.Code.{AreStood};
ghost use Rattle.coll_cases.specs.Code.{IsCall, IsPut, IsReset, Puts};
ghost use Rattle.coll_cases.specs.Outcomes.{fixed};

use crate::split::Split;
use coll_parser::{Command, Named};
use coll_verdict::Stood;
use std::alloc::{AllocError, Global};

/// Lets a call complete exactly these requests: in its place its rank waits for them. Returns whether there is such a call.
pub(crate) fn put_outcome(
    alloc: Global,
    ranks: &mut Vec<Stood>,
    split: &Split,
    outcome: &[u32],
) -> Result<bool, AllocError>
    ensures { IfOk result (λ is_put. IsTrue is_put → (h : History) → IsCall h split.now → AreStood h ranks.old.items
        → AreStood (fixed h split.now.rank split.now.place outcome.now) ranks.new.items) }
{
    let completes = Named::these(Vec::from_slice(alloc, outcome)?);
    let is_put = put(ranks, split.rank, split.place, Command::WaitAll(completes));
    Ok(is_put)
}

/// Puts the call in its place again. Returns whether there is one.
pub(crate) fn put_back(
    alloc: Global,
    ranks: &mut Vec<Stood>,
    split: &Split,
) -> Result<bool, AllocError>
    ensures { IfOk result (λ is_put. IsTrue is_put → (h : History) (out : List ℕ) → IsCall h split.now
        → AreStood (fixed h split.now.rank split.now.place out) ranks.old.items → AreStood h ranks.new.items) }
{
    let command = split.command.copied(alloc)?;
    let is_put = put(ranks, split.rank, split.place, command);
    Ok(is_put)
}

/// Puts a command in the place of one, and its rank to its beginning. Returns whether there is one in that place.
fn put(ranks: &mut Vec<Stood>, rank: usize, place: usize, command: Command) -> bool
    ensures { IsTrue result → Puts ranks.old.items ranks.new.items rank place command }
{
    if rank >= ranks.len() {
        return false;
    }
    let own = &mut ranks[rank];
    let is_put = put_in(own, place, command);
    is_put
}

fn put_in(own: &mut Stood, place: usize, command: Command) -> bool
    ensures { IsTrue result → IsPut own.old own.new place command }
{
    if place >= own.commands.len() {
        return false;
    }
    own.commands[place] = command;
    own.stand = 0;
    own.requests.clear();
    true
}

/// Puts all ranks to their beginnings.
pub(crate) fn to_beginnings(ranks: &mut Vec<Stood>)
    ensures { (h : History) → AreStood h ranks.old.items → AreStood h ranks.new.items }
{
    for index in 0..ranks.len() {
        to_beginning(&mut ranks[index]);
    }
}

fn to_beginning(own: &mut Stood)
    ensures { IsReset own.old own.new }
{
    own.stand = 0;
    own.requests.clear();
}
