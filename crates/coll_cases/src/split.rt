//! The call that is fixed next.

ghost use Rattle.std.specs.Prelude.{IfOk, IfSome};
ghost use Rattle.coll_parser.specs.Histories.{History};
ghost use Rattle.coll_verdict.specs.Code.{AreStood};
ghost use Rattle.coll_cases.specs.Code.{IsSplit};

use crate::outcomes::outcomes_of;
use coll_parser::{Command, Named};
use coll_verdict::{Stood, known_requests};
use std::alloc::{AllocError, Global};

/// A call that its rank has passed, and what it may complete.
#[derive(Debug, Drop)]
pub(crate) struct Split {
    pub(crate) rank: usize,
    /// The number of commands of the rank before the call.
    pub(crate) place: usize,
    pub(crate) command: Command,
    pub(crate) outcomes: Vec<Vec<u32>>,
}

/// A call to be fixed: the first one of a rank that can't go on, if it has passed one that matters.
pub(crate) fn split_of(alloc: Global, ranks: &[Stood]) -> Result<Option<Split>, AllocError>
    ensures { IfOk result (λ found. IfSome found (λ split. (h : History) → AreStood h ranks.now → IsSplit h ranks.now split)) }
{
    for (rank, own) in ranks.iter().enumerate() {
        if own.stand < own.commands.len() {
            if let Some(place) = open_place(own) {
                return split_at(alloc, ranks, rank, place);
            }
        }
    }
    Ok(None)
}

/// That call of a rank, if the rank has passed it, and it depends on time what it completes.
fn split_at(
    alloc: Global,
    ranks: &[Stood],
    rank: usize,
    place: usize,
) -> Result<Option<Split>, AllocError>
    ensures { IfOk result (λ found. IfSome found (λ split. (h : History) → AreStood h ranks.now → IsSplit h ranks.now split)) }
{
    let Some(own) = ranks.get(rank) else {
        return Ok(None);
    };
    if place >= own.stand {
        return Ok(None);
    }
    let Some(command) = own.commands.get(place) else {
        return Ok(None);
    };
    let Some(known) = known_requests(alloc, &own.commands, place)? else {
        return Ok(None);
    };
    let Some(outcomes) = outcomes_of(alloc, command, &known)? else {
        return Ok(None);
    };
    let command = command.copied(alloc)?;
    Ok(Some(Split {
        rank,
        place,
        command,
        outcomes,
    }))
}

/// The place of the first call that a rank has passed and that matters for a later one.
fn open_place(own: &Stood) -> Option<usize> {
    for (place, command) in own.commands.iter().enumerate() {
        if place < own.stand && matters(own, place, command) {
            return Some(place);
        }
    }
    None
}

/// Whether it depends on time what a call completes, and, of a test, a later call chooses among requests of which the tested one is one.
fn matters(own: &Stood, place: usize, command: &Command) -> bool {
    match command {
        Command::WaitAny(_) | Command::WaitSome(_) => true,
        Command::Test(request) => is_chosen_later(own, place, *request),
        _ => false,
    }
}

fn is_chosen_later(own: &Stood, place: usize, request: u32) -> bool {
    for (later, command) in own.commands.iter().enumerate() {
        if later > place && later <= own.stand && chooses(command, request) {
            return true;
        }
    }
    false
}

/// Whether a call chooses among requests of which this one is one.
fn chooses(command: &Command, request: u32) -> bool {
    match command {
        Command::WaitAny(named) | Command::WaitSome(named) => {
            (0..named.len()).any(|index| named.get(index) == request as usize)
        }
        _ => false,
    }
}
