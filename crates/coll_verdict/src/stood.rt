ghost use Rattle.std.specs.Prelude.{IfOk, IfSome};
ghost use Rattle.coll_verdict.specs.Code.{AreStood};

use crate::known::{KnownRequest, known_requests};
use coll_parser::{Command, History};
use std::alloc::{AllocError, Global};

/// A rank at its stand.
#[derive(Debug, Drop)]
pub struct Stood {
    pub rank: u8,
    pub commands: Vec<Command>,
    /// How many of its commands it has carried out.
    pub stand: usize,
    /// What these say of its requests.
    pub requests: Vec<KnownRequest>,
    /// For each communicator the numbers of the requests that all its commands make there, in their order. Nothing rests on
    /// them but the time that a search takes.
    pub numbers: Vec<Vec<usize>>,
}

/// All ranks at these stands; none where they aren't stands of the history's ranks. Each rank's cost is linear in all
/// commands, and quadratic in its requests.
pub fn stand_all(
    alloc: Global,
    history: &History,
    stands: &[usize],
) -> Result<Option<Vec<Stood>>, AllocError>
    ensures { IfOk result (λ found. IfSome found (λ ranks. AreStood history.now ranks.items)) }
{
    let mut ranks = Vec::new(alloc);
    for rank in 0..history.ranks() {
        let Some(stand) = stands.get(rank as usize) else {
            return Ok(None);
        };
        let commands = history.commands_of(alloc, rank)?;
        let Some(requests) = known_requests(alloc, &commands, *stand)? else {
            return Ok(None);
        };
        let numbers = numbers_of(alloc, &commands, history.groups().len())?;
        ranks.push(Stood {
            rank,
            commands,
            stand: *stand,
            requests,
            numbers,
        })?;
    }
    Ok(Some(ranks))
}

/// For each of that many communicators the numbers of the requests that the commands make there.
fn numbers_of(
    alloc: Global,
    commands: &[Command],
    comms: usize,
) -> Result<Vec<Vec<usize>>, AllocError> {
    let mut numbers = Vec::new(alloc);
    for _ in 0..comms {
        numbers.push(Vec::new(alloc))?;
    }
    let mut made: usize = 0;
    for command in commands {
        if let Some(comm) = made_on(command) {
            push_number(&mut numbers, comm, made)?;
            made = made.saturating_add(1);
        }
    }
    Ok(numbers)
}

/// The communicator on which the command makes a request.
fn made_on(command: &Command) -> Option<u8> {
    match command {
        Command::Post { comm, .. } => Some(*comm),
        Command::Init { comm, .. } => Some(*comm),
        _ => None,
    }
}

fn push_number(numbers: &mut Vec<Vec<usize>>, comm: u8, number: usize) -> Result<(), AllocError> {
    if let Some(on) = numbers.get_mut(comm as usize) {
        on.push(number)?;
    }
    Ok(())
}
