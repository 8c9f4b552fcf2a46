ghost use Rattle.coll_kinds.specs.Limits.{max_text};
ghost use Rattle.std.specs.Prelude.{◌≡◌, ◌≤◌, [], length, is_some, unwrap_or, Ok, IfOk, OnOk, MatchResult};
ghost use Rattle.std.specs.List.{AllByRecursion};
ghost use Rattle.coll_parser.specs.Cutting.{lines_of};
ghost use Rattle.coll_parser.specs.Histories.{beginning, commands_of};
ghost use Rattle.coll_parser.specs.Judging.{judged};
ghost use Rattle.coll_parser.specs.Code.{rows_view, requests_view, FailsText};
ghost use Rattle.coll_parser.specs.Requests.{requests};
ghost use Rattle.coll_parser.specs.Sound.{IsSound};

use crate::command::Command;
use crate::cutting::body;
use crate::fault::ScriptFault;
use crate::issued_command::IssuedCommand;
use crate::named::Named;
use crate::reader::Reader;
use crate::request::{Request, note};
use std::alloc::{AllocError, Global};
use std::marker::Model;

/// What the lines of a text have said: the number of ranks, their communicators, and the commands in the order of their lines.
#[derive(Debug, Drop)]
pub struct History {
    ranks: Option<u8>,
    groups: Vec<Vec<u8>>,
    opened: Option<u8>,
    commands: Vec<IssuedCommand>,
}

impl Model for History {
    ghost use Rattle.coll_parser.specs.Histories.{History};
    ghost use Rattle.coll_parser.specs.Sound.{IsHistory};
    ghost use Rattle.coll_parser.specs.Code.{rows_view};

    ghost Value = { History };

    ghost view = { λ h. record { ranks = h.ranks; groups = rows_view h.groups.items; opened = h.opened; commands = h.commands.items } };

    ghost invariant = { λ h. IsHistory 1048578
        (record { ranks = h.ranks; groups = rows_view h.groups.items; opened = h.opened; commands = h.commands.items }) };
}

impl History {
    /// Reads a text of at most [`coll_kinds::MAX_TEXT`] bytes: its history, or the first fault of a line. Linear in the text.
    /// What is judged after the last line is left to the caller.
    ///
    /// # Errors
    ///
    /// [`ScriptFault::Text`] is a fault of a line; [`ScriptFault::NoMemory`] means that memory was refused.
    pub fn read(alloc: Global, text: &[u8]) -> Result<History, ScriptFault>
        requires { length text.now ≤ max_text }
        ensures { MatchResult result
            (λ history. judged 1 beginning (lines_of text.now) ≡ Ok history)
            (λ fault. FailsText fault (judged 1 beginning (lines_of text.now))) }
    {
        let mut reader = Reader::new(alloc);
        let mut words = Vec::new(alloc);
        let mut number = 1;
        for bytes in body(text).split(|b| *b == b'\n') {
            match reader.read_line(alloc, number, bytes, &mut words) {
                Ok(()) => number += 1,
                Err(fault) => return Err(fault.in_line(number)),
            }
        }
        Ok(History {
            ranks: reader.ranks,
            groups: reader.groups,
            opened: reader.opened,
            commands: reader.commands,
        })
    }

    /// Whether the text states the number of ranks.
    pub fn has_ranks(&self) -> bool
        ensures { result ≡ is_some self.now.ranks }
    {
        self.ranks.is_some()
    }

    /// The number of ranks; 0 if the text doesn't state it.
    pub fn ranks(&self) -> u8
        ensures { result ≡ unwrap_or self.now.ranks 0 }
    {
        self.ranks.unwrap_or(0)
    }

    /// The members of each communicator, in the order of their member numbers.
    pub fn groups(&self) -> &[Vec<u8>]
        ensures groups { rows_view result.now ≡ self.now.groups }
    {
        &self.groups
    }

    /// The commands of all ranks, in the order of their lines.
    pub fn commands(&self) -> &[IssuedCommand]
        ensures commands { result.now ≡ self.now.commands }
        ensures few { length result.now ≤ 1048577 }
    {
        &self.commands
    }

    /// The commands of a rank, in the order of their lines, and after them the unwritten `waitall` of all its requests. Linear
    /// in all commands, and in the bytes that those of the rank give.
    pub fn commands_of(&self, alloc: Global, rank: u8) -> Result<Vec<Command>, AllocError>
        ensures { IfOk result (λ commands. commands.items ≡ commands_of self.now rank) }
    {
        let mut commands = Vec::new(alloc);
        let mut made = 0;
        for issued in &self.commands {
            if issued.rank == rank {
                made += issued.command.made();
                commands.push(issued.command.copied(alloc)?)?;
            }
        }
        commands.push(Command::WaitAll(Named::first(made)))?;
        Ok(commands)
    }

    /// The requests of each rank. Linear in the commands, and for each communicator in the requests.
    pub fn requests<'a>(&'a self, alloc: Global) -> Result<Vec<Vec<Request<'a>>>, AllocError>
        ensures view { IfOk result (λ ranks. requests_view ranks.items ≡ requests self.now) }
        ensures sound { OnOk result (IsSound self.now) }
    {
        let mut ranks = none(alloc, self.ranks())?;
        for issued in &self.commands {
            note(
                alloc,
                &self.groups,
                issued,
                &mut ranks[issued.rank as usize],
            )?;
        }
        Ok(ranks)
    }
}

/// An empty list of requests for each of `n` ranks.
fn none<'a>(alloc: Global, n: u8) -> Result<Vec<Vec<Request<'a>>>, AllocError>
    ensures count { IfOk result (λ ranks. length ranks.items ≡ n) }
    ensures none { IfOk result (λ ranks. AllByRecursion (λ requests. requests ≡ []) (requests_view ranks.items)) }
{
    let mut ranks = Vec::new(alloc);
    for _ in 0..n {
        ranks.push(Vec::new(alloc))?;
    }
    Ok(ranks)
}
