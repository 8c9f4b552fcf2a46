ghost use Rattle.std.specs.Prelude.{◌≡◌, ◌+◌, ◌<◌, Some, IfSome, OnOk, unwrap_or};
ghost use Rattle.coll_parser.specs.Histories.{beginning, posting, postings, issued_by, total};
ghost use Rattle.coll_parser.specs.Lines.{issue};
ghost use Rattle.coll_parser.specs.Sound.{MayIssue};
ghost use Rattle.coll_parser.specs.Code.{history_of, IsReader, IsStamped};

use crate::command::Command;
use crate::issued_command::IssuedCommand;
use crate::section::Section;
use std::alloc::{AllocError, Global};

/// What is kept of a text while its lines are read: the history, and counters beside it.
#[derive(Debug, Drop)]
pub(crate) struct Reader {
    /// The number of ranks, from 1 to 64, once it is known.
    pub(crate) ranks: Option<u8>,
    /// The ranks that are the members of each communicator, in the order of their member numbers.
    pub(crate) groups: Vec<Vec<u8>>,
    /// The rank whose section is open.
    pub(crate) opened: Option<u8>,
    /// The commands so far, in the order of their lines.
    pub(crate) commands: Vec<IssuedCommand>,
    /// What is kept of each rank's section; empty until the number of ranks is known.
    pub(crate) sections: Vec<Section>,
    /// For each rank and some of its first requests, the last line that named the request among several.
    pub(crate) stamps: Vec<Vec<u32>>,
    /// The number of requests of all ranks.
    pub(crate) total: u32,
}

impl Reader {
    /// The state before the first line.
    pub(crate) fn new(alloc: Global) -> Reader
        ensures begun { history_of result ≡ beginning }
        ensures reader { IsReader 1 result }
        ensures stamped { IsStamped 1 result }
    {
        Reader {
            ranks: None,
            groups: Vec::new(alloc),
            opened: None,
            commands: Vec::new(alloc),
            sections: Vec::new(alloc),
            stamps: Vec::new(alloc),
            total: 0,
        }
    }

    /// Adds a command that a rank issues in the line of that number. The cost is linear in the line.
    pub(crate) fn issue(
        &mut self,
        number: u32,
        rank: u8,
        command: Command,
    ) -> Result<(), AllocError>
        requires reader { IsReader number self.old }
        requires stamped { IsStamped (number + 1) self.old }
        requires rank { rank < unwrap_or self.old.ranks 0 }
        requires opened { self.old.opened ≡ Some rank }
        requires may { MayIssue (history_of self.old).groups rank (issued_by rank self.old.commands.items) command }
        requires room { IfSome (posting command) (λ p. total self.old.commands.items < 4096) }
        ensures issued { OnOk result (history_of self.new ≡ issue number rank command (history_of self.old)) }
        ensures reader { OnOk result (IsReader (number + 1) self.new) }
        ensures stamped { OnOk result (IsStamped (number + 1) self.new) }
    {
        self.total += command.made();
        self.sections[rank as usize].note(number, &command)?;
        self.commands.push(IssuedCommand {
            line: number,
            rank,
            command,
        })?;
        Ok(())
    }
}
