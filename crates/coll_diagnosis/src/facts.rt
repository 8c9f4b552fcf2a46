//! The facts of a script that a standstill is compared with, and what is looked up in them.

ghost use Rattle.std.specs.Prelude.{◌≡◌, slice_get};
ghost use Rattle.std.specs.List.{list_any};
ghost use Rattle.coll_kinds.specs.Groups.{is_among};
ghost use Rattle.coll_parser.specs.Histories.{starts};
ghost use Rattle.coll_diagnosis.specs.Standing.{awaits, completes, ends_after, is_start_in, size_of, waits};

use coll_kinds::MAX_RANKS;
use coll_parser::{Command, IssuedCommand, Named, Request};

/// What a standstill is compared with: the script's commands, requests and groups.
#[derive(Drop)]
pub(crate) struct Facts<'a> {
    /// The commands of all ranks, in the order of their lines.
    pub(crate) issued: &'a [IssuedCommand],
    /// The requests of each rank.
    pub(crate) ranks: &'a [Vec<Request<'a>>],
    /// The ranks of each communicator.
    pub(crate) groups: &'a [Vec<u8>],
}

/// Whether that line makes the start of that number of a request.
pub(crate) fn is_start_in(request: &Request<'_>, start: u32, line: u32) -> bool
    ensures { result ≡ is_start_in (slice_get request.now.starts.items start) line }
{
    match request.starts.get(start as usize) {
        Some(start) => start.line == line,
        None => false,
    }
}

/// How many members a communicator has: at most 64, as in each script.
pub(crate) fn size_of(groups: &[Vec<u8>], comm: u8) -> u8
    ensures { result ≡ size_of (slice_get groups.now comm) }
{
    match groups.get(usize::from(comm)) {
        Some(group) if group.len() < MAX_RANKS => group.len() as u8,
        Some(_) => MAX_RANKS as u8,
        None => 0,
    }
}

pub(crate) fn is_among(rank: u8, ranks: &[u8]) -> bool
    ensures { result ≡ is_among rank ranks.now }
{
    ranks.iter().any(|other| *other == rank)
}

/// Whether a command starts that request of its rank.
fn starts(request: usize, command: &Command) -> bool
    ensures { result ≡ starts request command.now }
{
    match command {
        Command::Start { req, .. } => *req as usize == request,
        Command::Post { .. } | Command::Init { .. } | Command::Free(_) => false,
        Command::Wait(_) | Command::Test(_) => false,
        Command::WaitAny(_) | Command::WaitSome(_) | Command::WaitAll(_) => false,
    }
}

/// Whether a command waits.
pub(crate) fn waits(command: &Command) -> bool
    ensures { result ≡ waits command.now }
{
    match command {
        Command::Post { .. } | Command::Start { .. } | Command::Init { .. } => false,
        Command::Test(_) | Command::Free(_) => false,
        Command::Wait(_) => true,
        Command::WaitAny(_) | Command::WaitSome(_) | Command::WaitAll(_) => true,
    }
}

/// Whether a command waits for that request of its rank.
pub(crate) fn awaits(request: usize, command: &Command) -> bool
    ensures { result ≡ awaits request command.now }
{
    match command {
        Command::Post { .. } | Command::Start { .. } | Command::Init { .. } => false,
        Command::Test(_) | Command::Free(_) => false,
        Command::Wait(req) => *req as usize == request,
        Command::WaitAny(named) | Command::WaitSome(named) | Command::WaitAll(named) => is_named(
            request, named,
        ),
    }
}

/// Whether after that line the rank starts that request again, or a call of it doesn't return before the request is complete.
pub(crate) fn ends_after(issued: &[IssuedCommand], rank: u8, request: usize, line: u32) -> bool
    ensures { result ≡ list_any (ends_after rank line request) issued.now }
{
    issued.iter().any(|issued| line < issued.line
        && issued.rank == rank
        && (starts(request, &issued.command) || completes(request, &issued.command)))
}

/// Whether a command doesn't return before that request of its rank is complete.
fn completes(request: usize, command: &Command) -> bool
    ensures { result ≡ completes request command.now }
{
    match command {
        Command::Post { .. } | Command::Start { .. } | Command::Init { .. } => false,
        Command::Test(_) | Command::Free(_) => false,
        Command::Wait(req) => *req as usize == request,
        Command::WaitAny(_) | Command::WaitSome(_) => false,
        Command::WaitAll(named) => is_named(request, named),
    }
}

/// Whether the request is one of these.
fn is_named(request: usize, named: &Named) -> bool
    ensures { result ≡ is_among request named.now }
{
    let mut is_found = false;
    for index in 0..named.len() {
        is_found = is_found || named.get(index) == request;
    }
    is_found
}
