use coll_script::{Command, Named};
use std::alloc::{AllocError, Global};

/// A command of a rank, as far as it bears on which rank waits for which.
#[derive(Debug, Drop)]
pub struct Step {
    /// The line, from 1 on; None for the unwritten `waitall` at the end.
    pub line: Option<u32>,
    pub act: Act,
}

/// What a command does with the rank's requests.
#[derive(Debug, Drop)]
pub enum Act {
    /// A post or a start: the request is active from here on.
    Give(usize),
    /// An initialisation of the request of that number, which starts nothing.
    Make(usize),
    /// A free, which starts and completes nothing.
    Still,
    /// A call that completes some of these requests.
    Complete { call: Completes, requests: Named },
}

/// Which of the named requests a call completes.
#[derive(Clone, Copy, Debug, PartialEq, Eq)]
pub enum Completes {
    /// All, and it waits for all: `wait` and `waitall`.
    All,
    /// One, and it waits for one: `waitany`.
    Any,
    /// Those that are done, and it waits for at least one: `waitsome`.
    Some,
    /// Those that are done, without a wait: `test`.
    Test,
}

impl Completes {
    /// Whether it depends on time what the call completes.
    pub fn is_open(self) -> bool {
        self != Completes::All
    }
}

impl Act {
    /// What a command does. `made` is the number of requests that the commands before it made.
    pub(crate) fn of(alloc: Global, command: &Command, made: usize) -> Result<Act, AllocError> {
        let (call, requests) = match command {
            Command::Post { .. } => return Ok(Act::Give(made)),
            Command::Start { req, .. } => return Ok(Act::Give(*req as usize)),
            Command::Init { .. } => return Ok(Act::Make(made)),
            Command::Free(_) => return Ok(Act::Still),
            Command::Wait(req) => (Completes::All, Named::one(*req)),
            Command::Test(req) => (Completes::Test, Named::one(*req)),
            Command::WaitAny(named) => (Completes::Any, named.copied(alloc)?),
            Command::WaitSome(named) => (Completes::Some, named.copied(alloc)?),
            Command::WaitAll(named) => (Completes::All, named.copied(alloc)?),
        };
        Ok(Act::Complete { call, requests })
    }

    /// Whether the act completes requests, and it depends on time which ones.
    pub(crate) fn is_open(&self) -> bool {
        match self {
            Act::Give(_) | Act::Make(_) | Act::Still => false,
            Act::Complete { call, .. } => call.is_open(),
        }
    }
}
