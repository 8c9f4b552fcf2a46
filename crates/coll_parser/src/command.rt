ghost use Rattle.std.specs.Prelude.{◌≡◌, ◌∷◌, [], length, is_some, IfOk};
ghost use Rattle.coll_parser.specs.Histories.{posting, postings, is_start};

use crate::given::GivenBytes;
use crate::named::Named;
use crate::posted::OwnSignature;
use std::alloc::{AllocError, Global};

/// The command of a line in a rank's section.
#[derive(Debug, Drop)]
pub enum Command {
    /// A nonblocking collective on a communicator, with what the rank gives.
    Post {
        comm: u8,
        sig: OwnSignature,
        given: GivenBytes,
    },
    /// A persistent collective on a communicator.
    Init {
        comm: u8,
        sig: OwnSignature,
    },
    /// The start of a persistent request, with what the rank gives to this start.
    Start {
        req: u32,
        given: GivenBytes,
    },
    /// Completion of one request.
    Wait(u32),
    /// A test whether one request is complete.
    Test(u32),
    /// The end of a persistent request.
    Free(u32),
    /// Completion of one of these requests.
    WaitAny(Named),
    /// Completion of at least one of these requests.
    WaitSome(Named),
    /// Completion of all these requests.
    WaitAll(Named),
}

impl Command {
    /// A copy of the command. Linear in the bytes that it gives, and in the requests that it names one by one.
    pub fn copied(&self, alloc: Global) -> Result<Command, AllocError>
        ensures { IfOk result (λ command. command ≡ self.now) }
    {
        match self {
            Command::Post { comm, sig, given } => Ok(Command::Post {
                comm: *comm,
                sig: sig.copied(alloc)?,
                given: given.copied(alloc)?,
            }),
            Command::Init { comm, sig } => Ok(Command::Init {
                comm: *comm,
                sig: sig.copied(alloc)?,
            }),
            Command::Start { req, given } => Ok(Command::Start {
                req: *req,
                given: given.copied(alloc)?,
            }),
            Command::Wait(req) => Ok(Command::Wait(*req)),
            Command::Test(req) => Ok(Command::Test(*req)),
            Command::Free(req) => Ok(Command::Free(*req)),
            Command::WaitAny(named) => Ok(Command::WaitAny(named.copied(alloc)?)),
            Command::WaitSome(named) => Ok(Command::WaitSome(named.copied(alloc)?)),
            Command::WaitAll(named) => Ok(Command::WaitAll(named.copied(alloc)?)),
        }
    }

    /// Whether the command makes a request.
    pub fn is_posting(&self) -> bool
        ensures { result ≡ is_some (posting self.now) }
    {
        matches!(self, Command::Post { .. } | Command::Init { .. })
    }

    /// Whether the command is a start.
    pub fn is_start(&self) -> bool
        ensures { result ≡ is_start self.now }
    {
        matches!(self, Command::Start { .. })
    }

    /// How many requests the command makes: 1 or 0.
    pub(crate) fn made(&self) -> u32
        ensures { result ≡ length (postings (self.now ∷ [])) }
    {
        match self {
            Command::Post { .. } => 1,
            Command::Init { .. } => 1,
            Command::Start { .. } => 0,
            Command::Wait(_) => 0,
            Command::Test(_) => 0,
            Command::Free(_) => 0,
            Command::WaitAny(_) => 0,
            Command::WaitSome(_) => 0,
            Command::WaitAll(_) => 0,
        }
    }
}
