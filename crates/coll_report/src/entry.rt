ghost use Rattle.std.specs.Prelude.{◌≡◌, ◌↔◌, IsTrue};

use coll_bytes::Bytes;
use coll_core::Outcome;
use coll_kinds::{Signature, Ticket};
use std::sync::Arc;

/// An accepted call that changed a request. Refused calls, and tests that complete nothing, have no entry.
#[derive(Debug, Drop)]
pub enum Entry {
    /// A nonblocking collective was posted (MPI 4.1, 6.12).
    Posted {
        /// The world rank whose call it was.
        rank: u8,
        /// The request that it made.
        ticket: Ticket,
        comm: u32,
        /// How many of its member's posts and initialisations on the communicator came before.
        place: u32,
        sig: Arc<Signature>,
        /// What the member gave.
        bytes: Bytes,
    },
    /// A persistent collective was initialised (MPI 4.1, 6.13).
    Inited {
        rank: u8,
        ticket: Ticket,
        comm: u32,
        place: u32,
        sig: Arc<Signature>,
    },
    /// A persistent request was started (MPI 4.1, 3.9).
    Started {
        rank: u8,
        ticket: Ticket,
        /// How many of the request's starts came before.
        start: u32,
        bytes: Bytes,
    },
    /// A request was completed (MPI 4.1, 3.7.3).
    Retired {
        rank: u8,
        ticket: Ticket,
        comm: u32,
        place: u32,
        /// The start that was completed, counted as in `Started`; 0 for a post.
        start: u32,
        /// The collective's value at the member.
        bytes: Bytes,
    },
    /// A persistent request was freed (MPI 4.1, 3.7.3).
    Freed {
        rank: u8,
        ticket: Ticket,
    },
}

impl Entry {
    ghost use Rattle.coll_machine.specs.Reports.{posts_by};
    ghost use Rattle.coll_report.specs.Attested.{HandsOut, attests, key_of};
    ghost use Rattle.coll_report.specs.Comparisons.{ticket_made};
    ghost use Rattle.coll_report.specs.Traces.{caller, completes_by};
    ghost use Rattle.coll_report.specs.Views.{seen};

    /// The world rank whose call it was.
    pub fn rank(&self) -> u8
        ensures { result ≡ caller (seen self.now) }
    {
        match self {
            Entry::Posted { rank, .. } => *rank,
            Entry::Inited { rank, .. } => *rank,
            Entry::Started { rank, .. } => *rank,
            Entry::Retired { rank, .. } => *rank,
            Entry::Freed { rank, .. } => *rank,
        }
    }

    /// The ticket of the request that it made.
    pub(crate) fn made(&self) -> Option<Ticket>
        ensures { result ≡ ticket_made (seen self.now) }
    {
        match self {
            Entry::Posted { ticket, .. } => Some(*ticket),
            Entry::Inited { ticket, .. } => Some(*ticket),
            Entry::Started { .. } => None,
            Entry::Retired { .. } => None,
            Entry::Freed { .. } => None,
        }
    }

    /// Whether it is a post, an initialisation or a start of the rank.
    pub(crate) fn is_post_of(&self, of: u8) -> bool
        ensures { result ≡ posts_by of (seen self.now) }
    {
        match self {
            Entry::Posted { rank, .. } => *rank == of,
            Entry::Inited { rank, .. } => *rank == of,
            Entry::Started { rank, .. } => *rank == of,
            Entry::Retired { .. } => false,
            Entry::Freed { .. } => false,
        }
    }

    /// Whether it is a completion of the rank.
    pub(crate) fn is_completion_of(&self, of: u8) -> bool
        ensures { result ≡ completes_by of (seen self.now) }
    {
        match self {
            Entry::Posted { .. } => false,
            Entry::Inited { .. } => false,
            Entry::Started { .. } => false,
            Entry::Retired { rank, .. } => *rank == of,
            Entry::Freed { .. } => false,
        }
    }

    /// Whether it is the completion that handed out the outcome.
    pub(crate) fn hands_out(&self, outcome: &Outcome) -> bool
        ensures { IsTrue result ↔ HandsOut (seen self.now) outcome.now }
    {
        self.attests(outcome)
    }

    /// The test of `hands_out`, field by field.
    pub(crate) fn attests(&self, outcome: &Outcome) -> bool
        ensures { result ≡ attests outcome.now.rank (key_of outcome.now) outcome.now.bytes (seen self.now) }
    {
        match self {
            Entry::Posted { .. } => false,
            Entry::Inited { .. } => false,
            Entry::Started { .. } => false,
            Entry::Retired {
                rank,
                comm,
                place,
                start,
                bytes,
                ..
            } => {
                *rank == outcome.rank
                    && *comm == outcome.comm
                    && *place == outcome.place
                    && *start == outcome.start
                    && bytes.as_slice() == outcome.bytes.as_slice()
            }
            Entry::Freed { .. } => false,
        }
    }
}
