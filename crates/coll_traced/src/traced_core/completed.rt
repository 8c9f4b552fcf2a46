ghost use Rattle.std.specs.Prelude.{◌≡◌, ◌↔◌, [], ◌∷◌, IsTrue, Some, true};
ghost use Rattle.coll_traced.specs.Outcomes.{left_by, retired};
ghost use Rattle.coll_traced.specs.Tests.{TestsOne};

use crate::tally::Entries;
use crate::trace::Receipts;
use coll_complete::Request;
use coll_core::Outcome;
use coll_kinds::Ticket;
use std::marker::{Model, PhantomData};

/// A request that was completed for a port which waits for exactly that request. Contracts see the
/// port's rank, the ticket, how many entries the port had made before, and the completion's entry.
/// Only `TracedCore::complete_for` makes one.
#[derive(Drop)]
pub struct Completed<L: Entries> {
    pub(crate) rank: u8,
    /// Whether the port keeps the request, since it is persistent.
    stays: bool,
    pub(crate) ticket: Ticket,
    /// How many entries the port had made before.
    made: u64,
    pub(crate) outcome: Outcome,
    engine: PhantomData<L>,
}

impl<L: Entries> Model for Completed<L> {
    ghost use Rattle.std.specs.Prelude.{[], ◌∷◌, Some, true};
    ghost use Rattle.coll_traced.specs.Outcomes.{CompletedFor, left_by, retired};
    ghost use Rattle.coll_traced.specs.Tests.{TestsOne};

    ghost Value = { CompletedFor };

    ghost view = { λ c. record { rank = c.rank; ticket = c.ticket; made = c.made; entry = retired c.rank c.ticket c.outcome } };

    ghost invariant = { λ c. TestsOne L.setting c.made c.rank (Some c.ticket) (left_by c.stays c.ticket) true (Some c.outcome)
        (retired c.rank c.ticket c.outcome ∷ []) };
}

/// Returns what is left of a completed request.
fn left(stays: bool, ticket: Ticket) -> Request
    ensures { result ≡ left_by stays ticket }
{
    if stays {
        Request::of(ticket)
    } else {
        Request::null()
    }
}

impl<L: Entries> Completed<L> {
    /// Makes the completion from the result of a test. `stays` tells whether the port keeps the
    /// request.
    pub(super) fn new(rank: u8, ticket: Ticket, made: u64, stays: bool, outcome: Outcome) -> Self
        requires { TestsOne L.setting made rank (Some ticket) (left_by stays ticket) true (Some outcome) (retired rank ticket outcome ∷ []) }
        ensures { result ≡ record { rank = rank; ticket = ticket; made = made; entry = retired rank ticket outcome } }
    {
        Completed {
            rank,
            stays,
            ticket,
            made,
            outcome,
            engine: PhantomData,
        }
    }

    /// Tells whether it is for the rank's port with this many entries, and for the ticket's
    /// request.
    pub fn is_for(&self, rank: u8, ticket: Ticket, made: u64) -> bool
        ensures { IsTrue result ↔ ((self.now.rank ≡ rank) × (self.now.ticket ≡ ticket) × (self.now.made ≡ made)) }
    {
        self.rank == rank && self.ticket == ticket && self.made == made
    }

    /// Returns what is left of the request, its outcome, and the receipt of its entry.
    pub fn open(self) -> (Request, Outcome, Receipts)
        ensures told { TestsOne L.setting self.made self.rank (Some self.ticket) result.0 true (Some result.1) result.2 }
        ensures entry { result.2 ≡ self.entry ∷ [] }
    {
        let receipts = Receipts::of(&self);
        let Completed {
            stays,
            ticket,
            outcome,
            ..
        } = self;
        (left(stays, ticket), outcome, receipts)
    }
}
