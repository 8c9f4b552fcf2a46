//! A rank's way into the engine.

mod completing;
mod posting;
mod starting;

ghost use Rattle.std.specs.Prelude.{◌≡◌, ◌<◌, ◌≤◌, [], Some, length, vec_capacity, vec_len, IfNone, IfOk, IfSome, IsErrOf, IsOkUnless, MatchOption};
ghost use Rattle.coll_kinds.specs.Checks.{broken};
ghost use Rattle.coll_kinds.specs.Groups.{member_of};
ghost use Rattle.coll_machine.specs.Refusals.{unseated};
ghost use Rattle.coll_machine.specs.Settings.{group_in};
ghost use Rattle.coll_shared.specs.Ports.{opened};

use crate::combiner::Combiner;
use coll_core::Communicators;
use coll_kinds::{Refusal, Signature};
use coll_plan_cache::Plans;
use coll_plans::Plan;
use coll_traced::{Entries, Spent, Tally};
use std::alloc::Global;
use std::marker::Model;
use std::sync::{Arc, Wait};

/// A rank's way into the engine. It may move to a thread of its own.
pub struct Port<L: Entries> {
    alloc: Global,
    combiner: Arc<Combiner<L>>,
    rank: u8,
    communicators: Communicators,
    plans: Plans,
    /// None while it lies in the rank's record.
    tally: Option<Tally<L>>,
}

impl<L: Entries> Model for Port<L> {
    ghost use Rattle.std.specs.Prelude.{◌<◌, IsSome, unwrap_or};
    ghost use Rattle.coll_shared.specs.Ports.{Holding};

    ghost Value = { Holding };

    ghost view = { λ p. record { rank = p.rank; made = unwrap_or p.tally 0; groups = p.communicators } };

    ghost invariant = { λ p. (p.rank < L.setting.ranks) × IsSome p.tally };
}

impl<L: Entries> Port<L> {
    /// Makes the port of a rank that has no entry yet.
    pub(crate) fn new(
        alloc: Global,
        combiner: Arc<Combiner<L>>,
        rank: u8,
        communicators: Communicators,
        tally: Tally<L>,
    ) -> Self
        requires rank { rank < L.setting.ranks }
        requires made { tally ≡ 0 }
        ensures { result ≡ opened communicators rank }
    {
        Port {
            alloc,
            combiner,
            rank,
            communicators,
            plans: Plans::new(alloc),
            tally: Some(tally),
        }
    }

    /// Returns the port's world rank.
    pub fn rank(&self) -> u8
        ensures { result ≡ self.now.rank }
    {
        self.rank
    }

    /// Returns how many entries of the trace are this port's.
    pub fn made(&self) -> u64
        ensures { result ≡ self.now.made }
    {
        match &self.tally {
            Some(tally) => tally.made(),
            None => unreachable!(),
        }
    }

    /// Returns the rank's plan of a collective, for a post or an initialisation. Takes no lock, so
    /// plans are made while others use the engine. Keeps the last plans, so that a collective which
    /// is posted again isn't planned again.
    ///
    /// # Errors
    ///
    /// In this order: BadComm; NotMember; BadSignature; NoMemory.
    #[inline(always)]
    pub fn ready_plan(&mut self, comm: u32, sig: &Signature) -> Result<Plan, Refusal>
        ensures same { self.new ≡ self.old }
        ensures sig { IfOk result (λ plan. plan.sig ≡ sig.now) }
        ensures n { IfOk result (λ plan. plan.n ≡ length (group_in self.old.groups comm)) }
        ensures member { IfOk result (λ plan. member_of self.old.rank (group_in self.old.groups comm) ≡ Some plan.member) }
        ensures unseated { IfSome (unseated self.old.groups self.old.rank comm) (λ why. IsErrOf result why) }
        ensures refused { IfNone (unseated self.old.groups self.old.rank comm) (MatchOption (broken sig.now (length (group_in self.old.groups comm)))
            (IsOkUnless result Refusal.NoMemory)
            (λ cause. IsErrOf result (Refusal.BadSignature cause))) }
    {
        let seat = self.communicators.seat(comm, self.rank)?;
        self.plans.plan_of(sig, seat.size, seat.member)
    }

    /// Returns an empty vector for the bytes that the rank gives next (as `MPI_Alloc_mem`; MPI 4.1,
    /// 9.2). Most pages of a long one exist already, because ranks that wait make them.
    ///
    /// # Errors
    ///
    /// NoMemory.
    pub fn alloc_row(&self, len: usize) -> Result<Vec<u8>, Refusal>
        ensures empty { IfOk result (λ row. row.items ≡ []) }
        ensures none { IfOk result (λ row. vec_len row ≡ 0) }
        ensures room { IfOk result (λ row. len ≤ vec_capacity row) }
        ensures refusal { IsOkUnless result Refusal.NoMemory }
    {
        self.combiner.alloc_row(self.alloc, len)
    }

    /// Ends the port. No call waits for its rank any longer: in the search for deadlocks the rank
    /// counts as one that can't go on.
    pub fn finish<R: Wait>(self, rt: &R) -> Spent<L>
        ensures { result ≡ (self.rank, self.made) }
    {
        let Port {
            alloc: _,
            combiner,
            rank,
            communicators: _communicators,
            plans: _plans,
            tally,
        } = self;
        let Some(tally) = tally else { unreachable!() };
        let mut held = combiner.enter(rt);
        held.locked.traced.end(rank);
        combiner.release(held);
        Spent::new(rank, tally)
    }
}

/// Dropping an unfinished port ends it too, so that no other port waits for it for ever. Its engine
/// can't be closed any longer.
impl<L: Entries> Drop for Port<L> {
    fn drop(self) {
        let Port {
            alloc: _,
            combiner,
            rank,
            communicators: _communicators,
            plans: _plans,
            tally: _tally,
        } = self;
        combiner.depart(rank);
    }
}
