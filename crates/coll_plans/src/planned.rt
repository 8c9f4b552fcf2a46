ghost use Rattle.std.specs.Prelude.{◌≡◌, ◌+◌, ◌<◌, ◌≤◌, None, IfNone, IfOk, IfSome, IsOkUnless};
ghost use Rattle.std.specs.Arc.{arc_value};
ghost use Rattle.coll_kinds.specs.declared.kind.Kind.TheVariants.{Allreduce};
ghost use Rattle.coll_kinds.specs.Checks.{broken};
ghost use Rattle.coll_kinds.specs.Lengths.{given_len, got_len};

use crate::joined_rows::{Neighbours, joined_rows};
use coll_kinds::{Refusal, Signature};
use coll_sched::Schedule;
use std::alloc::Global;
use std::marker::Model;
use std::sync::Arc;

/// What a plan and its copies share: one count of owners serves the signature and the schedule.
#[derive(Debug, Drop)]
pub(crate) struct SharedPlan {
    /// It may outlive the plan.
    pub(crate) sig: Arc<Signature>,
    pub(crate) n: u8,
    pub(crate) member: u8,
    pub(crate) schedule: Schedule,
}

impl Model for SharedPlan {
    ghost use Rattle.std.specs.Arc.{arc_value};
    ghost use Rattle.coll_plans.specs.Plans.{Planned, IsPlan};

    ghost Value = { Planned };

    ghost view = { λ p. record { sig = arc_value p.sig; n = p.n; member = p.member } };

    ghost invariant = { λ p. IsPlan (arc_value p.sig) p.n p.member p.schedule };
}

/// One member's part of one collective: its schedule in the family that the signature and the number of
/// members fix. So the plans of one signature for all members of a communicator fit together. Only
/// [`plan`](crate::plan) makes one. Its copies share the signature and the schedule, and may go to other threads.
#[derive(Debug, Drop)]
pub struct Plan {
    shared: Arc<SharedPlan>,
}

impl Model for Plan {
    ghost use Rattle.std.specs.Arc.{arc_value};
    ghost use Rattle.coll_plans.specs.Plans.{Planned};

    ghost Value = { Planned };

    ghost view = { λ p. arc_value p.shared };
}

impl SharedPlan {
    ghost use Rattle.coll_plans.specs.Plans.{family, IsPlanned};

    fn sig(&self) -> &Signature
        ensures sig { result.now ≡ self.now.sig }
        ensures checked { broken self.now.sig self.now.n ≡ None }
    {
        &self.sig
    }

    fn n(&self) -> u8
        ensures n { result ≡ self.now.n }
        ensures few { result ≤ 64 }
    {
        self.n
    }

    fn member(&self) -> u8
        ensures member { result ≡ self.now.member }
        ensures low { result < self.now.n }
    {
        self.member
    }

    fn schedule(&self) -> &Schedule
        ensures schedule { result.now ≡ family self.now.sig self.now.n self.now.member }
        ensures family { IsPlanned self.now.sig self.now.n (family self.now.sig self.now.n) }
    {
        &self.schedule
    }
}

impl Plan {
    ghost use Rattle.coll_plans.specs.Joins.{CombinesNothing, JoinsRows};
    ghost use Rattle.coll_plans.specs.Plans.{family, IsPlanned};

    // The plan that this is of.
    pub(crate) fn of_shared(alloc: Global, shared: SharedPlan) -> Result<Self, Refusal>
        ensures plan { IfOk result (λ plan. plan ≡ shared) }
        ensures refused { IsOkUnless result Refusal.NoMemory }
    {
        Ok(Plan {
            shared: Arc::new(alloc, shared)?,
        })
    }

    /// Another plan of the same member's part. It takes no memory.
    ///
    /// # Errors
    ///
    /// NoMemory where the plan has as many owners as can be counted.
    pub fn share(&self) -> Result<Plan, Refusal>
        ensures same { IfOk result (λ plan. plan ≡ self.now) }
        ensures refused { IsOkUnless result Refusal.NoMemory }
    {
        Ok(Plan {
            shared: self.shared.clone()?,
        })
    }

    /// The signature, which breaks no rule.
    pub fn sig(&self) -> &Signature
        ensures sig { result.now ≡ self.now.sig }
        ensures checked { broken self.now.sig self.now.n ≡ None }
    {
        self.shared.sig()
    }

    /// The signature, with the plan as one more owner, for what outlives the plan. It takes no memory.
    ///
    /// # Errors
    ///
    /// NoMemory where the signature has as many owners as can be counted.
    pub fn shared_sig(&self) -> Result<Arc<Signature>, Refusal>
        ensures same { IfOk result (λ sig. arc_value sig ≡ self.now.sig) }
        ensures refused { IsOkUnless result Refusal.NoMemory }
    {
        Ok(self.shared.sig.clone()?)
    }

    /// How many members there are.
    pub fn n(&self) -> u8
        ensures n { result ≡ self.now.n }
        ensures few { result ≤ 64 }
    {
        self.shared.n()
    }

    /// The member's number.
    pub fn member(&self) -> u8
        ensures member { result ≡ self.now.member }
        ensures low { result < self.now.n }
    {
        self.shared.member()
    }

    /// The bytes that the member gives.
    pub fn given_len(&self) -> usize
        ensures { result ≡ given_len self.now.sig self.now.n self.now.member }
    {
        self.sig().given_len(self.n(), self.member())
    }

    /// The bytes that the member gets, which is the length of its schedule's output.
    pub fn got_len(&self) -> usize
        ensures { result ≡ got_len self.now.sig self.now.n self.now.member }
    {
        self.sig().got_len(self.n(), self.member())
    }

    /// The member's schedule in the family of the signature, which serves it.
    pub fn schedule(&self) -> &Schedule
        ensures schedule { result.now ≡ family self.now.sig self.now.n self.now.member }
        ensures family { IsPlanned self.now.sig self.now.n (family self.now.sig self.now.n) }
    {
        self.shared.schedule()
    }

    /// The members whose rows the member's combination in that round joins: members who get the same answer combine the same rows.
    /// The answer is None only for a collective that is no allreduce, and for a round in which the member combines nothing. It takes
    /// constant time.
    pub fn combined_by(&self, round: usize) -> Option<Neighbours>
        ensures joins { IfSome result (λ joined. JoinsRows self.now.sig self.now.n self.now.member round joined.first joined.count) }
        ensures few { IfSome result (λ joined. joined.first + joined.count ≤ 64) }
        ensures none { self.now.sig.kind ≡ Allreduce → IfNone result (CombinesNothing self.now.sig self.now.n self.now.member round) }
    {
        joined_rows(self.sig(), self.n(), self.member(), round)
    }
}
