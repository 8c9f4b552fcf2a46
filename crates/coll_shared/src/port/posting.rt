//! A port's posts, and the making and freeing of its persistent requests.

ghost use Rattle.std.specs.Result.{result_err};
ghost use Rattle.std.specs.Prelude.{◌≡◌, ◌+◌, [], ◌∷◌, ◌⊎◌, IfErr, IfOk, None, OnErr, OnOk};
ghost use Rattle.coll_core.specs.Posts.{init_of, post_of};
ghost use Rattle.coll_shared.specs.Ports.{DeniesBytes, IsUnplanned};
ghost use Rattle.coll_traced.specs.Calls.{IsInited, IsPosted};
ghost use Rattle.coll_traced.specs.Denials.{IsDenied};
ghost use Rattle.coll_traced.specs.Outcomes.{release};
ghost use Rattle.coll_traced.specs.Tests.{RefusesFree};

use crate::port::Port;
use coll_complete::Request;
use coll_core::{Contribution, Offer};
use coll_kinds::{Refusal, Refused, Signature};
use coll_plans::Plan;
use coll_traced::{Entries, Receipt};
use std::rt::Clock;
use std::sync::Wait;

impl<L: Entries> Port<L> {
    /// Starts a collective (`MPI_Ibcast` and its like; MPI 4.1, 6.12). If another thread holds the
    /// engine's lock, that thread may make the post.
    ///
    /// # Errors
    ///
    /// Those of `TracedCore::post`, in its order, with the offer handed back.
    pub fn post<R: Wait + Clock>(
        &mut self,
        rt: &R,
        comm: u32,
        offer: Offer,
    ) -> Result<(Request, Receipt), Refused<Offer>>
        ensures rank { self.new.rank ≡ self.old.rank }
        ensures groups { self.new.groups ≡ self.old.groups }
        ensures made { OnOk result (self.new.made ≡ self.old.made + 1) }
        ensures receipt { IfOk result (λ r. IsPosted self.old.rank r.0 comm offer.plan.sig offer.bytes r.1) }
        ensures err { OnErr result (self.new.made ≡ self.old.made) }
        ensures refused { IfErr result (λ refused. IsDenied L.setting self.old.made (post_of self.old.rank comm offer) refused.why) }
        ensures back { IfErr result (λ refused. refused.back ≡ offer) }
    {
        let Some(tally) = self.tally.take() else {
            unreachable!()
        };
        let (tally, posted) = self.combiner.post(
            rt,
            self.alloc,
            self.rank,
            comm,
            &mut self.plans,
            offer,
            tally,
        );
        self.tally = Some(tally);
        match posted {
            Ok((ticket, receipt)) => Ok((Request::of(ticket), receipt)),
            Err(refused) => Err(refused),
        }
    }

    /// Starts a collective with these bytes. Plans it as `ready_plan` does, and posts it as `post`
    /// does.
    ///
    /// # Errors
    ///
    /// Those of `ready_plan`, in its order; then those of `post`. The contribution is handed back.
    pub fn post_bytes<R: Wait + Clock>(
        &mut self,
        rt: &R,
        comm: u32,
        sig: &Signature,
        bytes: Contribution,
    ) -> Result<(Request, Receipt), Refused<Contribution>>
        ensures rank { self.new.rank ≡ self.old.rank }
        ensures groups { self.new.groups ≡ self.old.groups }
        ensures made { OnOk result (self.new.made ≡ self.old.made + 1) }
        ensures receipt { IfOk result (λ r. IsPosted self.old.rank r.0 comm sig.now bytes r.1) }
        ensures err { OnErr result (self.new.made ≡ self.old.made) }
        ensures refused { IfErr result
            (λ refused. IsUnplanned self.old comm sig.now refused.why ⊎ DeniesBytes L.setting self.old comm sig.now bytes refused.why) }
        ensures back { IfErr result (λ refused. refused.back ≡ bytes) }
    {
        let plan = match self.ready_plan(comm, sig) {
            Ok(plan) => plan,
            Err(why) => return Err(Refused { why, back: bytes }),
        };
        match self.post(rt, comm, Offer { plan, bytes }) {
            Ok(posted) => Ok(posted),
            Err(refused) => Err(Refused {
                why: refused.why,
                back: refused.back.bytes,
            }),
        }
    }

    /// Makes a persistent request, which is Idle (`MPI_Bcast_init` and its like; MPI 4.1, 6.13).
    ///
    /// # Errors
    ///
    /// Those of `TracedCore::init`, in its order, with the plan handed back.
    pub fn init<R: Wait>(
        &mut self,
        rt: &R,
        comm: u32,
        plan: Plan,
    ) -> Result<(Request, Receipt), Refused<Plan>>
        ensures rank { self.new.rank ≡ self.old.rank }
        ensures groups { self.new.groups ≡ self.old.groups }
        ensures made { OnOk result (self.new.made ≡ self.old.made + 1) }
        ensures receipt { IfOk result (λ r. IsInited self.old.rank r.0 comm plan.sig r.1) }
        ensures err { OnErr result (self.new.made ≡ self.old.made) }
        ensures refused { IfErr result (λ refused. IsDenied L.setting self.old.made (init_of self.old.rank comm plan) refused.why) }
        ensures back { IfErr result (λ refused. refused.back ≡ plan) }
    {
        let Some(tally) = &mut self.tally else {
            unreachable!()
        };
        let mut held = self.combiner.enter(rt);
        let made = held.locked.init(tally, self.rank, comm, plan);
        self.combiner.release(held);
        match made {
            Ok((ticket, receipt)) => Ok((Request::of(ticket), receipt)),
            Err(refused) => Err(refused),
        }
    }

    /// Frees an inactive persistent request, and leaves null (`MPI_Request_free`; MPI 4.1, 3.7.3).
    /// Never refuses NoMemory.
    ///
    /// # Errors
    ///
    /// In this order, with nothing changed: Stale, also if the request is null; NotYours;
    /// NotPersistent; Active.
    pub fn free<R: Wait>(&mut self, rt: &R, request: &mut Request) -> Result<Receipt, Refusal>
        ensures rank { self.new.rank ≡ self.old.rank }
        ensures groups { self.new.groups ≡ self.old.groups }
        ensures made { OnOk result (self.new.made ≡ self.old.made + 1) }
        ensures receipt { IfOk result (λ receipt. receipt ∷ [] ≡ release self.old.rank request.old) }
        ensures refused { RefusesFree L.setting self.old.made self.old.rank request.old (result_err result) }
        ensures null { OnOk result (request.new ≡ None) }
        ensures err { OnErr result ((self.new.made ≡ self.old.made) × (request.new ≡ request.old)) }
    {
        let Some(tally) = &mut self.tally else {
            unreachable!()
        };
        let mut held = self.combiner.enter(rt);
        let freed = held.locked.freed(tally, self.rank, request);
        self.combiner.release(held);
        freed
    }
}
