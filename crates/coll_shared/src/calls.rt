//! A port's calls on the guarded state, in contracts that still hold once the lock is free.
//! `TracedCore::audit` shows in each that the trace has at least the port's entries.

ghost use Rattle.std.specs.Prelude.{◌≡◌, ◌+◌, ◌<◌, ◌≤◌, [], ◌∷◌, ℕ, IfErr, IfOk, IfSome, IsNone, None, OnErr, OnOk, Some, false, length, vec_capacity, vec_len};
ghost use Rattle.std.specs.Result.{result_err};
ghost use Rattle.coll_core.specs.Posts.{init_of, post_of};
ghost use Rattle.coll_machine.specs.Calls.{Start};
ghost use Rattle.coll_machine.specs.Entries.{Inited, Posted, Started};
ghost use Rattle.coll_complete.specs.Anys.{position_of};
ghost use Rattle.coll_complete.specs.Requests.{AreDistinct};
ghost use Rattle.coll_complete.specs.declared.any.Any.TheVariants.{Unfinished};
ghost use Rattle.coll_traced.specs.Denials.{IsDenied};
ghost use Rattle.coll_traced.specs.Outcomes.{release};
ghost use Rattle.coll_traced.specs.Prepared.{IsPreparedFor};
ghost use Rattle.coll_traced.specs.Tests.{RefusesFree, RefusesList, RefusesOne, TestsAll, TestsAny, TestsOne, TestsSome};
ghost use Rattle.coll_traced.specs.Unfinished.{HadPending, WasPending, WasUnfinished};

use crate::locked::Locked;
use coll_complete::{Any, Request, Tested};
use coll_core::{Contribution, Offer, Outcome};
use coll_kinds::{Refusal, Refused, Ticket};
use coll_plans::Plan;
use coll_traced::{Entries, Prepared, Receipt, Receipts, Tally};

impl<L: Entries> Locked<L> {
    /// `TracedCore::post`.
    pub(crate) fn post(
        &mut self,
        mine: &mut Tally<L>,
        rank: u8,
        comm: u32,
        offer: Offer,
        prepared: Result<Prepared, Refusal>,
    ) -> Result<(Ticket, Receipt), Refused<Offer>>
        requires prepared { IfOk prepared (IsPreparedFor offer) }
        requires refused { IfErr prepared (λ why. why ≡ Refusal.NoMemory) }
        ensures receipt { IfOk result (λ r. (place : ℕ) × (r.1 ≡ Posted rank r.0 comm place offer.plan.sig offer.bytes)) }
        ensures counted { OnOk result (mine.new ≡ mine.old + 1) }
        ensures back { IfErr result (λ refused. refused.back ≡ offer) }
        ensures refused { IfErr result (λ refused. IsDenied L.setting mine.old (post_of rank comm offer) refused.why) }
        ensures uncounted { OnErr result (mine.new ≡ mine.old) }
    {
        self.traced.audit(mine);
        match self.traced.post(mine, rank, comm, offer, prepared) {
            Ok(posted) => Ok(posted),
            Err(refused) => Err(refused),
        }
    }

    /// `TracedCore::init`.
    pub(crate) fn init(
        &mut self,
        mine: &mut Tally<L>,
        rank: u8,
        comm: u32,
        plan: Plan,
    ) -> Result<(Ticket, Receipt), Refused<Plan>>
        ensures receipt { IfOk result (λ r. (place : ℕ) × (r.1 ≡ Inited rank r.0 comm place plan.sig)) }
        ensures counted { OnOk result (mine.new ≡ mine.old + 1) }
        ensures back { IfErr result (λ refused. refused.back ≡ plan) }
        ensures refused { IfErr result (λ refused. IsDenied L.setting mine.old (init_of rank comm plan) refused.why) }
        ensures uncounted { OnErr result (mine.new ≡ mine.old) }
    {
        self.traced.audit(mine);
        match self.traced.init(mine, rank, comm, plan) {
            Ok(made) => Ok(made),
            Err(refused) => Err(refused),
        }
    }

    /// `TracedCore::start`.
    pub(crate) fn start(
        &mut self,
        mine: &mut Tally<L>,
        rank: u8,
        ticket: Ticket,
        bytes: Contribution,
    ) -> Result<Receipt, Refused<Contribution>>
        ensures receipt { IfOk result (λ receipt. (start : ℕ) × (receipt ≡ Started rank ticket start bytes)) }
        ensures counted { OnOk result (mine.new ≡ mine.old + 1) }
        ensures back { IfErr result (λ refused. refused.back ≡ bytes) }
        ensures refused { IfErr result (λ refused. IsDenied L.setting mine.old (Start rank ticket bytes) refused.why) }
        ensures uncounted { OnErr result (mine.new ≡ mine.old) }
    {
        self.traced.audit(mine);
        match self.traced.start(mine, rank, ticket, bytes) {
            Ok(receipt) => Ok(receipt),
            Err(refused) => Err(refused),
        }
    }

    /// `TracedCore::tested`.
    pub(crate) fn tested(
        &mut self,
        mine: &mut Tally<L>,
        rank: u8,
        request: &mut Request,
    ) -> Result<(Tested, Receipts), Refusal>
        ensures told { IfOk result (λ r. TestsOne L.setting mine.old rank request.old request.new r.0.flag r.0.outcome r.1) }
        ensures counted { IfOk result (λ r. IfSome r.0.outcome (λ outcome. mine.new ≡ mine.old + 1)) }
        ensures none { IfOk result (λ r. r.0.outcome ≡ None → mine.new ≡ mine.old) }
        ensures pending { IfOk result (λ r. r.0.flag ≡ false → (request.new ≡ request.old) × (mine.new ≡ mine.old)) }
        ensures unfinished { IfOk result (λ r. r.0.flag ≡ false → WasPending L.setting mine.old rank request.old) }
        ensures refused { RefusesOne L.setting mine.old rank request.old (result_err result) }
        ensures err { OnErr result ((request.new ≡ request.old) × (mine.new ≡ mine.old)) }
    {
        self.traced.audit(mine);
        self.traced.tested(mine, rank, request)
    }

    /// `TracedCore::tested_any`.
    pub(crate) fn tested_any(
        &mut self,
        mine: &mut Tally<L>,
        rank: u8,
        requests: &mut [Request],
    ) -> Result<(Any, Receipts), Refusal>
        ensures told { IfOk result (λ r. TestsAny L.setting mine.old rank requests.old requests.new r.0 r.1) }
        ensures counted { IfOk result (λ r. IfSome (position_of r.0) (λ at. mine.new ≡ mine.old + 1)) }
        ensures none { IfOk result (λ r. position_of r.0 ≡ None → mine.new ≡ mine.old) }
        ensures unfinished { IfOk result (λ r. r.0 ≡ Unfinished → WasUnfinished L.setting mine.old rank requests.old) }
        ensures refused { RefusesList L.setting mine.old rank requests.old (result_err result) }
        ensures err { OnErr result ((requests.new ≡ requests.old) × (mine.new ≡ mine.old)) }
    {
        self.traced.audit(mine);
        self.traced.tested_any(mine, rank, requests)
    }

    /// `TracedCore::tested_all`.
    pub(crate) fn tested_all(
        &mut self,
        mine: &mut Tally<L>,
        rank: u8,
        requests: &mut [Request],
        out: &mut Vec<(usize, Outcome)>,
    ) -> Result<(bool, Receipts), Refusal>
        requires distinct { AreDistinct requests.old }
        requires room { vec_len out.old + length requests.old ≤ vec_capacity out.old }
        ensures told { IfOk result (λ r. TestsAll L.setting mine.old rank requests.old requests.new out.old.items out.new.items r.0 r.1) }
        ensures counted { IfOk result (λ r. mine.new + vec_len out.old ≡ mine.old + vec_len out.new) }
        ensures unfinished { IfOk result (λ r. r.0 ≡ false → (requests.new ≡ requests.old) × (out.new ≡ out.old) × (mine.new ≡ mine.old)) }
        ensures pending { IfOk result (λ r. r.0 ≡ false → HadPending L.setting mine.old rank requests.old) }
        ensures refused { RefusesList L.setting mine.old rank requests.old (result_err result) }
        ensures err { OnErr result ((requests.new ≡ requests.old) × (out.new ≡ out.old) × (mine.new ≡ mine.old)) }
    {
        self.traced.audit(mine);
        self.traced.tested_all(mine, rank, requests, out)
    }

    /// `TracedCore::tested_some`.
    pub(crate) fn tested_some(
        &mut self,
        mine: &mut Tally<L>,
        rank: u8,
        requests: &mut [Request],
        out: &mut Vec<(usize, Outcome)>,
    ) -> Result<(Option<usize>, Receipts), Refusal>
        requires distinct { AreDistinct requests.old }
        requires room { vec_len out.old + length requests.old ≤ vec_capacity out.old }
        ensures told { IfOk result (λ r. TestsSome L.setting mine.old rank requests.old requests.new out.old.items out.new.items r.0 r.1) }
        ensures counted { IfOk result (λ r. IfSome r.0 (λ n. mine.new ≡ mine.old + n)) }
        ensures inactive { IfOk result (λ r. r.0 ≡ None → mine.new ≡ mine.old) }
        ensures refused { RefusesList L.setting mine.old rank requests.old (result_err result) }
        ensures err { OnErr result ((requests.new ≡ requests.old) × (out.new ≡ out.old) × (mine.new ≡ mine.old)) }
    {
        self.traced.audit(mine);
        self.traced.tested_some(mine, rank, requests, out)
    }

    /// `TracedCore::waited_some`.
    pub(crate) fn waited_some(
        &mut self,
        mine: &mut Tally<L>,
        rank: u8,
        requests: &mut [Request],
        out: &mut Vec<(usize, Outcome)>,
    ) -> Result<Option<(Option<usize>, Receipts)>, Refusal>
        requires distinct { AreDistinct requests.old }
        requires room { vec_len out.old + length requests.old ≤ vec_capacity out.old }
        ensures told { IfOk result
            (λ found. IfSome found (λ r. TestsSome L.setting mine.old rank requests.old requests.new out.old.items out.new.items r.0 r.1)) }
        ensures some { IfOk result (λ found. IfSome found (λ r. IfSome r.0 (λ n. 0 < n))) }
        ensures counted { IfOk result (λ found. IfSome found (λ r. IfSome r.0 (λ n. mine.new ≡ mine.old + n))) }
        ensures inactive { IfOk result (λ found. IfSome found (λ r. r.0 ≡ None → mine.new ≡ mine.old)) }
        ensures moment { IfOk result (λ found. IsNone found → WasUnfinished L.setting mine.old rank requests.old) }
        ensures pending { IfOk result (λ found. IsNone found → (requests.new ≡ requests.old) × (out.new ≡ out.old) × (mine.new ≡ mine.old)) }
        ensures refused { IfErr result (λ why. RefusesList L.setting mine.old rank requests.old (Some why)) }
        ensures err { OnErr result ((requests.new ≡ requests.old) × (out.new ≡ out.old) × (mine.new ≡ mine.old)) }
    {
        self.traced.audit(mine);
        self.traced.waited_some(mine, rank, requests, out)
    }

    /// `TracedCore::freed`.
    pub(crate) fn freed(
        &mut self,
        mine: &mut Tally<L>,
        rank: u8,
        request: &mut Request,
    ) -> Result<Receipt, Refusal>
        ensures entry { IfOk result (λ receipt. receipt ∷ [] ≡ release rank request.old) }
        ensures counted { OnOk result (mine.new ≡ mine.old + 1) }
        ensures null { OnOk result (request.new ≡ None) }
        ensures refused { RefusesFree L.setting mine.old rank request.old (result_err result) }
        ensures err { OnErr result ((request.new ≡ request.old) × (mine.new ≡ mine.old)) }
    {
        self.traced.audit(mine);
        self.traced.freed(mine, rank, request)
    }
}
