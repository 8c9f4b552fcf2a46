//! Tests of requests with receipts, in contracts that still hold once the lock is free. Each test's
//! state is that of `coll_complete`'s call. `TracedCore::audit` shows that the trace has the
//! entries of the caller's tally.

ghost use Rattle.std.specs.Prelude.{◌≡◌, ◌+◌, ◌≤◌, ◌∷◌, ◌++◌, [], IfOk, IfSome, None, OnErr, OnOk, drop, false, is_some, length, not, position};
ghost use Rattle.std.specs.Prelude.{vec_capacity, vec_len};
ghost use Rattle.std.specs.List.{list_any};
ghost use Rattle.std.specs.Result.{result_err};
ghost use Rattle.coll_core.specs.Cores.{seen, setting};
ghost use Rattle.coll_complete.specs.Anys.{is_undefined, position_of};
ghost use Rattle.coll_complete.specs.Completing.{done_positions};
ghost use Rattle.coll_complete.specs.Requests.{AreDistinct, is_active, is_done, is_pending, list_refusal, refusal_at};
ghost use Rattle.coll_report.specs.Views.{trace_seen};
ghost use Rattle.coll_traced.specs.Outcomes.{release};
ghost use Rattle.coll_complete.specs.declared.any.Any.TheVariants.{Unfinished};
ghost use Rattle.coll_traced.specs.Tests.{RefusesFree, RefusesList, RefusesOne, TestsAll, TestsAny, TestsOne, TestsSome};
ghost use Rattle.coll_traced.specs.Unfinished.{HadPending, WasPending, WasUnfinished};

use crate::tally::{Entries, Tally};
use crate::trace::{Receipt, Receipts};
use crate::traced_core::TracedCore;
use coll_complete::{Any, Request, Tested, test_all_on, test_any_on, test_on, test_some_on};
use coll_core::Outcome;
use coll_kinds::Refusal;
use coll_report::Entry;
use std::snapshot::Snapshot;

impl<L: Entries> TracedCore<L> {
    /// Takes a snapshot of the trace.
    fn moment(&self) -> Snapshot<Vec<Entry>>
        ensures { trace_seen result.value.items ≡ self.now.entries }
    {
        self.trace.moment()
    }

    /// Returns what was appended to the trace since the snapshot.
    fn since(&self, before: Snapshot<Vec<Entry>>) -> Receipts
        ensures { result ≡ drop (length (trace_seen before.value.items)) self.now.entries }
    {
        self.trace.since(before)
    }

    /// Completes a request if it is Done, as `coll_complete::test` does, and appends its entry.
    /// Takes no memory.
    ///
    /// # Errors
    ///
    /// Stale if the ticket names no live request, then NotYours if it names another rank's; nothing
    /// changes.
    pub fn tested(
        &mut self,
        mine: &mut Tally<L>,
        rank: u8,
        request: &mut Request,
    ) -> Result<(Tested, Receipts), Refusal>
        requires { mine.old ≤ length self.old.entries }
        ensures setting { setting self.new.core ≡ setting self.old.core }
        ensures waits { (self.new.waits ≡ self.old.waits) × (self.new.stalled ≡ self.old.stalled) }
        ensures flag { IfOk result (λ r. r.0.flag ≡ not (is_pending (seen self.old.core) request.old)) }
        ensures outcome { IfOk result (λ r. is_some r.0.outcome ≡ is_done (seen self.old.core) request.old) }
        ensures appended { IfOk result (λ r. self.new.entries ≡ self.old.entries ++ r.1) }
        ensures told { IfOk result (λ r. TestsOne L.setting mine.old rank request.old request.new r.0.flag r.0.outcome r.1) }
        ensures counted { IfOk result (λ r. IfSome r.0.outcome (λ outcome. mine.new ≡ mine.old + 1)) }
        ensures none { IfOk result (λ r. r.0.outcome ≡ None → (self.new ≡ self.old) × (mine.new ≡ mine.old)) }
        ensures pending { IfOk result (λ r. r.0.flag ≡ false → (request.new ≡ request.old) × (mine.new ≡ mine.old)) }
        ensures unfinished { IfOk result (λ r. r.0.flag ≡ false → WasPending L.setting mine.old rank request.old) }
        ensures refusal { result_err result ≡ refusal_at (setting self.old.core) (seen self.old.core).state rank request.old }
        ensures refused { RefusesOne L.setting mine.old rank request.old (result_err result) }
        ensures err { OnErr result ((self.new ≡ self.old) × (request.new ≡ request.old) × (mine.new ≡ mine.old)) }
    {
        self.keeps_legal();
        let before = self.moment();
        match test_on(self, mine, rank, request) {
            Ok(tested) => Ok((tested, self.since(before))),
            Err(why) => Err(why),
        }
    }

    /// Completes the lowest Done request of a list, as `coll_complete::test_any` does, and appends
    /// its entry. Takes no memory.
    ///
    /// # Errors
    ///
    /// Those of the first request that has one, with nothing changed: Stale if a ticket names no
    /// live request, NotYours if it names another rank's.
    pub fn tested_any(
        &mut self,
        mine: &mut Tally<L>,
        rank: u8,
        requests: &mut [Request],
    ) -> Result<(Any, Receipts), Refusal>
        requires { mine.old ≤ length self.old.entries }
        ensures waits { (self.new.waits ≡ self.old.waits) × (self.new.stalled ≡ self.old.stalled) }
        ensures undefined { IfOk result (λ r. is_undefined r.0 ≡ not (list_any (is_active (seen self.old.core)) requests.old)) }
        ensures lowest { IfOk result (λ r. position_of r.0 ≡ position (is_done (seen self.old.core)) requests.old) }
        ensures appended { IfOk result (λ r. self.new.entries ≡ self.old.entries ++ r.1) }
        ensures told { IfOk result (λ r. TestsAny L.setting mine.old rank requests.old requests.new r.0 r.1) }
        ensures counted { IfOk result (λ r. IfSome (position_of r.0) (λ at. mine.new ≡ mine.old + 1)) }
        ensures none { IfOk result (λ r. position_of r.0 ≡ None → (self.new ≡ self.old) × (mine.new ≡ mine.old)) }
        ensures unfinished { IfOk result (λ r. r.0 ≡ Unfinished → WasUnfinished L.setting mine.old rank requests.old) }
        ensures refusal { result_err result ≡ list_refusal (setting self.old.core) (seen self.old.core).state rank requests.old }
        ensures refused { RefusesList L.setting mine.old rank requests.old (result_err result) }
        ensures err { OnErr result ((self.new ≡ self.old) × (requests.new ≡ requests.old) × (mine.new ≡ mine.old)) }
    {
        self.keeps_legal();
        let before = self.moment();
        match test_any_on(self, mine, rank, requests) {
            Ok(any) => Ok((any, self.since(before))),
            Err(why) => Err(why),
        }
    }

    /// Completes all Done requests of a list if none of the list is Pending, as
    /// `coll_complete::test_all` does. Appends an entry for each, in rising position. Takes no
    /// memory.
    ///
    /// # Errors
    ///
    /// As `tested_any`.
    pub fn tested_all(
        &mut self,
        mine: &mut Tally<L>,
        rank: u8,
        requests: &mut [Request],
        out: &mut Vec<(usize, Outcome)>,
    ) -> Result<(bool, Receipts), Refusal>
        requires made { mine.old ≤ length self.old.entries }
        requires distinct { AreDistinct requests.old }
        requires room { vec_len out.old + length requests.old ≤ vec_capacity out.old }
        ensures waits { (self.new.waits ≡ self.old.waits) × (self.new.stalled ≡ self.old.stalled) }
        ensures flag { IfOk result (λ r. r.0 ≡ not (list_any (is_pending (seen self.old.core)) requests.old)) }
        ensures appended { IfOk result (λ r. self.new.entries ≡ self.old.entries ++ r.1) }
        ensures told { IfOk result (λ r. TestsAll L.setting mine.old rank requests.old requests.new out.old.items out.new.items r.0 r.1) }
        ensures counted { IfOk result (λ r. mine.new + vec_len out.old ≡ mine.old + vec_len out.new) }
        ensures unfinished { IfOk result
            (λ r. r.0 ≡ false → (self.new ≡ self.old) × (requests.new ≡ requests.old) × (out.new ≡ out.old) × (mine.new ≡ mine.old)) }
        ensures pending { IfOk result (λ r. r.0 ≡ false → HadPending L.setting mine.old rank requests.old) }
        ensures refusal { result_err result ≡ list_refusal (setting self.old.core) (seen self.old.core).state rank requests.old }
        ensures refused { RefusesList L.setting mine.old rank requests.old (result_err result) }
        ensures err { OnErr result ((self.new ≡ self.old) × (requests.new ≡ requests.old) × (out.new ≡ out.old) × (mine.new ≡ mine.old)) }
    {
        self.keeps_legal();
        let before = self.moment();
        match test_all_on(self, mine, rank, requests, out) {
            Ok(flag) => Ok((flag, self.since(before))),
            Err(why) => Err(why),
        }
    }

    /// Completes all Done requests of a list, as `coll_complete::test_some` does. Appends an entry
    /// for each, in rising position. Takes no memory.
    ///
    /// # Errors
    ///
    /// As `tested_any`.
    pub fn tested_some(
        &mut self,
        mine: &mut Tally<L>,
        rank: u8,
        requests: &mut [Request],
        out: &mut Vec<(usize, Outcome)>,
    ) -> Result<(Option<usize>, Receipts), Refusal>
        requires made { mine.old ≤ length self.old.entries }
        requires distinct { AreDistinct requests.old }
        requires room { vec_len out.old + length requests.old ≤ vec_capacity out.old }
        ensures waits { (self.new.waits ≡ self.old.waits) × (self.new.stalled ≡ self.old.stalled) }
        ensures active { IfOk result (λ r. is_some r.0 ≡ list_any (is_active (seen self.old.core)) requests.old) }
        ensures count { IfOk result (λ r. IfSome r.0 (λ n. n ≡ length (done_positions (seen self.old.core) requests.old))) }
        ensures appended { IfOk result (λ r. self.new.entries ≡ self.old.entries ++ r.1) }
        ensures told { IfOk result (λ r. TestsSome L.setting mine.old rank requests.old requests.new out.old.items out.new.items r.0 r.1) }
        ensures counted { IfOk result (λ r. IfSome r.0 (λ n. mine.new ≡ mine.old + n)) }
        ensures inactive { IfOk result (λ r. r.0 ≡ None → (self.new ≡ self.old) × (mine.new ≡ mine.old)) }
        ensures refusal { result_err result ≡ list_refusal (setting self.old.core) (seen self.old.core).state rank requests.old }
        ensures refused { RefusesList L.setting mine.old rank requests.old (result_err result) }
        ensures err { OnErr result ((self.new ≡ self.old) × (requests.new ≡ requests.old) × (out.new ≡ out.old) × (mine.new ≡ mine.old)) }
    {
        self.keeps_legal();
        let before = self.moment();
        match test_some_on(self, mine, rank, requests, out) {
            Ok(count) => Ok((count, self.since(before))),
            Err(why) => Err(why),
        }
    }

    /// Frees an inactive persistent request, as `coll_complete::request_free` does, and appends its
    /// entry. Takes no memory.
    ///
    /// # Errors
    ///
    /// In this order, with nothing changed: Stale, also if the request is null; NotYours;
    /// NotPersistent; Active.
    pub fn freed(
        &mut self,
        mine: &mut Tally<L>,
        rank: u8,
        request: &mut Request,
    ) -> Result<Receipt, Refusal>
        requires { mine.old ≤ length self.old.entries }
        ensures waits { (self.new.waits ≡ self.old.waits) × (self.new.stalled ≡ self.old.stalled) }
        ensures appended { IfOk result (λ receipt. self.new.entries ≡ self.old.entries ++ receipt ∷ []) }
        ensures entry { IfOk result (λ receipt. receipt ∷ [] ≡ release rank request.old) }
        ensures counted { OnOk result (mine.new ≡ mine.old + 1) }
        ensures null { OnOk result (request.new ≡ None) }
        ensures refused { RefusesFree L.setting mine.old rank request.old (result_err result) }
        ensures err { OnErr result ((self.new ≡ self.old) × (request.new ≡ request.old) × (mine.new ≡ mine.old)) }
    {
        self.keeps_legal();
        let Some(ticket) = request.ticket() else {
            return Err(Refusal::Stale);
        };
        match self.free(mine, rank, ticket) {
            Ok(receipt) => {
                *request = Request::null();
                Ok(receipt)
            }
            Err(why) => Err(why),
        }
    }
}
