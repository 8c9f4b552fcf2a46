//! A port's tests and waits. Their results held while the port had the engine. A wait for a list
//! checks with the lock held, and registers what it waits for before it unlocks. It is refused only
//! if a last check finds it unfinished.

ghost use Rattle.std.specs.Prelude.{◌≡◌, ◌+◌, ◌<◌, ◌≤◌, ◌⊎◌, IfErr, IfOk, IfSome, None, OnErr, Some, length, true, vec_capacity, vec_len};
ghost use Rattle.std.specs.Result.{result_err};
ghost use Rattle.coll_complete.specs.Anys.{position_of};
ghost use Rattle.coll_complete.specs.Requests.{AreDistinct};
ghost use Rattle.coll_traced.specs.Awaiting.{IsHindrance};
ghost use Rattle.coll_traced.specs.Tests.{RefusesList, RefusesOne, TestsAll, TestsAny, TestsOne, TestsSome, any_of};
ghost use Rattle.coll_traced.specs.Unfinished.{HadPending, WasPending, WasUnfinished};

use crate::gate::Gate;
use crate::port::Port;
use coll_complete::{Any, Request, Tested};
use coll_core::Outcome;
use coll_kinds::Refusal;
use coll_traced::{Awaited, Entries, Receipts};
use std::rt::Clock;
use std::sync::Wait;

impl<L: Entries> Port<L> {
    /// Completes a Done request (`MPI_Test`; MPI 4.1, 3.7.3). For a null or Idle request the flag
    /// is true, and there is no outcome.
    ///
    /// # Errors
    ///
    /// Stale if the ticket names no live request, then NotYours if it names another rank's; nothing
    /// changes.
    pub fn test<R: Wait>(
        &mut self,
        rt: &R,
        request: &mut Request,
    ) -> Result<(Tested, Receipts), Refusal>
        ensures rank { self.new.rank ≡ self.old.rank }
        ensures groups { self.new.groups ≡ self.old.groups }
        ensures told { IfOk result (λ r. TestsOne L.setting self.old.made self.old.rank request.old request.new r.0.flag r.0.outcome r.1) }
        ensures made { IfOk result (λ r. IfSome r.0.outcome (λ outcome. self.new.made ≡ self.old.made + 1)) }
        ensures none { IfOk result (λ r. r.0.outcome ≡ None → self.new.made ≡ self.old.made) }
        ensures refused { RefusesOne L.setting self.old.made self.old.rank request.old (result_err result) }
        ensures err { OnErr result ((self.new.made ≡ self.old.made) × (request.new ≡ request.old)) }
    {
        let Some(tally) = &mut self.tally else {
            unreachable!()
        };
        let mut held = self.combiner.enter_to_test(rt);
        let tested = held.locked.tested(tally, self.rank, request);
        self.combiner.release(held);
        tested
    }

    /// Completes the lowest Done request of a list (`MPI_Testany`; MPI 4.1, 3.7.5). Null and Idle
    /// requests are inactive.
    ///
    /// # Errors
    ///
    /// Those of the first request that has one, with nothing changed: Stale if a ticket names no
    /// live request, NotYours if it names another rank's.
    pub fn test_any<R: Wait>(
        &mut self,
        rt: &R,
        requests: &mut [Request],
    ) -> Result<(Any, Receipts), Refusal>
        ensures rank { self.new.rank ≡ self.old.rank }
        ensures groups { self.new.groups ≡ self.old.groups }
        ensures told { IfOk result (λ r. TestsAny L.setting self.old.made self.old.rank requests.old requests.new r.0 r.1) }
        ensures made { IfOk result (λ r. IfSome (position_of r.0) (λ at. self.new.made ≡ self.old.made + 1)) }
        ensures none { IfOk result (λ r. position_of r.0 ≡ None → self.new.made ≡ self.old.made) }
        ensures refused { RefusesList L.setting self.old.made self.old.rank requests.old (result_err result) }
        ensures err { OnErr result ((self.new.made ≡ self.old.made) × (requests.new ≡ requests.old)) }
    {
        let Some(tally) = &mut self.tally else {
            unreachable!()
        };
        let mut held = self.combiner.enter_to_test(rt);
        let tested = held.locked.tested_any(tally, self.rank, requests);
        self.combiner.release(held);
        tested
    }

    /// Completes all Done requests of a list if none of the list is Pending (`MPI_Testall`; MPI
    /// 4.1, 3.7.5). Pushes each position with its outcome to `out`, in rising position. Returns
    /// false if one is Pending.
    ///
    /// # Errors
    ///
    /// As `test_any`.
    pub fn test_all<R: Wait>(
        &mut self,
        rt: &R,
        requests: &mut [Request],
        out: &mut Vec<(usize, Outcome)>,
    ) -> Result<(bool, Receipts), Refusal>
        requires distinct { AreDistinct requests.old }
        requires room { vec_len out.old + length requests.old ≤ vec_capacity out.old }
        ensures rank { self.new.rank ≡ self.old.rank }
        ensures groups { self.new.groups ≡ self.old.groups }
        ensures told { IfOk result (λ r. TestsAll L.setting self.old.made self.old.rank requests.old requests.new out.old.items out.new.items r.0 r.1) }
        ensures made { IfOk result (λ r. self.new.made + vec_len out.old ≡ self.old.made + vec_len out.new) }
        ensures refused { RefusesList L.setting self.old.made self.old.rank requests.old (result_err result) }
        ensures err { OnErr result ((self.new.made ≡ self.old.made) × (requests.new ≡ requests.old) × (out.new ≡ out.old)) }
    {
        let Some(tally) = &mut self.tally else {
            unreachable!()
        };
        let mut held = self.combiner.enter_to_test(rt);
        let tested = held.locked.tested_all(tally, self.rank, requests, out);
        self.combiner.release(held);
        tested
    }

    /// Completes all Done requests of a list (`MPI_Testsome`; MPI 4.1, 3.7.5). Pushes each position
    /// with its outcome to `out`, in rising position. Returns how many there were; None if no
    /// request is active.
    ///
    /// # Errors
    ///
    /// As `test_any`.
    pub fn test_some<R: Wait>(
        &mut self,
        rt: &R,
        requests: &mut [Request],
        out: &mut Vec<(usize, Outcome)>,
    ) -> Result<(Option<usize>, Receipts), Refusal>
        requires distinct { AreDistinct requests.old }
        requires room { vec_len out.old + length requests.old ≤ vec_capacity out.old }
        ensures rank { self.new.rank ≡ self.old.rank }
        ensures groups { self.new.groups ≡ self.old.groups }
        ensures told { IfOk result (λ r. TestsSome L.setting self.old.made self.old.rank requests.old requests.new out.old.items out.new.items r.0 r.1) }
        ensures made { IfOk result (λ r. IfSome r.0 (λ n. self.new.made ≡ self.old.made + n)) }
        ensures inactive { IfOk result (λ r. r.0 ≡ None → self.new.made ≡ self.old.made) }
        ensures refused { RefusesList L.setting self.old.made self.old.rank requests.old (result_err result) }
        ensures err { OnErr result ((self.new.made ≡ self.old.made) × (requests.new ≡ requests.old) × (out.new ≡ out.old)) }
    {
        let Some(tally) = &mut self.tally else {
            unreachable!()
        };
        let mut held = self.combiner.enter_to_test(rt);
        let tested = held.locked.tested_some(tally, self.rank, requests, out);
        self.combiner.release(held);
        tested
    }

    /// Waits until a request isn't Pending, and completes it if it is Done (`MPI_Wait`; MPI 4.1,
    /// 3.7.3). Returns None for a null or Idle request. The thread that finishes the request may
    /// complete it for the port.
    ///
    /// # Errors
    ///
    /// The request stays as it was, and steps that were made stay made.
    ///
    /// - Stale if the ticket names no live request, NotYours if it names another rank's.
    /// - Stalled if the port would sleep and the engine is deadlocked.
    /// - NoMemory for a step or a combination.
    /// - Stale if the result of a combination that this thread computed isn't wanted any longer.
    pub fn wait<R: Wait + Clock, G: Gate>(
        &mut self,
        rt: &R,
        gate: &G,
        request: &mut Request,
    ) -> Result<(Option<Outcome>, Receipts), Refusal>
        ensures rank { self.new.rank ≡ self.old.rank }
        ensures groups { self.new.groups ≡ self.old.groups }
        ensures told { IfOk result (λ r. TestsOne L.setting self.old.made self.old.rank request.old request.new true r.0 r.1) }
        ensures made { IfOk result (λ r. IfSome r.0 (λ outcome. self.new.made ≡ self.old.made + 1)) }
        ensures none { IfOk result (λ r. r.0 ≡ None → self.new.made ≡ self.old.made) }
        ensures refused { IfErr result
            (λ why. RefusesOne L.setting self.old.made self.old.rank request.old (Some why)
            ⊎ (IsHindrance L.setting self.old.rank why × WasPending L.setting self.old.made self.old.rank request.old)) }
        ensures err { OnErr result ((self.new.made ≡ self.old.made) × (request.new ≡ request.old)) }
    {
        let Some(first) = self.tally.take() else {
            unreachable!()
        };
        let (tally, waited) = self.combiner.wait(rt, gate, self.rank, request, first);
        self.tally = Some(tally);
        waited
    }

    /// Waits until a request of a list is Done, and completes the lowest such request
    /// (`MPI_Waitany`; MPI 4.1, 3.7.5). Returns None if no request of the list is active.
    ///
    /// # Errors
    ///
    /// Those of the first request that has one: Stale if a ticket names no live request, NotYours
    /// if it names another rank's. Then as `wait`. If the list names a request more than once,
    /// NoMemory also for the note of what the port waits for.
    pub fn wait_any<R: Wait + Clock, G: Gate>(
        &mut self,
        rt: &R,
        gate: &G,
        requests: &mut [Request],
    ) -> Result<(Option<(usize, Outcome)>, Receipts), Refusal>
        ensures rank { self.new.rank ≡ self.old.rank }
        ensures groups { self.new.groups ≡ self.old.groups }
        ensures told { IfOk result (λ r. TestsAny L.setting self.old.made self.old.rank requests.old requests.new (any_of r.0) r.1) }
        ensures made { IfOk result (λ r. IfSome r.0 (λ at. self.new.made ≡ self.old.made + 1)) }
        ensures none { IfOk result (λ r. r.0 ≡ None → self.new.made ≡ self.old.made) }
        ensures refused { IfErr result
            (λ why. RefusesList L.setting self.old.made self.old.rank requests.old (Some why)
            ⊎ (IsHindrance L.setting self.old.rank why × WasUnfinished L.setting self.old.made self.old.rank requests.old)) }
        ensures err { OnErr result ((self.new.made ≡ self.old.made) × (requests.new ≡ requests.old)) }
    {
        let rank = self.rank;
        let Some(tally) = &mut self.tally else {
            unreachable!()
        };
        let mut hindrance = None;
        for _ in rt.forever() {
            let mut held = self.combiner.enter(rt);
            let (any, receipts) = match held.locked.tested_any(tally, rank, requests) {
                Ok(told) => told,
                Err(why) => {
                    self.combiner.release(held);
                    return Err(why);
                }
            };
            let found = match any {
                Any::At(position, outcome) => Some((position, outcome)),
                Any::Undefined => None,
                Any::Unfinished => {
                    if let Some(why) = hindrance {
                        self.combiner.release(held);
                        return Err(why);
                    }
                    hindrance = self
                        .combiner
                        .wait_listed(rt, gate, held, rank, Awaited::Any(requests))
                        .err();
                    continue;
                }
            };
            self.combiner.release(held);
            return Ok((found, receipts));
        }
        unreachable!()
    }

    /// Waits until no request of a list is Pending, and completes those that are Done
    /// (`MPI_Waitall`; MPI 4.1, 3.7.5). Pushes each position with its outcome to `out`, in rising
    /// position. Completes none before that.
    ///
    /// # Errors
    ///
    /// Of the list as `wait_any`, and then as `wait`.
    pub fn wait_all<R: Wait + Clock, G: Gate>(
        &mut self,
        rt: &R,
        gate: &G,
        requests: &mut [Request],
        out: &mut Vec<(usize, Outcome)>,
    ) -> Result<Receipts, Refusal>
        requires distinct { AreDistinct requests.old }
        requires room { vec_len out.old + length requests.old ≤ vec_capacity out.old }
        ensures rank { self.new.rank ≡ self.old.rank }
        ensures groups { self.new.groups ≡ self.old.groups }
        ensures told { IfOk result (λ r. TestsAll L.setting self.old.made self.old.rank requests.old requests.new out.old.items out.new.items true r) }
        ensures made { IfOk result (λ r. self.new.made + vec_len out.old ≡ self.old.made + vec_len out.new) }
        ensures refused { IfErr result
            (λ why. RefusesList L.setting self.old.made self.old.rank requests.old (Some why)
            ⊎ (IsHindrance L.setting self.old.rank why × HadPending L.setting self.old.made self.old.rank requests.old)) }
        ensures err { OnErr result ((self.new.made ≡ self.old.made) × (requests.new ≡ requests.old) × (out.new ≡ out.old)) }
    {
        let rank = self.rank;
        let Some(tally) = &mut self.tally else {
            unreachable!()
        };
        let mut hindrance = None;
        for _ in rt.forever() {
            let mut held = self.combiner.enter(rt);
            let told = match held.locked.tested_all(tally, rank, requests, out) {
                Ok((false, _)) => {
                    if let Some(why) = hindrance {
                        self.combiner.release(held);
                        return Err(why);
                    }
                    hindrance = self
                        .combiner
                        .wait_listed(rt, gate, held, rank, Awaited::All(requests))
                        .err();
                    continue;
                }
                Ok((true, receipts)) => Ok(receipts),
                Err(why) => Err(why),
            };
            self.combiner.release(held);
            return told;
        }
        unreachable!()
    }

    /// Waits until a request of a list is Done, and completes all that are (`MPI_Waitsome`; MPI
    /// 4.1, 3.7.5). Pushes each position with its outcome to `out`, in rising position. Returns how
    /// many there were, at least one; None if no request is active.
    ///
    /// # Errors
    ///
    /// Of the list as `wait_any`, and then as `wait`.
    pub fn wait_some<R: Wait + Clock, G: Gate>(
        &mut self,
        rt: &R,
        gate: &G,
        requests: &mut [Request],
        out: &mut Vec<(usize, Outcome)>,
    ) -> Result<(Option<usize>, Receipts), Refusal>
        requires distinct { AreDistinct requests.old }
        requires room { vec_len out.old + length requests.old ≤ vec_capacity out.old }
        ensures rank { self.new.rank ≡ self.old.rank }
        ensures groups { self.new.groups ≡ self.old.groups }
        ensures told { IfOk result (λ r. TestsSome L.setting self.old.made self.old.rank requests.old requests.new out.old.items out.new.items r.0 r.1) }
        ensures some { IfOk result (λ r. IfSome r.0 (λ n. 0 < n)) }
        ensures made { IfOk result (λ r. IfSome r.0 (λ n. self.new.made ≡ self.old.made + n)) }
        ensures inactive { IfOk result (λ r. r.0 ≡ None → self.new.made ≡ self.old.made) }
        ensures refused { IfErr result
            (λ why. RefusesList L.setting self.old.made self.old.rank requests.old (Some why)
            ⊎ (IsHindrance L.setting self.old.rank why × WasUnfinished L.setting self.old.made self.old.rank requests.old)) }
        ensures err { OnErr result ((self.new.made ≡ self.old.made) × (requests.new ≡ requests.old) × (out.new ≡ out.old)) }
    {
        let rank = self.rank;
        let Some(tally) = &mut self.tally else {
            unreachable!()
        };
        let mut hindrance = None;
        for _ in rt.forever() {
            let mut held = self.combiner.enter(rt);
            let told = match held.locked.waited_some(tally, rank, requests, out) {
                Ok(None) => {
                    if let Some(why) = hindrance {
                        self.combiner.release(held);
                        return Err(why);
                    }
                    hindrance = self
                        .combiner
                        .wait_listed(rt, gate, held, rank, Awaited::Any(requests))
                        .err();
                    continue;
                }
                Ok(Some(answer)) => Ok(answer),
                Err(why) => Err(why),
            };
            self.combiner.release(held);
            return told;
        }
        unreachable!()
    }
}
