//! How a port waits: it spins on its record, takes the lock now and then, goes on with what is
//! ready for all ports, and parks if nothing is.

ghost use Rattle.std.specs.Prelude.{◌≡◌, ◌+◌, ◌⊎◌, IfErr, IfNone, IfOk, IfSome, None, OnErr, Some, true};
ghost use Rattle.coll_traced.specs.Awaiting.{IsHindrance};
ghost use Rattle.coll_traced.specs.Tests.{RefusesOne, TestsOne};
ghost use Rattle.coll_traced.specs.Unfinished.{WasPending};

use crate::combiner::{Combiner, Held};
use crate::gate::Gate;
use crate::publication::Content;
use crate::record::PublicationRecord;
use crate::turn::Turn;
use coll_complete::Request;
use coll_core::Outcome;
use coll_kinds::{Refusal, Ticket};
use coll_spin::SpinPolicy;
use coll_traced::{Awaited, Completed, Entries, Receipts, Tally};
use std::rt::Clock;
use std::sync::Wait;

impl<L: Entries> Combiner<L> {
    /// Spins until there is an answer in the record, and now and then tries for the lock. Takes the
    /// lock after the last spin. Returns None if there is an answer.
    pub(crate) fn spin<R: Wait + Clock>(
        &self,
        rt: &R,
        record: &PublicationRecord<L>,
        policy: &mut SpinPolicy,
    ) -> Option<Held<'_, L>> {
        for _ in rt.forever() {
            let Some(spin) = policy.next_spin() else {
                return Some(self.enter(rt));
            };
            if record.is_answered() {
                record.set_leads(false);
                return None;
            }
            if policy.tries_lock(spin) {
                if let Some(held) = self.try_enter() {
                    return Some(held);
                }
            }
            if self.prepare() {
                policy.worked();
            } else {
                self.processors.pause(rt, record.history(), policy, spin);
            }
        }
        unreachable!()
    }

    /// Parks a port that is noted as parked until it is answered. If it is summoned instead, it
    /// takes the lock.
    fn park<R: Wait>(&self, rt: &R, record: &PublicationRecord<L>) -> Option<Held<'_, L>> {
        self.falls_asleep();
        record.park(rt);
        self.wakes_up();
        if record.is_answered() {
            return None;
        }
        Some(self.enter(rt))
    }

    /// Waits for the answer of a port whose wait is published or registered, and which may hold the
    /// lock.
    fn await_answer<'a, R: Wait + Clock, G: Gate>(
        &'a self,
        rt: &R,
        gate: &G,
        mut held: Option<Held<'a, L>>,
        rank: u8,
        record: &PublicationRecord<L>,
    ) -> Result<(), Refusal>
        ensures { IfErr result (IsHindrance L.setting rank) }
    {
        let mut policy = self.processors.policy(rt, record.history());
        let mut spun = false;
        let mut slept = false;
        for _ in rt.forever() {
            let turn = match held {
                Some(held) => {
                    let turn = self.turn(rt, gate, held, rank, record, policy)?;
                    policy.gave_up_lock();
                    turn
                }
                None => Turn::Spin,
            };
            let found = match turn {
                Turn::Over => {
                    record.history().note(policy, spun, slept);
                    return Ok(());
                }
                Turn::Spin => {
                    spun = true;
                    self.spin(rt, record, &mut policy)
                }
                Turn::Park => {
                    slept = true;
                    self.park(rt, record)
                }
            };
            let Some(again) = found else {
                record.history().note(policy, spun, slept);
                return Ok(());
            };
            held = Some(again);
        }
        unreachable!()
    }

    /// Waits for one request through the port's record, with its tally in it. Returns the
    /// completion, or None if the port has to check itself.
    fn wait_published<R: Wait + Clock, G: Gate>(
        &self,
        rt: &R,
        gate: &G,
        rank: u8,
        ticket: Ticket,
        tally: Tally<L>,
    ) -> (Tally<L>, Result<Option<Completed<L>>, Refusal>)
        ensures counted { IfOk result.1 (λ found. IfSome found (λ completed. result.0 ≡ tally + 1)) }
        ensures completed { IfOk result.1
            (λ found. IfSome found (λ completed. (completed.rank ≡ rank) × (completed.ticket ≡ ticket) × (completed.made ≡ tally))) }
        ensures none { IfOk result.1 (λ found. IfNone found (result.0 ≡ tally)) }
        ensures err { OnErr result.1 (result.0 ≡ tally) }
        ensures refused { IfErr result.1 (IsHindrance L.setting rank) }
    {
        let Some(record) = self.record(rank) else {
            return (tally, Ok(None));
        };
        let before = tally.made();
        let mut held = self.try_lead(rank);
        record.publish(rt, Content::Wait(ticket), tally);
        for _ in rt.forever() {
            if let Err(why) = self.await_answer(rt, gate, held, rank, record) {
                if let Some(tally) = record.take_back(before) {
                    return (tally, Err(why));
                }
            }
            if let Some((tally, found)) = record.take_completed(rt, rank, ticket, before) {
                return (tally, Ok(found));
            }
            held = None;
        }
        unreachable!()
    }

    /// Waits until the request isn't Pending, and completes it if it is Done. The wait is refused
    /// only if a last check finds the request Pending.
    pub(crate) fn wait<R: Wait + Clock, G: Gate>(
        &self,
        rt: &R,
        gate: &G,
        rank: u8,
        request: &mut Request,
        first: Tally<L>,
    ) -> (Tally<L>, Result<(Option<Outcome>, Receipts), Refusal>)
        ensures told { IfOk result.1 (λ r. TestsOne L.setting first rank request.old request.new true r.0 r.1) }
        ensures counted { IfOk result.1 (λ r. IfSome r.0 (λ outcome. result.0 ≡ first + 1)) }
        ensures none { IfOk result.1 (λ r. r.0 ≡ None → result.0 ≡ first) }
        ensures refused { IfErr result.1
            (λ why. RefusesOne L.setting first rank request.old (Some why) ⊎ (IsHindrance L.setting rank why × WasPending L.setting first rank request.old)) }
        ensures err { OnErr result.1 ((request.new ≡ request.old) × (result.0 ≡ first)) }
    {
        let mut tally = first;
        let mut hindrance = None;
        for _ in rt.forever() {
            if let (Some(ticket), None) = (request.ticket(), hindrance) {
                let (back, found) = self.wait_published(rt, gate, rank, ticket, tally);
                tally = back;
                match found {
                    Ok(Some(completed)) => {
                        let (rest, outcome, receipts) = completed.open();
                        *request = rest;
                        return (tally, Ok((Some(outcome), receipts)));
                    }
                    Ok(None) => {}
                    Err(why) => hindrance = Some(why),
                }
            }
            let mut held = self.enter(rt);
            let looked = held.locked.tested(&mut tally, rank, request);
            self.release(held);
            match looked {
                Ok((tested, receipts)) if tested.flag => {
                    return (tally, Ok((tested.outcome, receipts)));
                }
                Ok(_) => {
                    if let Some(why) = hindrance {
                        return (tally, Err(why));
                    }
                }
                Err(why) => return (tally, Err(why)),
            }
        }
        unreachable!()
    }

    /// Waits, with the lock held at first, for requests of a list, until the port is to check
    /// again.
    pub(crate) fn wait_listed<'a, R: Wait + Clock, G: Gate>(
        &'a self,
        rt: &R,
        gate: &G,
        mut held: Held<'a, L>,
        rank: u8,
        awaited: Awaited<'_>,
    ) -> Result<(), Refusal>
        ensures { IfErr result (IsHindrance L.setting rank) }
    {
        let Some(record) = self.record(rank) else {
            self.release(held);
            return Ok(());
        };
        let registered = held.locked.traced.register(rank, awaited);
        let Ok(true) = registered else {
            self.release(held);
            registered?;
            return Ok(());
        };
        record.register(rt);
        let ended = self.await_answer(rt, gate, Some(held), rank, record);
        record.clear();
        ended
    }
}
