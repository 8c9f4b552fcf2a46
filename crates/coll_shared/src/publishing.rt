//! A port's posts and starts. The port makes them itself if the lock is free; else the combiner
//! does.

ghost use Rattle.std.specs.Prelude.{◌≡◌, ◌+◌, IfErr, IfNone, IfOk, IfSome, OnErr, OnOk, Some};
ghost use Rattle.coll_core.specs.Posts.{post_of};
ghost use Rattle.coll_machine.specs.Calls.{Start};
ghost use Rattle.coll_traced.specs.Calls.{IsPosted, IsStarted};
ghost use Rattle.coll_traced.specs.Denials.{IsDenied};
ghost use Rattle.coll_traced.specs.Prepared.{IsPreparedFor};
ghost use Rattle.coll_shared.specs.Publications.{IsExpected};

use crate::combiner::{Combiner, Held};
use crate::publication::{Content, Expected};
use crate::record::PublicationRecord;
use coll_core::{Contribution, Offer};
use coll_kinds::{Refusal, Refused, Ticket};
use coll_plan_cache::Plans;
use coll_traced::{Entries, Operation, Prepared, Receipt, Tally};
use std::alloc::Global;
use std::rt::Clock;
use std::sync::Wait;

impl<L: Entries> Combiner<L> {
    /// Waits until there is an answer in the record, or serves the record as the combiner.
    fn await_made<R: Wait + Clock>(&self, rt: &R, record: &PublicationRecord<L>) {
        let mut policy = self.processors.policy(rt, record.history());
        if let Some(held) = self.spin(rt, record, &mut policy) {
            self.release(held);
            record.set_leads(true);
        }
    }

    /// Has an operation made by the combiner. Returns None if it wasn't made; the port is to find
    /// out why.
    fn have_made<R: Wait + Clock>(
        &self,
        rt: &R,
        rank: u8,
        operation: Option<Operation>,
        expected: Expected<'_>,
        tally: Tally<L>,
    ) -> (Tally<L>, Option<(Ticket, Receipt)>)
        ensures counted { IfSome result.1 (λ made. result.0 ≡ tally + 1) }
        ensures expected { IfSome result.1 (λ made. IsExpected rank expected.entry made.0 made.1) }
        ensures look { IfNone result.1 (result.0 ≡ tally) }
    {
        let (Some(record), Some(operation)) = (self.record(rank), operation) else {
            return (tally, None);
        };
        let before = tally.made();
        record.publish(rt, Content::Operation(operation), tally);
        for _ in rt.forever() {
            self.await_made(rt, record);
            if let Some(answer) = record.take_made(rt, rank, expected, before) {
                return answer;
            }
        }
        unreachable!()
    }

    /// Takes the lock for a post, if the port leads and the lock is free. What the post keeps is
    /// made before that.
    fn lead_post(
        &self,
        alloc: Global,
        rank: u8,
        offer: &mut Offer,
    ) -> Option<(Held<'_, L>, Result<Prepared, Refusal>)>
        ensures prepared { IfSome result (λ r. IfOk r.1 (IsPreparedFor offer.old)) }
        ensures refused { IfSome result (λ r. IfErr r.1 (λ why. why ≡ Refusal.NoMemory)) }
        ensures same { offer.new ≡ offer.old }
    {
        if !self.record(rank)?.leads() {
            return None;
        }
        let prepared = Prepared::of(alloc, offer);
        let held = self.try_enter()?;
        Some((held, prepared))
    }

    /// Starts a collective for a port. Returns the port's tally.
    pub(crate) fn post<R: Wait + Clock>(
        &self,
        rt: &R,
        alloc: Global,
        rank: u8,
        comm: u32,
        plans: &mut Plans,
        mut offer: Offer,
        mut tally: Tally<L>,
    ) -> (Tally<L>, Result<(Ticket, Receipt), Refused<Offer>>)
        ensures counted { OnOk result.1 (result.0 ≡ tally + 1) }
        ensures posted { IfOk result.1 (λ made. IsPosted rank (Some made.0) comm offer.plan.sig offer.bytes made.1) }
        ensures err { OnErr result.1 (result.0 ≡ tally) }
        ensures refused { IfErr result.1 (λ refused. IsDenied L.setting tally (post_of rank comm offer) refused.why) }
        ensures back { IfErr result.1 (λ refused. refused.back ≡ offer) }
    {
        let (mut held, prepared) = match self.lead_post(alloc, rank, &mut offer) {
            Some(lead) => lead,
            None => {
                let operation = match plans.lent(&offer.plan) {
                    Ok(plan) => Operation::post(alloc, comm, plan, &mut offer),
                    Err(_) => None,
                };
                let expected = Expected::Post {
                    comm,
                    sig: offer.plan.sig(),
                    bytes: offer.bytes.as_slice(),
                };
                let (back, made) = self.have_made(rt, rank, operation, expected, tally);
                if let Some(made) = made {
                    return (back, Ok(made));
                }
                tally = back;
                let prepared = Prepared::of(alloc, &mut offer);
                (self.enter(rt), prepared)
            }
        };
        let posted = held.locked.post(&mut tally, rank, comm, offer, prepared);
        self.release(held);
        self.has_led(rank);
        (tally, posted)
    }

    /// Starts a persistent request for a port. Returns the port's tally.
    pub(crate) fn start<R: Wait + Clock>(
        &self,
        rt: &R,
        alloc: Global,
        rank: u8,
        ticket: Ticket,
        mut bytes: Contribution,
        mut tally: Tally<L>,
    ) -> (Tally<L>, Result<Receipt, Refused<Contribution>>)
        ensures counted { OnOk result.1 (result.0 ≡ tally + 1) }
        ensures started { IfOk result.1 (λ receipt. IsStarted rank (Some ticket) bytes receipt) }
        ensures err { OnErr result.1 (result.0 ≡ tally) }
        ensures refused { IfErr result.1 (λ refused. IsDenied L.setting tally (Start rank ticket bytes) refused.why) }
        ensures back { IfErr result.1 (λ refused. refused.back ≡ bytes) }
    {
        let mut held = match self.try_lead(rank) {
            Some(held) => held,
            None => {
                let operation = Operation::start(alloc, ticket, &mut bytes);
                let expected = Expected::Start {
                    ticket,
                    bytes: bytes.as_slice(),
                };
                let (back, made) = self.have_made(rt, rank, operation, expected, tally);
                if let Some((_ticket, receipt)) = made {
                    return (back, Ok(receipt));
                }
                tally = back;
                self.enter(rt)
            }
        };
        let started = held.locked.start(&mut tally, rank, ticket, bytes);
        self.release(held);
        self.has_led(rank);
        (tally, started)
    }
}
