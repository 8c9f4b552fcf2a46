//! An engine that makes the calls of a row.

use crate::rows::answer::CoreAnswer;
use crate::rows::call::CoreCall;
use crate::rows::calls;
use crate::rows::setup::{CoreSetup, PAIR};
use coll_core::{Contribution, Core, Offer, Work};
use coll_kinds::{Refusal, Signature, Ticket};
use coll_plans::{Plan, plan};
use std::alloc::Global;
use std::mem;

/// An engine with the requests that a row made, and the combination that the row holds.
pub struct CoreDriver {
    alloc: Global,
    core: Core,
    size: u8,
    tickets: Vec<Ticket>,
    held: Option<Work>,
}

/// What a post of these values hands in, or why it can't.
fn offer(
    alloc: Global,
    sig: Signature,
    size: u8,
    member: u8,
    values: &[u8],
) -> Result<Offer, Refusal> {
    Ok(Offer {
        plan: plan_of(alloc, sig, size, member)?,
        bytes: bytes_of(alloc, values)?,
    })
}

/// What a post of this number of bytes hands in, or why it can't.
fn offer_of_bytes(
    alloc: Global,
    sig: Signature,
    size: u8,
    member: u8,
    count: u8,
) -> Result<Offer, Refusal> {
    let plan = plan_of(alloc, sig, size, member)?;
    let mut bytes = Vec::new(alloc);
    for byte in 0..count {
        bytes.push(byte)?;
    }
    Ok(Offer {
        plan,
        bytes: Contribution::new(bytes),
    })
}

/// A member's plan; `Torn` if there is no such member.
fn plan_of(alloc: Global, sig: Signature, size: u8, member: u8) -> Result<Plan, Refusal> {
    if member >= size || size > 64 {
        return Err(Refusal::Torn);
    }
    plan(alloc, sig, size, member)
}

/// The bytes of i32 values, each from 0 to 255.
fn bytes_of(alloc: Global, values: &[u8]) -> Result<Contribution, Refusal> {
    let mut bytes = Vec::new(alloc);
    for value in values {
        bytes.extend_from_slice(&[*value, 0, 0, 0])?;
    }
    Ok(Contribution::new(bytes))
}

/// What a post of as many i32 values as the signature's count hands in, each of them this value, or why it can't.
fn offer_of_equal(
    alloc: Global,
    sig: Signature,
    size: u8,
    member: u8,
    value: u8,
) -> Result<Offer, Refusal> {
    let values = Vec::from_elem(alloc, value, sig.count as usize)?;
    offer(alloc, sig, size, member, values.as_slice())
}

impl CoreDriver {
    pub fn open(alloc: Global, setup: &CoreSetup) -> Result<CoreDriver, Refusal> {
        let core = calls::open(alloc, setup)?;
        Ok(CoreDriver {
            alloc,
            core,
            size: setup.ranks,
            tickets: Vec::new(alloc),
            held: None,
        })
    }

    /// Ends the row. The combination that it holds is discarded together with its engine.
    pub fn close(self) {
        let CoreDriver {
            alloc: _,
            core: _,
            size: _,
            tickets: _,
            held,
        } = self;
        discard(held);
    }

    /// Makes a call, and returns its answer.
    pub fn answer(&mut self, call: CoreCall) -> CoreAnswer {
        let all = self.size;
        match call {
            CoreCall::Post(rank, sig, values) => self.post(rank, 0, (sig, all, rank), values),
            CoreCall::PostEqual(rank, sig, value) => self.post_equal(rank, sig, value),
            CoreCall::PostBytes(rank, sig, count) => self.post_bytes(rank, sig, count),
            CoreCall::Offer(rank, comm, planned, values) => self.post(rank, comm, planned, values),
            CoreCall::Init(rank, sig) => self.init(rank, sig),
            CoreCall::Start(rank, request, values) => self.start(rank, request, values),
            CoreCall::Free(rank, request) => self.free(rank, request),
            CoreCall::Phase(rank, request) => calls::phase(&self.core, rank, self.ticket(request)),
            CoreCall::About(request) => calls::about(&self.core, self.ticket(request)),
            CoreCall::Retire(rank, request) => self.retire(rank, request),
            CoreCall::Lent => calls::lent(&self.core),
            CoreCall::Quiet => calls::quiet(&self.core),
            CoreCall::Step => self.step(),
            CoreCall::StepsToWork => self.steps_to_work(),
            CoreCall::Settle => calls::settle(&mut self.core),
            CoreCall::Rest => calls::rest(&mut self.core),
            CoreCall::Commit => self.commit(),
            CoreCall::Abandon => self.abandon(),
            CoreCall::CommitForeign(sig, values) => self.commit_foreign(sig, values),
            CoreCall::AbandonForeign(sig, values) => self.abandon_foreign(sig, values),
        }
    }

    /// A request's ticket; if no request has that number, a ticket of a slot that the engine doesn't have.
    fn ticket(&self, request: usize) -> Ticket {
        match self.tickets.get(request) {
            Some(ticket) => *ticket,
            None => Ticket {
                slot: 4_096,
                generation: 1,
            },
        }
    }

    /// Gives a request the next number.
    fn number(&mut self, made: Result<Ticket, CoreAnswer>) -> CoreAnswer {
        let ticket = match made {
            Ok(ticket) => ticket,
            Err(answer) => return answer,
        };
        match self.tickets.push(ticket) {
            Ok(()) => CoreAnswer::Accepted,
            Err(_) => CoreAnswer::Refused(Refusal::NoMemory),
        }
    }

    fn post(
        &mut self,
        rank: u8,
        comm: u32,
        (sig, size, member): (Signature, u8, u8),
        values: &[u8],
    ) -> CoreAnswer {
        let offered = offer(self.alloc, sig, size, member, values);
        self.post_offered(rank, comm, offered)
    }

    fn post_equal(&mut self, rank: u8, sig: Signature, value: u8) -> CoreAnswer {
        let offered = offer_of_equal(self.alloc, sig, self.size, rank, value);
        self.post_offered(rank, 0, offered)
    }

    fn post_bytes(&mut self, rank: u8, sig: Signature, count: u8) -> CoreAnswer {
        let offered = offer_of_bytes(self.alloc, sig, self.size, rank, count);
        self.post_offered(rank, 0, offered)
    }

    fn post_offered(&mut self, rank: u8, comm: u32, offered: Result<Offer, Refusal>) -> CoreAnswer {
        match offered {
            Ok(offer) => {
                let made = calls::post(&mut self.core, rank, comm, offer);
                self.number(made)
            }
            Err(why) => CoreAnswer::Refused(why),
        }
    }

    fn init(&mut self, rank: u8, sig: Signature) -> CoreAnswer {
        match plan_of(self.alloc, sig, self.size, rank) {
            Ok(plan) => {
                let made = calls::init(&mut self.core, rank, 0, plan);
                self.number(made)
            }
            Err(why) => CoreAnswer::Refused(why),
        }
    }

    fn start(&mut self, rank: u8, request: usize, values: &[u8]) -> CoreAnswer {
        let ticket = self.ticket(request);
        match bytes_of(self.alloc, values) {
            Ok(bytes) => calls::start(&mut self.core, rank, ticket, bytes),
            Err(why) => CoreAnswer::Refused(why),
        }
    }

    fn free(&mut self, rank: u8, request: usize) -> CoreAnswer {
        let ticket = self.ticket(request);
        calls::free(&mut self.core, rank, ticket)
    }

    fn retire(&mut self, rank: u8, request: usize) -> CoreAnswer {
        let ticket = self.ticket(request);
        calls::retire(&mut self.core, rank, ticket)
    }

    fn step(&mut self) -> CoreAnswer {
        let (answer, work) = calls::step(&mut self.core);
        if let Some(work) = work {
            discard(mem::replace(&mut self.held, Some(work)));
        }
        answer
    }

    fn steps_to_work(&mut self) -> CoreAnswer {
        for _step in 0..20 {
            let answer = self.step();
            if matches!(answer, CoreAnswer::Out(..)) {
                return answer;
            }
        }
        CoreAnswer::NoWork
    }

    fn commit(&mut self) -> CoreAnswer {
        match self.held.take() {
            Some(work) => calls::finish(&mut self.core, work),
            None => CoreAnswer::NoWork,
        }
    }

    fn abandon(&mut self) -> CoreAnswer {
        match self.held.take() {
            Some(work) => calls::abandon(&mut self.core, work),
            None => CoreAnswer::NoWork,
        }
    }

    /// Commits another engine's combination.
    fn commit_foreign(&mut self, sig: Signature, values: [u8; 2]) -> CoreAnswer {
        match self.foreign(sig, values) {
            Some(work) => calls::finish(&mut self.core, work),
            None => CoreAnswer::NoWork,
        }
    }

    /// Abandons another engine's combination.
    fn abandon_foreign(&mut self, sig: Signature, values: [u8; 2]) -> CoreAnswer {
        match self.foreign(sig, values) {
            Some(work) => calls::abandon(&mut self.core, work),
            None => CoreAnswer::NoWork,
        }
    }

    /// Another engine's combination; None if one is held here and has another ticket.
    fn foreign(&self, sig: Signature, values: [u8; 2]) -> Option<Work> {
        let foreign = foreign(self.alloc, sig, values).ok()??;
        if let Some(own) = &self.held
            && own.ticket() != foreign.ticket()
        {
            foreign.discard();
            return None;
        }
        Some(foreign)
    }
}

/// Gives up a combination that is held.
fn discard(held: Option<Work>) {
    match held {
        Some(work) => work.discard(),
        None => {}
    }
}

/// The first combination of an engine in which ranks 0 and 1 post equal values, each its own.
fn foreign(
    alloc: Global,
    sig: Signature,
    [first, second]: [u8; 2],
) -> Result<Option<Work>, Refusal> {
    let mut driver = CoreDriver::open(alloc, &PAIR)?;
    driver.post_equal(0, sig, first);
    driver.post_equal(1, sig, second);
    driver.steps_to_work();
    let work = driver.held.take();
    driver.close();
    Ok(work)
}
