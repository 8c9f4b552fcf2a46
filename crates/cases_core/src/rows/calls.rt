//! The core's calls, each with its answer. They have no contracts: rows and random jobs compare the answers.

use crate::rows::answer::CoreAnswer;
use crate::rows::setup::CoreSetup;
use coll_core::{Contribution, Core, DoneWork, Offer, Stepped, Work};
use coll_kinds::{Refusal, Ticket};
use coll_plans::Plan;
use std::alloc::Global;

pub fn open(alloc: Global, setup: &CoreSetup) -> Result<Core, Refusal> {
    let config = setup.config(alloc)?;
    Core::open(alloc, config)
}

pub fn post(core: &mut Core, rank: u8, comm: u32, offer: Offer) -> Result<Ticket, CoreAnswer> {
    match core.post(rank, comm, offer) {
        Ok(ticket) => Ok(ticket),
        Err(refused) => Err(CoreAnswer::Back(refused.why, refused.back.bytes.len())),
    }
}

pub fn init(core: &mut Core, rank: u8, comm: u32, plan: Plan) -> Result<Ticket, CoreAnswer> {
    match core.init(rank, comm, plan) {
        Ok(ticket) => Ok(ticket),
        Err(refused) => Err(CoreAnswer::Refused(refused.why)),
    }
}

pub fn start(core: &mut Core, rank: u8, ticket: Ticket, bytes: Contribution) -> CoreAnswer {
    match core.start(rank, ticket, bytes) {
        Ok(()) => CoreAnswer::Accepted,
        Err(refused) => CoreAnswer::Back(refused.why, refused.back.len()),
    }
}

pub fn free(core: &mut Core, rank: u8, ticket: Ticket) -> CoreAnswer {
    CoreAnswer::of_call(core.free(rank, ticket))
}

pub fn phase(core: &Core, rank: u8, ticket: Ticket) -> CoreAnswer {
    match core.phase(rank, ticket) {
        Ok(phase) => CoreAnswer::Phase(phase),
        Err(why) => CoreAnswer::Refused(why),
    }
}

pub fn about(core: &Core, ticket: Ticket) -> CoreAnswer {
    CoreAnswer::About(core.about(ticket))
}

pub fn retire(core: &mut Core, rank: u8, ticket: Ticket) -> CoreAnswer {
    match core.retire(rank, ticket) {
        Ok(Some(outcome)) => CoreAnswer::of_outcome(&outcome),
        Ok(None) => CoreAnswer::Unfinished,
        Err(why) => CoreAnswer::Refused(why),
    }
}

pub fn lent(core: &Core) -> CoreAnswer {
    CoreAnswer::Lent(core.lent())
}

pub fn quiet(core: &Core) -> CoreAnswer {
    CoreAnswer::Quiet(core.quiet())
}

/// A step, with the combination that it handed out.
pub fn step(core: &mut Core) -> (CoreAnswer, Option<Work>) {
    match core.step() {
        Ok(Stepped::Quiet) => (CoreAnswer::Still, None),
        Ok(Stepped::Moved) => (CoreAnswer::Moved, None),
        Ok(Stepped::Finished) => (CoreAnswer::Finished, None),
        Ok(Stepped::Out(work)) => (CoreAnswer::of_work(&work), Some(work)),
        Err(why) => (CoreAnswer::Refused(why), None),
    }
}

pub fn settle(core: &mut Core) -> CoreAnswer {
    match core.settle() {
        Ok(actions) => CoreAnswer::Settled(actions),
        Err(why) => CoreAnswer::Refused(why),
    }
}

pub fn rest(core: &mut Core) -> CoreAnswer {
    match core.settle() {
        Ok(_) => CoreAnswer::Accepted,
        Err(why) => CoreAnswer::Refused(why),
    }
}

/// Computes a combination and commits it.
pub fn finish(core: &mut Core, work: Work) -> CoreAnswer {
    match work.run() {
        Ok(done) => commit(core, done),
        Err(refused) => {
            refused.back.discard();
            CoreAnswer::Refused(refused.why)
        }
    }
}

fn commit(core: &mut Core, done: DoneWork) -> CoreAnswer {
    match core.commit(done) {
        Ok(stepped) => {
            if stepped.has_finished() {
                CoreAnswer::Finished
            } else {
                CoreAnswer::Moved
            }
        }
        Err(why) => CoreAnswer::Refused(why),
    }
}

pub fn abandon(core: &mut Core, work: Work) -> CoreAnswer {
    CoreAnswer::of_call(core.abandon(work))
}
