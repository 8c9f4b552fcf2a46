//! An engine on which one collective is posted, stepped and completed again and again.

use coll_core::{Config, Contribution, Core, DoneWork, Offer, Stepped, Work};
use coll_kinds::{Datatype, Kind, Mode, Op, Refusal, Signature, Ticket};
use coll_plans::plan;
use std::alloc::Global;

/// An engine for 64 ranks, with one collective that is repeated and other requests that stay pending beside it.
#[derive(Drop)]
pub struct Bench {
    alloc: Global,
    core: Core,
    sig: Signature,
    members: u8,
    offers: Vec<Offer>,
    tickets: Vec<Ticket>,
}

/// The counts of an allgatherv in which each member gives one element.
fn ones(members: u8) -> [u32; 64] {
    let mut counts = [0; 64];
    for count in counts.iter_mut().take(usize::from(members)) {
        *count = 1;
    }
    counts
}

/// A signature of the kind for this number of members, with one i32 value of each.
fn signature(kind: Kind, members: u8) -> Signature {
    Signature {
        kind,
        mode: Mode::Once,
        root: 0,
        op: if kind.has_operation() {
            Some(Op::Sum)
        } else {
            None
        },
        ty: Datatype::I32,
        count: if matches!(kind, Kind::Barrier | Kind::Allgatherv) {
            0
        } else {
            1
        },
        each: if kind.has_counts() {
            Some(ones(members))
        } else {
            None
        },
    }
}

/// The numbers below a bound, in order.
fn numbers(alloc: Global, below: u8) -> Result<Vec<u8>, Refusal> {
    let mut all = Vec::new(alloc);
    for number in 0..below {
        all.push(number)?;
    }
    Ok(all)
}

// Forwards to the core without contracts: the program counts what the calls do when it runs.

fn post(core: &mut Core, rank: u8, comm: u32, offer: Offer) -> Result<Ticket, Refusal> {
    match core.post(rank, comm, offer) {
        Ok(ticket) => Ok(ticket),
        Err(refused) => Err(refused.why),
    }
}

fn settle(core: &mut Core) -> Result<u64, Refusal> {
    core.settle()
}

fn retire(core: &mut Core, rank: u8, ticket: Ticket) -> Result<bool, Refusal> {
    Ok(core.retire(rank, ticket)?.is_some())
}

/// Does one action, and computes its combination if it has one. Returns false if nothing was ready.
fn act(core: &mut Core) -> Result<bool, Refusal> {
    match core.step()? {
        Stepped::Quiet => Ok(false),
        Stepped::Moved => Ok(true),
        Stepped::Finished => Ok(true),
        Stepped::Out(work) => finish(core, work),
    }
}

fn finish(core: &mut Core, work: Work) -> Result<bool, Refusal> {
    match work.run() {
        Ok(done) => commit(core, done),
        Err(refused) => {
            core.abandon(refused.back)?;
            Err(refused.why)
        }
    }
}

fn commit(core: &mut Core, done: DoneWork) -> Result<bool, Refusal> {
    core.commit(done)?.has_finished();
    Ok(true)
}

/// An engine for 64 ranks, with a communicator of this number of members and one of two ranks.
fn open(alloc: Global, members: u8) -> Result<Core, Refusal> {
    let mut groups = Vec::new(alloc);
    groups.push(numbers(alloc, members)?)?;
    groups.push(numbers(alloc, 2)?)?;
    let config = Config {
        ranks: 64,
        groups,
        slots: 4_096,
        places: 65_536,
        wear: 4_294_967_295,
        starts: 1,
        trace: 2,
    };
    Core::open(alloc, config)
}

/// The offer of a barrier of two ranks, for the first of them.
fn waiting(alloc: Global) -> Result<Offer, Refusal> {
    let plan = plan(alloc, signature(Kind::Barrier, 2), 2, 0)?;
    Ok(Offer {
        plan,
        bytes: Contribution::empty(),
    })
}

impl Bench {
    /// An engine with a communicator of `members` members, and with `others` barriers that only one of two ranks has posted.
    pub fn new(alloc: Global, kind: Kind, members: u8, others: u32) -> Result<Bench, Refusal> {
        let mut core = open(alloc, members)?;
        for _other in 0..others {
            let offer = waiting(alloc)?;
            post(&mut core, 0, 1, offer)?;
        }
        settle(&mut core)?;
        Ok(Bench {
            alloc,
            core,
            sig: signature(kind, members),
            members,
            offers: Vec::new(alloc),
            tickets: Vec::new(alloc),
        })
    }

    /// Plans the collective for all members.
    pub fn plan(&mut self) -> Result<(), Refusal> {
        let members = self.members;
        if members > 64 {
            return Err(Refusal::Torn);
        }
        for member in 0..members {
            let plan = plan(self.alloc, self.sig, members, member)?;
            let bytes = vec![in self.alloc; 1; plan.given_len()]?;
            self.offers.push(Offer {
                plan,
                bytes: Contribution::new(bytes),
            })?;
        }
        Ok(())
    }

    /// Posts the collective at all members, the last one first.
    pub fn post(&mut self) -> Result<(), Refusal> {
        for _member in 0..self.members {
            self.post_last()?;
        }
        Ok(())
    }

    /// Posts the last offer.
    fn post_last(&mut self) -> Result<(), Refusal> {
        let Some(offer) = self.offers.pop() else {
            return Err(Refusal::Torn);
        };
        let rank = offer.plan.member();
        let ticket = post(&mut self.core, rank, 0, offer)?;
        self.tickets.push(ticket)?;
        Ok(())
    }

    /// Steps until nothing is ready, and computes what is handed out. Returns the number of actions.
    pub fn steps(&mut self) -> Result<u64, Refusal> {
        for count in 0..1_000_000 {
            if !act(&mut self.core)? {
                return Ok(count);
            }
        }
        Err(Refusal::Torn)
    }

    /// Does the same as `steps` in one call of the core.
    pub fn settle(&mut self) -> Result<u64, Refusal> {
        settle(&mut self.core)
    }

    /// Completes all requests.
    pub fn retire(&mut self) -> Result<(), Refusal> {
        for rank in 0..self.members {
            self.retire_last(rank)?;
        }
        Ok(())
    }

    /// Completes the last request, which is this rank's.
    fn retire_last(&mut self, rank: u8) -> Result<(), Refusal> {
        let Some(ticket) = self.tickets.pop() else {
            return Err(Refusal::Torn);
        };
        if !retire(&mut self.core, rank, ticket)? {
            return Err(Refusal::Torn);
        }
        Ok(())
    }
}
