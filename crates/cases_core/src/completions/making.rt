//! An engine with the requests that rows ask for.

use coll_complete::Request;
use coll_core::{Config, Contribution, Core, Offer, Phase};
use coll_kinds::{Datatype, Kind, Mode, Op, Refusal, Signature, Ticket};
use coll_plans::{Plan, plan};
use std::alloc::Global;

/// A request of rank 0, of another rank, or of none.
#[derive(Clone, Copy, PartialEq)]
pub(super) enum Holder {
    Null,
    Idle,
    Pending,
    Done,
    /// A persistent request that is Done.
    Restarted,
    Foreign,
    Stale,
}

/// A sum of one byte.
fn sum(mode: Mode) -> Signature {
    Signature {
        kind: Kind::Allreduce,
        mode,
        root: 0,
        op: Some(Op::Sum),
        ty: Datatype::U8,
        count: 1,
        each: None,
    }
}

/// Member 0's plan of a sum among this number of members.
fn plan_of(alloc: Global, mode: Mode, members: u8) -> Result<Plan, Refusal> {
    if members < 1 || members > 64 {
        return Err(Refusal::Torn);
    }
    plan(alloc, sum(mode), members, 0)
}

/// A contribution of one byte.
pub(super) fn byte(alloc: Global, value: u8) -> Result<Contribution, Refusal> {
    Contribution::copy(alloc, &[value])
}

/// An engine of two ranks: communicator 0 has both, 1 has rank 0 alone, 2 rank 1 alone.
pub(super) fn open(alloc: Global) -> Result<Core, Refusal> {
    let mut groups = Vec::new(alloc);
    groups.push(Vec::from_slice(alloc, &[0, 1])?)?;
    groups.push(Vec::from_slice(alloc, &[0])?)?;
    groups.push(Vec::from_slice(alloc, &[1])?)?;
    Core::open(
        alloc,
        Config {
            ranks: 2,
            groups,
            slots: 8,
            places: 8,
            wear: 8,
            starts: 8,
            trace: 64,
        },
    )
}

/// A post by member 0 of a communicator of this number of members.
fn post(
    alloc: Global,
    core: &mut Core,
    rank: u8,
    (comm, members): (u32, u8),
    value: u8,
) -> Result<Request, Refusal> {
    let offer = Offer {
        plan: plan_of(alloc, Mode::Once, members)?,
        bytes: byte(alloc, value)?,
    };
    match core.post(rank, comm, offer) {
        Ok(ticket) => Ok(Request::of(ticket)),
        Err(refused) => Err(refused.why),
    }
}

/// An initialisation by rank 0.
fn init(alloc: Global, core: &mut Core, (comm, members): (u32, u8)) -> Result<Ticket, Refusal> {
    match core.init(0, comm, plan_of(alloc, Mode::Persistent, members)?) {
        Ok(ticket) => Ok(ticket),
        Err(refused) => Err(refused.why),
    }
}

/// A persistent request that was started with a value.
fn restarted(alloc: Global, core: &mut Core, value: u8) -> Result<Request, Refusal> {
    let ticket = init(alloc, core, (1, 1))?;
    match core.start(0, ticket, byte(alloc, value)?) {
        Ok(()) => Ok(Request::of(ticket)),
        Err(refused) => Err(refused.why),
    }
}

/// A request that will be as it is asked for once the engine has settled.
fn make(alloc: Global, core: &mut Core, made: Holder, value: u8) -> Result<Request, Refusal> {
    match made {
        Holder::Null => Ok(Request::null()),
        Holder::Idle => Ok(Request::of(init(alloc, core, (0, 2))?)),
        Holder::Pending => post(alloc, core, 0, (0, 2), value),
        Holder::Done => post(alloc, core, 0, (1, 1), value),
        Holder::Restarted => restarted(alloc, core, value),
        Holder::Foreign => post(alloc, core, 1, (2, 1), value),
        Holder::Stale => Ok(Request::of(Ticket {
            slot: 0,
            generation: 9,
        })),
    }
}

/// A list of requests with the values 10, 11, .. in an engine that has settled.
pub(super) fn make_all(
    alloc: Global,
    core: &mut Core,
    list: &[Holder],
) -> Result<Vec<Request>, Refusal> {
    let mut requests = Vec::new(alloc);
    let mut value: u8 = 10;
    for made in list {
        requests.push(make(alloc, core, *made, value)?)?;
        value = value.wrapping_add(1);
    }
    core.settle()?;
    Ok(requests)
}

/// How far a request is, seen from rank 0.
fn far(core: &Core, request: &Request) -> Holder {
    let Some(ticket) = request.ticket() else {
        return Holder::Null;
    };
    match core.phase(0, ticket) {
        Ok(Phase::Idle) => Holder::Idle,
        Ok(Phase::Pending) => Holder::Pending,
        Ok(Phase::Done) => Holder::Done,
        Err(Refusal::NotYours) => Holder::Foreign,
        Err(_) => Holder::Stale,
    }
}

/// How far each request is.
pub(super) fn far_all(
    alloc: Global,
    core: &Core,
    list: &[Request],
) -> Result<Vec<Holder>, Refusal> {
    let mut all = Vec::new(alloc);
    for request in list {
        all.push(far(core, request))?;
    }
    Ok(all)
}
