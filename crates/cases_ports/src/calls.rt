//! The calls of a port, as the tests make them.

ghost use Rattle.std.specs.Prelude.{◌+◌, ◌≤◌, IfOk, OnOk, length, vec_capacity, vec_len};
ghost use Rattle.coll_complete.specs.Requests.{AreDistinct};

use coll_complete::{Request, are_distinct};
use coll_core::{Contribution, Offer, Outcome};
use coll_kinds::Refusal;
use coll_plans::Plan;
use coll_shared::{Gate, Port};
use coll_traced::Entries;
use std::alloc::Global;
use std::rt::Clock;
use std::sync::Wait;

pub fn post<L: Entries, R: Wait + Clock>(
    rt: &R,
    port: &mut Port<L>,
    comm: u32,
    offer: Offer,
) -> Result<Request, Refusal> {
    match port.post(rt, comm, offer) {
        Ok((request, _receipt)) => Ok(request),
        Err(refused) => Err(refused.why),
    }
}

pub fn init<L: Entries, R: Wait>(
    rt: &R,
    port: &mut Port<L>,
    comm: u32,
    plan: Plan,
) -> Result<Request, Refusal> {
    match port.init(rt, comm, plan) {
        Ok((request, _receipt)) => Ok(request),
        Err(refused) => Err(refused.why),
    }
}

pub fn start<L: Entries, R: Wait + Clock>(
    rt: &R,
    port: &mut Port<L>,
    request: &Request,
    bytes: Contribution,
) -> Result<(), Refusal> {
    match port.start(rt, request, bytes) {
        Ok(_receipt) => Ok(()),
        Err(refused) => Err(refused.why),
    }
}

pub fn free<L: Entries, R: Wait>(
    rt: &R,
    port: &mut Port<L>,
    request: &mut Request,
) -> Result<(), Refusal> {
    port.free(rt, request)?;
    Ok(())
}

pub fn test<L: Entries, R: Wait>(
    rt: &R,
    port: &mut Port<L>,
    request: &mut Request,
) -> Result<Option<Outcome>, Refusal> {
    let (tested, _receipts) = port.test(rt, request)?;
    Ok(tested.outcome)
}

pub fn wait<L: Entries, R: Wait + Clock, G: Gate>(
    rt: &R,
    gate: &G,
    port: &mut Port<L>,
    request: &mut Request,
) -> Result<Option<Outcome>, Refusal> {
    let (outcome, _receipts) = port.wait(rt, gate, request)?;
    Ok(outcome)
}

/// A list with room for the outcomes of a list; `Torn` if a request stands in it twice.
pub fn room_for(alloc: Global, list: &[Request]) -> Result<Vec<(usize, Outcome)>, Refusal>
    ensures distinct { OnOk result (AreDistinct list.now) }
    ensures room { IfOk result (λ out. vec_len out + length list.now ≤ vec_capacity out) }
{
    if !are_distinct(list) {
        return Err(Refusal::Torn);
    }
    Ok(Vec::with_capacity(alloc, list.len())?)
}
