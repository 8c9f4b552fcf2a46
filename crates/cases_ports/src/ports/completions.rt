//! The completion calls of a port, each with its answer. They have no contracts: rows compare the answers.

use crate::calls::room_for;
use crate::ports::answer::PortAnswer;
use crate::ports::noted::{OutcomeBytes, Outcomes};
use coll_complete::{Any, Request};
use coll_kinds::Refusal;
use coll_shared::{NoGate, Port};
use coll_traced::Entries;
use std::alloc::Global;
use std::rt::Clock;
use std::sync::Wait;

/// Tests a request, which stands at that position of its list.
pub fn test<L: Entries, R: Wait>(
    rt: &R,
    port: &mut Port<L>,
    at: usize,
    request: &mut Request,
) -> Result<PortAnswer, Refusal> {
    let (tested, _receipts) = port.test(rt, request)?;
    let noted = Outcomes::of_one(at, tested.outcome.as_ref());
    Ok(PortAnswer::Flag(tested.flag, noted))
}

pub fn test_any<L: Entries, R: Wait>(
    rt: &R,
    port: &mut Port<L>,
    list: &mut [Request],
) -> Result<PortAnswer, Refusal> {
    let (any, _receipts) = port.test_any(rt, list)?;
    Ok(match any {
        Any::Undefined => PortAnswer::Undefined,
        Any::Unfinished => PortAnswer::Unfinished,
        Any::At(position, outcome) => PortAnswer::At(position, OutcomeBytes::of(&outcome)),
    })
}

pub fn wait_any<L: Entries, R: Wait + Clock>(
    rt: &R,
    port: &mut Port<L>,
    list: &mut [Request],
) -> Result<PortAnswer, Refusal> {
    let (found, _receipts) = port.wait_any(rt, &NoGate, list)?;
    Ok(match found {
        Some((position, outcome)) => PortAnswer::At(position, OutcomeBytes::of(&outcome)),
        None => PortAnswer::Undefined,
    })
}

pub fn test_all<L: Entries, R: Wait>(
    rt: &R,
    alloc: Global,
    port: &mut Port<L>,
    list: &mut [Request],
) -> Result<PortAnswer, Refusal> {
    let mut out = room_for(alloc, list)?;
    let (flag, _receipts) = port.test_all(rt, list, &mut out)?;
    Ok(PortAnswer::Flag(flag, Outcomes::of(&out)))
}

pub fn wait_all<L: Entries, R: Wait + Clock>(
    rt: &R,
    alloc: Global,
    port: &mut Port<L>,
    list: &mut [Request],
) -> Result<PortAnswer, Refusal> {
    let mut out = room_for(alloc, list)?;
    let _receipts = port.wait_all(rt, &NoGate, list, &mut out)?;
    Ok(PortAnswer::Flag(true, Outcomes::of(&out)))
}

pub fn test_some<L: Entries, R: Wait>(
    rt: &R,
    alloc: Global,
    port: &mut Port<L>,
    list: &mut [Request],
) -> Result<PortAnswer, Refusal> {
    let mut out = room_for(alloc, list)?;
    let (count, _receipts) = port.test_some(rt, list, &mut out)?;
    Ok(PortAnswer::Count(count, Outcomes::of(&out)))
}

pub fn wait_some<L: Entries, R: Wait + Clock>(
    rt: &R,
    alloc: Global,
    port: &mut Port<L>,
    list: &mut [Request],
) -> Result<PortAnswer, Refusal> {
    let mut out = room_for(alloc, list)?;
    let (count, _receipts) = port.wait_some(rt, &NoGate, list, &mut out)?;
    Ok(PortAnswer::Count(count, Outcomes::of(&out)))
}
