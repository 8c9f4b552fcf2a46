//! What the thread of one rank does.

use crate::measure::Measure;
use crate::running::Measurement;
use coll_complete::Request;
use coll_core::{Contribution, Offer};
use coll_kinds::Refusal;
use coll_shared::{NoGate, Port};
use coll_traced::Entries;
use std::alloc::Global;
use std::rt::Clock;
use std::sync::Wait;
use std::time::Instant;

/// What a rank gives in a turn: other bytes than the other ranks and than in the turn before, as programs do.
fn given<L: Entries>(port: &Port<L>, turn: u32, len: usize) -> Result<Contribution, Refusal> {
    let byte = port.rank().wrapping_add((turn % 256) as u8);
    let mut row = port.alloc_row(len)?;
    row.resize(len, byte)?;
    Ok(Contribution::new(row))
}

/// Plans a measure's collective and posts it on communicator 0.
fn post<L: Entries, R: Wait + Clock>(
    rt: &R,
    alloc: Global,
    port: &mut Port<L>,
    measure: Measure,
    turn: u32,
) -> Result<Request, Refusal> {
    let plan = port.ready_plan(0, &measure.signature())?;
    let bytes = given(port, turn, plan.given_len())?;
    let offer = Offer { plan, bytes };
    match port.post(rt, 0, offer) {
        Ok((request, _receipt)) => Ok(request),
        Err(refused) => Err(refused.why),
    }
}

/// Plans a measure's persistent collective and initialises it on communicator 0.
fn init<L: Entries, R: Wait + Clock>(
    rt: &R,
    port: &mut Port<L>,
    measure: Measure,
) -> Result<Request, Refusal> {
    let plan = port.ready_plan(0, &measure.signature())?;
    match port.init(rt, 0, plan) {
        Ok((request, _receipt)) => Ok(request),
        Err(refused) => Err(refused.why),
    }
}

/// Starts a persistent collective with what the rank gives in a turn.
fn start<L: Entries, R: Wait + Clock>(
    rt: &R,
    port: &mut Port<L>,
    request: &Request,
    bytes: Contribution,
) -> Result<(), Refusal> {
    match port.start(rt, request, bytes) {
        Ok(_receipt) => Ok(()),
        Err(refused) => Err(refused.why),
    }
}

/// Waits for an active request.
fn wait<L: Entries, R: Wait + Clock>(
    rt: &R,
    port: &mut Port<L>,
    request: &mut Request,
) -> Result<(), Refusal> {
    let (outcome, _receipts) = port.wait(rt, &NoGate, request)?;
    if outcome.is_none() {
        return Err(Refusal::Torn);
    }
    Ok(())
}

/// Posts and waits for one collective after the other.
fn one_by_one<L: Entries, R: Wait + Clock>(
    rt: &R,
    alloc: Global,
    port: &mut Port<L>,
    measure: Measure,
    turns: u32,
) -> Result<(), Refusal> {
    for turn in 0..turns {
        let mut request = post(rt, alloc, port, measure, turn)?;
        wait(rt, port, &mut request)?;
    }
    Ok(())
}

/// Posts all collectives, and then waits for all.
fn all_at_once<L: Entries, R: Wait + Clock>(
    rt: &R,
    alloc: Global,
    port: &mut Port<L>,
    measure: Measure,
    turns: u32,
) -> Result<(), Refusal> {
    let mut requests = Vec::with_capacity(alloc, turns as usize)?;
    for turn in 0..turns {
        requests.push(post(rt, alloc, port, measure, turn)?)?;
    }
    for request in requests.iter_mut() {
        wait(rt, port, request)?;
    }
    Ok(())
}

/// Starts and waits for the persistent collective, again and again.
fn again_and_again<L: Entries, R: Wait + Clock>(
    rt: &R,
    alloc: Global,
    port: &mut Port<L>,
    request: &mut Request,
    len: usize,
    turns: u32,
) -> Result<(), Refusal> {
    for turn in 0..turns {
        let bytes = given(port, turn, len)?;
        start(rt, port, request, bytes)?;
        wait(rt, port, request)?;
    }
    Ok(())
}

/// Runs the collectives of one sample. `request` is the persistent one.
fn sample<L: Entries, R: Wait + Clock>(
    rt: &R,
    alloc: Global,
    port: &mut Port<L>,
    measure: Measure,
    request: &mut Request,
    turns: u32,
) -> Result<(), Refusal> {
    match measure {
        Measure::Starts => again_and_again(rt, alloc, port, request, 4, turns),
        Measure::Outstanding => all_at_once(rt, alloc, port, measure, turns),
        _ => one_by_one(rt, alloc, port, measure, turns),
    }
}

/// Takes the samples, and returns the nanoseconds of each.
///
/// # Errors
///
/// The engine's first refusal; `Torn` if the clock can't be read.
pub fn play<L: Entries, R: Wait + Clock, C: Clock>(
    rt: &R,
    clock: &C,
    alloc: Global,
    port: &mut Port<L>,
    task: Measurement,
) -> Result<Vec<u128>, Refusal> {
    let Measurement {
        measure,
        warm_up,
        samples,
        turns,
    } = task;
    one_by_one(rt, alloc, port, Measure::Barrier, warm_up)?;
    let mut request = Request::null();
    if measure == Measure::Starts {
        request = init(rt, port, measure)?;
    }
    let mut times = Vec::with_capacity(alloc, samples as usize)?;
    for _sample in 0..samples {
        let Ok(begin) = Instant::now(clock) else {
            return Err(Refusal::Torn);
        };
        sample(rt, alloc, port, measure, &mut request, turns)?;
        let Ok(time) = begin.elapsed(clock) else {
            return Err(Refusal::Torn);
        };
        times.push(time.as_nanos())?;
    }
    Ok(times)
}
