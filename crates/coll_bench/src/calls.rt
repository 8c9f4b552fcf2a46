//! Runs each kind of collective on the engine's core, among 4 and among 64 members, beside 1 and beside 4,000 pending requests,
//! and prints how many actions it took; with times also those of posts, steps (with their combinations), settling and
//! completions over 100 turns, in nanoseconds a call, or for each action.

use crate::bench::Bench;
use coll_kinds::Kind;
use std::time::Instant;

/// How often each collective is timed.
const TURNS: u32 = 100;

/// Runs each kind.
pub fn run(rt: &HostRuntime, is_timed: bool) -> anyhow::Result<()> {
    let turns = if is_timed { TURNS } else { 1 };
    for kind in Kind::ALL {
        for members in [4, 64] {
            for others in [1, 4_000] {
                show(rt, kind, members, others, turns)?;
            }
        }
    }
    Ok(())
}

/// The time that the calls of some turns took, in nanoseconds.
#[derive(Drop)]
struct Times {
    post: u128,
    step: u128,
    settle: u128,
    retire: u128,
}

/// Prints one line for the kind, the members and the other requests.
fn show(rt: &HostRuntime, kind: Kind, members: u8, others: u32, turns: u32) -> anyhow::Result<()> {
    let mut times = Times {
        post: 0,
        step: 0,
        settle: 0,
        retire: 0,
    };
    let steps = repeat(rt, kind, members, others, turns, &mut times)?;
    if turns == 1 {
        println!(rt; "{kind} {members} {others} {steps}")?;
        return Ok(());
    }
    let calls = u128::from(turns) * u128::from(members) + 1;
    let actions = u128::from(turns) * u128::from(steps) + 1;
    println!(rt;
        "{kind} {members} {others} {steps} post {} step {} settle {} retire {}",
        times.post / calls,
        times.step / actions,
        times.settle / actions,
        times.retire / calls
    )?;
    Ok(())
}

/// Runs this number of turns. Returns how many actions the last one took.
fn repeat(
    rt: &HostRuntime,
    kind: Kind,
    members: u8,
    others: u32,
    turns: u32,
    times: &mut Times,
) -> anyhow::Result<u64> {
    let mut bench = Bench::new(rt.alloc(), kind, members, others)?;
    let mut steps = 0;
    for _turn in 0..turns {
        steps = turn(rt, &mut bench, times)?;
    }
    Ok(steps)
}

/// Posts, steps and completes the collective, and then posts, settles and completes it.
fn turn(rt: &HostRuntime, bench: &mut Bench, times: &mut Times) -> anyhow::Result<u64> {
    times.post = post(rt, bench)?.wrapping_add(times.post);
    let start = Instant::now(rt)?;
    let steps = bench.steps()?;
    times.step = start.elapsed(rt)?.as_nanos().wrapping_add(times.step);
    times.retire = retire(rt, bench)?.wrapping_add(times.retire);
    post(rt, bench)?;
    let start = Instant::now(rt)?;
    bench.settle()?;
    times.settle = start.elapsed(rt)?.as_nanos().wrapping_add(times.settle);
    bench.retire()?;
    Ok(steps)
}

/// Plans the collective and posts it at all members. Returns the nanoseconds of the posts alone.
fn post(rt: &HostRuntime, bench: &mut Bench) -> anyhow::Result<u128> {
    bench.plan()?;
    let start = Instant::now(rt)?;
    bench.post()?;
    Ok(start.elapsed(rt)?.as_nanos())
}

/// Completes all requests. Returns the nanoseconds that this took.
fn retire(rt: &HostRuntime, bench: &mut Bench) -> anyhow::Result<u128> {
    let start = Instant::now(rt)?;
    bench.retire()?;
    Ok(start.elapsed(rt)?.as_nanos())
}
