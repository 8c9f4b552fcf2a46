//! Times how far collectives proceed while their ranks compute, by the definition of the Intel MPI Benchmarks (IMB-NBC): of
//! the time that the collective takes alone and the time of the computation, which part is saved.

ghost use Rattle.std.specs.Prelude.{◌≡◌, IfOk, vec_len};

use crate::collective::Collective;
use crate::computing::{Computing, Measured};
use crate::overlapping::{Medians, OverlapTask, Overlapping, Parts};
use crate::running::{ThreadCounts, WARM_UP, config_for};
use coll_kinds::{Kind, Refusal};
use coll_shared::{NoGate, run_ranks};
use std::alloc::Global;
use std::rt::Clock;
use std::sync::Wait;
use std::thread::Threads;

/// The chunks of the samples by which the time of a chunk is found.
const CALIBRATION: u64 = 100;

/// What is timed.
#[derive(Clone, Copy, Debug)]
pub struct Overlap {
    pub collective: Collective,
    pub threads: ThreadCounts,
    pub measured: Measured,
    /// Nanoseconds between two tests of the request; 0: no rank tests.
    pub between_tests: u64,
    /// How long ranks compute, in per cent of the time that the collective takes alone.
    pub percent: u64,
}

/// How many samples are taken. The trace keeps the bytes of each post and each outcome, so long rows have few.
fn samples(collective: Collective) -> u32 {
    match collective.bytes {
        0..=1_024 => 2_000,
        1_025..=131_072 => 200,
        _ => 30,
    }
}

/// The program of each rank.
fn programs<C>(
    clock: &C,
    alloc: Global,
    task: OverlapTask,
) -> Result<Vec<Overlapping<'_, C>>, Refusal>
    ensures { IfOk result (λ all. vec_len all ≡ task.ranks) }
{
    let mut all = Vec::with_capacity(alloc, usize::from(task.ranks))?;
    for _rank in 0..task.ranks {
        all.push(Overlapping { clock, alloc, task })?;
    }
    Ok(all)
}

/// Runs a task by threads. Returns the medians of the slowest rank.
fn run_task<R: Threads + Wait + Clock + Sync>(
    rt: &R,
    alloc: Global,
    workers: u8,
    task: OverlapTask,
) -> Medians {
    let slots = 4 * u32::from(task.ranks);
    let config = config_for(alloc, task.ranks, slots)?;
    let programs = programs(rt, alloc, task)?;
    let (ends, _report) = run_ranks(rt, alloc, config, workers, &NoGate, programs)?;
    let mut slowest = Parts::default();
    for end in ends {
        let parts = end?;
        if parts.total > slowest.total {
            slowest = parts;
        }
    }
    Ok(slowest)
}

/// The task of an overlap whose ranks post, or compute so long, or both.
fn task(overlap: Overlap, posts: bool, computing: Computing) -> OverlapTask {
    OverlapTask {
        collective: overlap.collective,
        ranks: overlap.threads.ranks,
        warm_up: WARM_UP,
        samples: samples(overlap.collective),
        posts,
        computing,
    }
}

/// How long a chunk of work takes where all ranks compute and none posts.
fn chunk_nanoseconds<R: Threads + Wait + Clock + Sync>(
    rt: &R,
    alloc: Global,
    overlap: Overlap,
) -> Result<u64, Refusal> {
    let chunks = Computing::lasting(Measured::Work, CALIBRATION, 0, 1);
    let calibration = OverlapTask {
        samples: 300,
        ..task(overlap, false, chunks)
    };
    let computed = run_task(rt, alloc, overlap.threads.workers, calibration)?;
    Ok(computed.computing.checked_div(CALIBRATION).unwrap_or(0))
}

/// Prints nanoseconds of the slowest rank's medians: `pure`, the collective alone; `alone`, the computation alone; then of both
/// together `post`, `computing`, `wait` and `total`.
///
/// # Errors
///
/// The engine's first refusal.
pub fn time<R: Threads + Wait + Clock + Print + Sync>(
    rt: &R,
    alloc: Global,
    overlap: Overlap,
) -> anyhow::Result<()> {
    let Overlap {
        threads,
        measured,
        between_tests,
        ..
    } = overlap;
    let chunk = chunk_nanoseconds(rt, alloc, overlap)?;
    let nothing = Computing::lasting(measured, 0, 0, chunk);
    let pure = run_task(rt, alloc, threads.workers, task(overlap, true, nothing))?.total;
    let length = pure.saturating_mul(overlap.percent) / 100;
    let computing = Computing::lasting(measured, length, between_tests, chunk);
    let alone = run_task(rt, alloc, threads.workers, task(overlap, false, computing))?.computing;
    let both = run_task(rt, alloc, threads.workers, task(overlap, true, computing))?;
    println!(rt;
        "pure {pure} alone {alone} post {} computing {} wait {} total {}",
        both.post, both.computing, both.wait, both.total
    )?;
    Ok(())
}

/// Runs each collective once among two ranks, which compute and test.
pub fn run<R: Threads + Wait + Clock + Print + Sync>(rt: &R, alloc: Global) -> anyhow::Result<()> {
    for kind in [Kind::Allreduce, Kind::Bcast, Kind::Alltoall, Kind::Barrier] {
        for measured in [Measured::Clock, Measured::Work] {
            let bytes = if kind == Kind::Barrier { 0 } else { 65_536 };
            let collective = Collective { kind, bytes };
            let once = OverlapTask {
                collective,
                ranks: 2,
                warm_up: 0,
                samples: 1,
                posts: true,
                computing: Computing::lasting(measured, 20, 10, 1),
            };
            run_task(rt, alloc, 1, once)?;
            println!(rt; "{collective}, computing by {measured:?}")?;
        }
    }
    Ok(())
}
