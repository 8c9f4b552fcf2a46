//! Times collectives over the ports of a shared engine, a thread for each of 2, 4 and 8 ranks, with 0 and 2 progress threads,
//! and prints the median of the first rank's samples in nanoseconds a collective; or runs each measure once, among 2 ranks, and
//! prints how many samples it gave.

use crate::measure::Measure;
use crate::running::{Measurement, ThreadCounts, WARM_UP, run_task};
use std::alloc::Global;
use std::rt::Clock;
use std::sync::Wait;
use std::thread::Threads;

/// The median of a measure's samples, in nanoseconds a collective.
fn median<R: Threads + Wait + Clock + Sync>(
    rt: &R,
    alloc: Global,
    measure: Measure,
    threads: ThreadCounts,
) -> anyhow::Result<u128> {
    let task = Measurement {
        measure,
        warm_up: WARM_UP,
        samples: measure.samples(),
        turns: measure.turns(threads.ranks),
    };
    let mut times = run_task(rt, alloc, threads, task)?;
    times.sort_unstable();
    let median = times.get(times.len() / 2).copied().unwrap_or(0);
    Ok(median.checked_div(u128::from(task.turns)).unwrap_or(0))
}

/// Prints a row: the median of a measure for each number of ranks and of progress threads.
fn row<R: Threads + Wait + Clock + Print + Sync>(
    rt: &R,
    alloc: Global,
    measure: Measure,
) -> anyhow::Result<()> {
    print!(rt; "{measure}:")?;
    for workers in [0u8, 2] {
        for ranks in [2u8, 4, 8] {
            let median = median(rt, alloc, measure, ThreadCounts { ranks, workers })?;
            print!(rt; " {median}")?;
        }
    }
    println!(rt;)?;
    Ok(())
}

/// Runs a measure's collective once, among two ranks.
fn once<R: Threads + Wait + Clock + Print + Sync>(
    rt: &R,
    alloc: Global,
    measure: Measure,
) -> anyhow::Result<()> {
    let task = Measurement {
        measure,
        warm_up: 0,
        samples: 1,
        turns: 1,
    };
    let threads = ThreadCounts {
        ranks: 2,
        workers: 1,
    };
    let times = run_task(rt, alloc, threads, task)?;
    println!(rt; "{measure}: {} sample", times.len())?;
    Ok(())
}

/// Prints the median of one measure, by its number from 1, without progress threads.
///
/// # Errors
///
/// Where no measure has the number, or there are no such ranks.
pub fn time_one<R: Threads + Wait + Clock + Print + Sync>(
    rt: &R,
    alloc: Global,
    number: usize,
    ranks: u8,
) -> anyhow::Result<()> {
    let Some(measure) = number.checked_sub(1).and_then(|at| Measure::ALL.get(at)) else {
        anyhow::bail!("measures are 1 to {}", Measure::ALL.len());
    };
    anyhow::ensure!((1..=64).contains(&ranks), "ranks are 1 to 64");
    let median = median(rt, alloc, *measure, ThreadCounts { ranks, workers: 0 })?;
    println!(rt; "{median}")?;
    Ok(())
}

/// Runs each measure.
pub fn run<R: Threads + Wait + Clock + Print + Sync>(
    rt: &R,
    alloc: Global,
    is_timed: bool,
) -> anyhow::Result<()> {
    if is_timed {
        println!(rt;
            "median nanoseconds at 2, 4, 8 ranks with no worker, and the same with 2 workers"
        )?;
    }
    for measure in Measure::ALL {
        if is_timed {
            row(rt, alloc, measure)?;
        } else {
            once(rt, alloc, measure)?;
        }
    }
    Ok(())
}
