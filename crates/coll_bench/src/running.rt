//! Runs a measure: a thread for each rank, which takes samples, and progress threads.

ghost use Rattle.std.specs.Prelude.{◌≡◌, IfOk, vec_len};

use crate::measure::Measure;
use crate::player::play;
use coll_core::Config;
use coll_kinds::Refusal;
use coll_shared::{NoGate, Port, RankProgram, roomy, run_ranks};
use coll_traced::Entries;
use std::alloc::Global;
use std::rt::Clock;
use std::sync::Wait;
use std::thread::Threads;

/// The barriers before the samples. They take some ten milliseconds and more, in which the system gives each thread a processor: threads that
/// have just been started may share one while others are idle.
pub const WARM_UP: u32 = 5_000;

/// How many threads there are.
#[derive(Clone, Copy, Debug)]
pub struct ThreadCounts {
    pub ranks: u8,
    pub workers: u8,
}

/// What is measured, after how many barriers, by how many samples, and how many collectives each sample has.
#[derive(Clone, Copy, Debug)]
pub struct Measurement {
    pub measure: Measure,
    pub warm_up: u32,
    pub samples: u32,
    pub turns: u32,
}

/// The times of one rank's samples, in nanoseconds.
type Times = Result<Vec<u128>, Refusal>;

/// The program of a rank, which takes a task's samples by a clock.
#[derive(Drop)]
struct Sampling<'x, C> {
    clock: &'x C,
    alloc: Global,
    task: Measurement,
}

impl<C: Clock> RankProgram<Times> for Sampling<'_, C> {
    fn run<L: Entries, R: Wait + Clock>(self, rt: &R, port: &mut Port<L>) -> Times {
        let Sampling { clock, alloc, task } = self;
        play(rt, clock, alloc, port, task)
    }
}

/// The configuration of an engine with one communicator of this number of ranks, and so many slots.
pub fn config_for(alloc: Global, ranks: u8, slots: u32) -> Result<Config, Refusal>
    ensures { IfOk result (λ config. config.ranks ≡ ranks) }
{
    let mut all = Vec::new(alloc);
    for rank in 0..ranks {
        all.push(rank)?;
    }
    let mut groups = Vec::new(alloc);
    groups.push(all)?;
    Ok(Config {
        slots,
        ..roomy(ranks, groups)
    })
}

/// The program of each rank.
fn programs<C>(
    clock: &C,
    alloc: Global,
    ranks: u8,
    task: Measurement,
) -> Result<Vec<Sampling<'_, C>>, Refusal>
    ensures { IfOk result (λ all. vec_len all ≡ ranks) }
{
    let mut all = Vec::with_capacity(alloc, usize::from(ranks))?;
    for _rank in 0..ranks {
        all.push(Sampling { clock, alloc, task })?;
    }
    Ok(all)
}

/// Runs a task by threads. Returns the times of the first rank's samples, in nanoseconds.
///
/// # Errors
///
/// `NoMemory` if not all threads could be made; else the refusal with which a progress thread ended; else the engine's first
/// refusal to the first rank.
pub fn run_task<R: Threads + Wait + Clock + Sync>(
    rt: &R,
    alloc: Global,
    threads: ThreadCounts,
    task: Measurement,
) -> Times {
    let ThreadCounts { ranks, workers } = threads;
    let config = config_for(alloc, ranks, task.measure.slots(ranks))?;
    let programs = programs(rt, alloc, ranks, task)?;
    let (mut ends, _report) = run_ranks(rt, alloc, config, workers, &NoGate, programs)?;
    ends.truncate(1);
    ends.pop().unwrap_or(Err(Refusal::Torn))
}
