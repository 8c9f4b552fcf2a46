//! What the thread of one rank does where overlap is timed.

use crate::collective::Collective;
use crate::computing::{Computing, Measured, OwnWords};
use coll_complete::Request;
use coll_core::{Contribution, Offer};
use coll_kinds::{Kind, Refusal};
use coll_shared::{NoGate, Port, RankProgram};
use coll_traced::Entries;
use std::alloc::{AllocError, Global};
use std::rt::Clock;
use std::sync::Wait;
use std::time::Instant;

/// What each rank does, over and over: it posts, computes, and waits.
#[derive(Clone, Copy, Debug)]
pub struct OverlapTask {
    pub collective: Collective,
    pub ranks: u8,
    /// The barriers before the samples.
    pub warm_up: u32,
    pub samples: u32,
    /// Whether it posts and waits; else it only computes.
    pub posts: bool,
    pub computing: Computing,
}

/// Nanoseconds of the parts of one sample, or their medians.
#[derive(Clone, Copy, Debug, Default)]
pub struct Parts {
    pub post: u64,
    pub computing: u64,
    pub wait: u64,
    pub total: u64,
}

/// The program of a rank, which takes a task's samples by a clock.
#[derive(Drop)]
pub struct Overlapping<'x, C> {
    pub clock: &'x C,
    pub alloc: Global,
    pub task: OverlapTask,
}

/// The medians of a rank's samples.
pub type Medians = Result<Parts, Refusal>;

impl<C: Clock> RankProgram<Medians> for Overlapping<'_, C> {
    fn run<L: Entries, R: Wait + Clock>(self, rt: &R, port: &mut Port<L>) -> Medians {
        let Overlapping { clock, alloc, task } = self;
        let mut words = OwnWords::new(alloc)?;
        for _barrier in 0..task.warm_up {
            synchronise(rt, alloc, port)?;
        }
        let mut samples = Samples::new(alloc);
        for turn in 0..task.samples {
            samples.push(sample(rt, clock, alloc, port, task, &mut words, turn)?)?;
        }
        Ok(samples.medians())
    }
}

/// The samples of a rank, by parts.
#[derive(Drop)]
struct Samples {
    post: Vec<u64>,
    computing: Vec<u64>,
    wait: Vec<u64>,
    total: Vec<u64>,
}

impl Samples {
    fn new(alloc: Global) -> Self {
        Samples {
            post: Vec::new(alloc),
            computing: Vec::new(alloc),
            wait: Vec::new(alloc),
            total: Vec::new(alloc),
        }
    }

    fn push(&mut self, parts: Parts) -> Result<(), AllocError> {
        self.post.push(parts.post)?;
        self.computing.push(parts.computing)?;
        self.wait.push(parts.wait)?;
        self.total.push(parts.total)?;
        Ok(())
    }

    fn medians(self) -> Parts {
        let Samples {
            post,
            computing,
            wait,
            total,
        } = self;
        Parts {
            post: median(post),
            computing: median(computing),
            wait: median(wait),
            total: median(total),
        }
    }
}

/// The median; 0 of no times.
fn median(mut times: Vec<u64>) -> u64 {
    times.sort_unstable();
    times.get(times.len() / 2).copied().unwrap_or(0)
}

/// Reads the clock.
fn now<C: Clock>(clock: &C) -> Result<Instant, Refusal> {
    match Instant::now(clock) {
        Ok(time) => Ok(time),
        Err(_) => Err(Refusal::Torn),
    }
}

/// The nanoseconds from one reading of the clock to a later one.
fn between(from: Instant, to: Instant) -> u64 {
    u64::try_from(to.duration_since(from).as_nanos()).unwrap_or(u64::MAX)
}

/// Takes one sample. The rank writes its row before, as a program computes what it gives; that isn't timed.
/// All ranks begin together, because a rank that comes late would be counted as the collective's time.
fn sample<L: Entries, R: Wait + Clock, C: Clock>(
    rt: &R,
    clock: &C,
    alloc: Global,
    port: &mut Port<L>,
    task: OverlapTask,
    words: &mut OwnWords,
    turn: u32,
) -> Result<Parts, Refusal> {
    let len = task.collective.given_len(port.rank(), task.ranks);
    let byte = port.rank().wrapping_add((turn % 256) as u8);
    let row = Contribution::new(vec![in alloc; byte; len]?);
    synchronise(rt, alloc, port)?;
    let begun = now(clock)?;
    let mut request = if task.posts {
        post(rt, port, task.collective, row)?
    } else {
        Request::null()
    };
    let posted = now(clock)?;
    compute(rt, clock, port, task.computing, words, &mut request)?;
    let computed = now(clock)?;
    let (_outcome, _receipts) = port.wait(rt, &NoGate, &mut request)?;
    let ended = now(clock)?;
    Ok(Parts {
        post: between(begun, posted),
        computing: between(posted, computed),
        wait: between(computed, ended),
        total: between(begun, ended),
    })
}

/// Waits until each rank has come here.
fn synchronise<L: Entries, R: Wait + Clock>(
    rt: &R,
    alloc: Global,
    port: &mut Port<L>,
) -> Result<(), Refusal> {
    let barrier = Collective {
        kind: Kind::Barrier,
        bytes: 0,
    };
    let mut request = post(rt, port, barrier, Contribution::new(Vec::new(alloc)))?;
    let (_outcome, _receipts) = port.wait(rt, &NoGate, &mut request)?;
    Ok(())
}

/// Plans the collective and posts it on communicator 0.
fn post<L: Entries, R: Wait + Clock>(
    rt: &R,
    port: &mut Port<L>,
    collective: Collective,
    bytes: Contribution,
) -> Result<Request, Refusal> {
    let plan = port.ready_plan(0, &collective.signature())?;
    match port.post(rt, 0, Offer { plan, bytes }) {
        Ok((request, _receipt)) => Ok(request),
        Err(refused) => Err(refused.why),
    }
}

/// Computes, and tests the request now and then until it is completed.
fn compute<L: Entries, R: Wait + Clock, C: Clock>(
    rt: &R,
    clock: &C,
    port: &mut Port<L>,
    computing: Computing,
    words: &mut OwnWords,
    request: &mut Request,
) -> Result<(), Refusal> {
    let begun = now(clock)?;
    let mut tested = 0;
    for chunk in 0..u64::MAX {
        let done = match computing.measured {
            Measured::Clock => between(begun, now(clock)?),
            Measured::Work => chunk,
        };
        if done >= computing.length {
            break;
        }
        let is_test_due = computing.between_tests > 0
            && done.saturating_sub(tested) >= computing.between_tests;
        if is_test_due && request.ticket().is_some() {
            let (_tested, _receipts) = port.test(rt, request)?;
            tested = done;
        }
        if computing.measured == Measured::Work {
            words.compute();
        }
    }
    Ok(())
}
