//! Runs of a job that deadlock, and that end, as a search finds them.

use crate::pick::Pick;
use crate::rehearsal::{Pace, Rehearsed, RunOutcome, Turn, rehearse};
use crate::search::{Judged, Search};
use coll_diagnosis::Job;
use coll_kinds::Refusal;
use coll_script::Script;
use std::alloc::Global;

/// How many states a search looks at for each rehearsal.
const STATES_A_REHEARSAL: u32 = 25;

/// Of a job with at least twice as many steps the search looks at fewer states, so that it costs about the same.
const STEPS: usize = 25;

/// Runs that were found, and not replayed yet.
#[derive(Debug, Drop)]
pub(crate) struct Runs {
    pub(crate) stalling: Option<Rehearsed>,
    pub(crate) ending: Option<Rehearsed>,
    /// How many further runs may be rehearsed.
    left: u32,
}

/// Searches for a run that deadlocks, and for one that ends, through `depth` states at most: of a job of 50 steps or more, through
/// fewer.
///
/// # Errors
///
/// `NoMemory`.
pub(crate) fn find_runs(alloc: Global, script: &Script, depth: u32) -> Result<Runs, Refusal> {
    let job = Job::of(alloc, script)?;
    let states = spread(depth, job.step_count());
    let mut runs = Runs {
        stalling: None,
        ending: None,
        left: states / STATES_A_REHEARSAL,
    };
    runs.rehearse(alloc, script, &job, &[])?;
    let mut search = Search::new(alloc, Job::of(alloc, script)?);
    for _ in 0..states {
        if runs.is_over() || !go_on(alloc, script, &job, &mut search, &mut runs)? {
            break;
        }
    }
    if states >= STATES_A_REHEARSAL {
        runs.rehearse_in_steps(alloc, script, &job)?;
    }
    Ok(runs)
}

/// A number for short jobs, made less for one of 50 steps or more.
pub(crate) fn spread(number: u32, steps: usize) -> u32 {
    let parts = u32::try_from(steps / STEPS).unwrap_or(u32::MAX);
    if parts > 1 { number / parts } else { number }
}

/// Looks at a state, rehearses a run if the state promises one that lacks, and makes the next pick. Returns false if none is left.
fn go_on(
    alloc: Global,
    script: &Script,
    job: &Job<'_>,
    search: &mut Search<'_>,
    runs: &mut Runs,
) -> Result<bool, Refusal> {
    let judged = search.judged()?;
    if let Judged::Open(Some((rank, at))) = judged {
        search.branch(rank, at)?;
        return Ok(true);
    }
    if runs.lack(judged) {
        let path = search.path()?;
        runs.rehearse(alloc, script, job, &path)?;
    }
    Ok(search.turn()?)
}

impl Runs {
    /// Whether both were found, or no further run may be rehearsed.
    fn is_over(&self) -> bool {
        self.left == 0 || (self.stalling.is_some() && self.ending.is_some())
    }

    /// Whether picks that are judged so may lead to a run that lacks.
    fn lack(&self, judged: Judged) -> bool {
        match judged {
            Judged::End => self.ending.is_none(),
            Judged::Stall => self.stalling.is_none(),
            Judged::Unreal => false,
            Judged::Open(_) => true,
        }
    }

    /// If no run was found that deadlocks, rehearses runs without a pick in which the engine makes one step at a time.
    fn rehearse_in_steps(
        &mut self,
        alloc: Global,
        script: &Script,
        job: &Job<'_>,
    ) -> Result<(), Refusal> {
        for turn in [Turn::Rising, Turn::Falling] {
            if self.stalling.is_none() {
                self.try_one(alloc, script, job, &[], turn, Pace::Steps)?;
            }
        }
        Ok(())
    }

    /// Rehearses these picks in both orders of the ranks, until a run is found that lacks.
    fn rehearse(
        &mut self,
        alloc: Global,
        script: &Script,
        job: &Job<'_>,
        path: &[Pick],
    ) -> Result<(), Refusal> {
        for turn in [Turn::Rising, Turn::Falling] {
            if self.left == 0 || self.try_one(alloc, script, job, path, turn, Pace::Settles)? {
                break;
            }
        }
        Ok(())
    }

    /// Rehearses these picks once. Returns whether the run lacked.
    fn try_one(
        &mut self,
        alloc: Global,
        script: &Script,
        job: &Job<'_>,
        path: &[Pick],
        turn: Turn,
        pace: Pace,
    ) -> Result<bool, Refusal> {
        self.left = self.left.saturating_sub(1);
        match rehearse(alloc, script, job, path, turn, pace) {
            Ok(run) => Ok(self.keep(run)),
            Err(Refusal::NoMemory) => Err(Refusal::NoMemory),
            // The engine refused a move: there is no such run.
            Err(_) => Ok(false),
        }
    }

    /// Keeps a run if it lacks. Returns whether it did.
    fn keep(&mut self, run: Rehearsed) -> bool {
        match run.outcome {
            RunOutcome::Stalls if self.stalling.is_none() => {
                self.stalling = Some(run);
                true
            }
            RunOutcome::Ends if self.ending.is_none() => {
                self.ending = Some(run);
                true
            }
            _ => false,
        }
    }
}
