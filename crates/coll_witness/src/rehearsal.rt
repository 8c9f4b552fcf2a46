//! A schedule on the engine's core that makes a run's picks. Nothing is proved of it: a run is believed only once it was replayed.

use crate::pick::Pick;
use coll_diagnosis::{Act, Completes, Job, Step};
use coll_kinds::Refusal;
use coll_replay::{Move, Trial};
use coll_script::{Named, Script};
use std::alloc::{AllocError, Global};

/// How many moves a rehearsal may make for each step of the job, besides a thousand.
const MOVES_A_STEP: usize = 200;

/// A rank carried its next line out.
#[derive(Debug, Drop)]
pub(crate) struct Passed {
    pub(crate) rank: u8,
    /// The line; None for the unwritten `waitall`.
    pub(crate) line: Option<u32>,
    /// What the call completed, if that depends on time.
    pub(crate) completes: Option<Vec<usize>>,
}

/// A schedule, what ranks do in it, and what they come to.
#[derive(Debug, Drop)]
pub(crate) struct Rehearsed {
    pub(crate) schedule: Vec<Move>,
    pub(crate) passed: Vec<Passed>,
    pub(crate) outcome: RunOutcome,
}

/// What the ranks of a run come to.
#[derive(Clone, Copy, Debug, PartialEq, Eq)]
pub(crate) enum RunOutcome {
    /// All come to their ends.
    Ends,
    /// Each is at its end or in a call that can't return, not all at their ends.
    Stalls,
    /// Some rank can go on.
    Unfinished,
}

/// The order in which ranks are asked to go on.
#[derive(Clone, Copy, Debug, PartialEq, Eq)]
pub(crate) enum Turn {
    Rising,
    Falling,
}

/// How far the engine goes on once all picks were made and no rank can.
#[derive(Clone, Copy, Debug, PartialEq, Eq)]
pub(crate) enum Pace {
    /// It makes all steps that are ready.
    Settles,
    /// It makes one.
    Steps,
}

/// Lets ranks go on as they pick in the path, and the engine make a step only if no rank can.
///
/// # Errors
///
/// `NoMemory`, and refusals of the engine.
pub(crate) fn rehearse(
    alloc: Global,
    script: &Script,
    job: &Job<'_>,
    path: &[Pick],
    turn: Turn,
    pace: Pace,
) -> Result<Rehearsed, Refusal> {
    let mut rehearsal = Rehearsal {
        alloc,
        job: &*job,
        path,
        pace,
        left: path.len(),
        trial: Trial::open(alloc, script)?,
        passed: Vec::new(alloc),
    };
    let most = job
        .step_count()
        .saturating_mul(MOVES_A_STEP)
        .saturating_add(1000);
    for _ in 0..most {
        if !rehearsal.go_on(turn)? {
            break;
        }
    }
    let outcome = rehearsal.outcome()?;
    let Rehearsal { trial, passed, .. } = rehearsal;
    Ok(Rehearsed {
        schedule: trial.into_schedule(),
        passed,
        outcome,
    })
}

#[derive(Drop)]
struct Rehearsal<'r, 's> {
    alloc: Global,
    job: &'r Job<'r>,
    path: &'r [Pick],
    pace: Pace,
    /// How many picks of the path weren't made.
    left: usize,
    trial: Trial<'s>,
    passed: Vec<Passed>,
}

impl<'r, 's> Rehearsal<'r, 's> {
    /// A rank carries its next line out, one that makes a pick of the path before others; if none can, the engine goes on. Returns
    /// false if nothing can.
    fn go_on(&mut self, turn: Turn) -> Result<bool, Refusal> {
        if self.pass_pick()? || self.pass_other(turn)? {
            return Ok(true);
        }
        self.step()
    }

    fn pass_pick(&mut self) -> Result<bool, Refusal> {
        let path = self.path;
        for pick in path {
            if self.trial.at(pick.rank) == pick.at && self.pass(pick.rank)? {
                self.left = self.left.saturating_sub(1);
                return Ok(true);
            }
        }
        Ok(false)
    }

    /// A rank carries its next line out of which the path says nothing.
    fn pass_other(&mut self, turn: Turn) -> Result<bool, Refusal> {
        let ranks = self.job.ranks;
        for number in 0..ranks {
            let rank = match turn {
                Turn::Rising => number,
                Turn::Falling => ranks - 1 - number,
            };
            if self.wanted(rank).is_none() && self.pass(rank)? {
                return Ok(true);
            }
        }
        Ok(false)
    }

    /// The engine makes a step, or, once all picks were made, perhaps all that are ready. Returns false if it can't.
    fn step(&mut self) -> Result<bool, Refusal> {
        if self.trial.is_quiet() {
            return Ok(false);
        }
        if self.left > 0 || self.pace == Pace::Steps {
            self.trial.make(Move::Step)
        } else {
            self.trial.make(Move::Settle)
        }
    }

    /// A rank carries its next line out, if it can and the path lets it.
    fn pass(&mut self, rank: u8) -> Result<bool, Refusal> {
        let Some(step) = self.next(rank) else {
            return Ok(false);
        };
        let Some(completes) = self.completed(rank, step)? else {
            return Ok(false);
        };
        let next = Move::Line {
            rank,
            takes: taken(&step.act, &completes),
        };
        if !self.trial.make(next)? {
            return Ok(false);
        }
        self.passed.push(Passed {
            rank,
            line: step.line,
            completes: if is_open(&step.act) {
                Some(completes)
            } else {
                None
            },
        })?;
        Ok(true)
    }

    fn next(&self, rank: u8) -> Option<&'r Step> {
        let section = self.job.sections.get(usize::from(rank))?;
        section.steps.get(self.trial.at(rank))
    }

    /// What a step completes if it is made now; None if it can't be made now, or not as the path says.
    fn completed(&self, rank: u8, step: &Step) -> Result<Option<Vec<usize>>, AllocError> {
        if !self.can_return(rank, &step.act)? {
            return Ok(None);
        }
        let Act::Complete { call, requests } = &step.act else {
            return Ok(Some(Vec::new(self.alloc)));
        };
        let done = self.done_among(rank, requests)?;
        match self.wanted(rank) {
            Some(wanted) => self.as_wanted(*call, &done, wanted),
            None => Ok(Some(self.some_of(*call, done)?)),
        }
    }

    /// Whether a call returns now.
    fn can_return(&self, rank: u8, act: &Act) -> Result<bool, AllocError> {
        let Act::Complete { call, requests } = act else {
            return Ok(true);
        };
        let done = self.done_among(rank, requests)?.len();
        let active = self.active_count(rank, requests)?;
        Ok(match call {
            Completes::Test => true,
            Completes::All => done == active,
            Completes::Any | Completes::Some => active == 0 || done > 0,
        })
    }

    /// What the path says of a rank's next step.
    fn wanted(&self, rank: u8) -> Option<&'r Pick> {
        let at = self.trial.at(rank);
        let path = self.path;
        path.iter().find(|pick| pick.rank == rank && pick.at == at)
    }

    /// What the path wants a call to complete, if the call does so now: a `waitany` takes any of those that are done, and other
    /// calls all of them.
    fn as_wanted(
        &self,
        call: Completes,
        done: &[usize],
        wanted: &Pick,
    ) -> Result<Option<Vec<usize>>, AllocError> {
        let has_all = wanted
            .completes
            .iter()
            .all(|request| done.contains(request));
        let is_exact = call == Completes::Any || done.len() == wanted.completes.len();
        if !has_all || !is_exact {
            return Ok(None);
        }
        Ok(Some(Vec::from_slice(self.alloc, &wanted.completes)?))
    }

    /// What a call completes of these if nothing is said of it.
    fn some_of(&self, call: Completes, done: Vec<usize>) -> Result<Vec<usize>, AllocError> {
        if call != Completes::Any {
            return Ok(done);
        }
        let mut one = Vec::new(self.alloc);
        if let Some(first) = done.first() {
            one.push(*first)?;
        }
        Ok(one)
    }

    fn done_among(&self, rank: u8, requests: &Named) -> Result<Vec<usize>, AllocError> {
        let mut done = Vec::new(self.alloc);
        for index in 0..requests.len() {
            let request = requests.get(index);
            if self.trial.is_done(rank, request) && !done.contains(&request) {
                done.push(request)?;
            }
        }
        Ok(done)
    }

    /// How many of these requests are active, each counted once.
    fn active_count(&self, rank: u8, requests: &Named) -> Result<usize, AllocError> {
        let mut active = Vec::new(self.alloc);
        for index in 0..requests.len() {
            let request = requests.get(index);
            if self.trial.is_active(rank, request) && !active.contains(&request) {
                active.push(request)?;
            }
        }
        Ok(active.len())
    }

    /// What the ranks came to.
    fn outcome(&self) -> Result<RunOutcome, AllocError> {
        let mut outcome = RunOutcome::Ends;
        for rank in 0..self.job.ranks {
            if let Some(step) = self.next(rank) {
                if self.can_return(rank, &step.act)? {
                    return Ok(RunOutcome::Unfinished);
                }
                outcome = RunOutcome::Stalls;
            }
        }
        Ok(outcome)
    }
}

/// Whether it depends on time what the call completes.
fn is_open(act: &Act) -> bool {
    match act {
        Act::Complete { call, .. } => call.is_open(),
        Act::Give(_) | Act::Make(_) | Act::Still => false,
    }
}

/// The request that a `waitany` takes which completes these.
fn taken(act: &Act, completes: &[usize]) -> Option<u32> {
    match act {
        Act::Complete {
            call: Completes::Any,
            ..
        } => {
            let first = completes.first()?;
            u32::try_from(*first).ok()
        }
        _ => None,
    }
}
