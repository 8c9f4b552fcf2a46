//! A schedule in the making, tried on a core. Nothing is proved of it: a schedule is believed only once it was replayed.

use crate::completing::phase;
use crate::replaying::{Replay, follow, opened};
use crate::schedule::Move;
use coll_core::Phase;
use coll_kinds::Refusal;
use coll_script::Script;
use std::alloc::Global;

/// A job whose ranks carry their lines out one by one, on an engine of its own.
#[derive(Drop)]
pub struct Trial<'s> {
    alloc: Global,
    script: &'s Script,
    replay: Replay,
    schedule: Vec<Move>,
}

impl<'s> Trial<'s> {
    /// The job before its first call.
    ///
    /// # Errors
    ///
    /// [`Refusal::NoMemory`].
    pub fn open(alloc: Global, script: &'s Script) -> Result<Trial<'s>, Refusal> {
        let replay = opened(alloc, script)?;
        Ok(Trial {
            alloc,
            script,
            replay,
            schedule: Vec::new(alloc),
        })
    }

    /// How many of its lines a rank has carried out.
    pub fn at(&self, rank: u8) -> usize {
        match self.replay.players.get(usize::from(rank)) {
            Some(player) => player.at,
            None => 0,
        }
    }

    /// Whether a request of a rank is active.
    pub fn is_active(&self, rank: u8, q: usize) -> bool {
        matches!(self.phase(rank, q), Some(Phase::Pending | Phase::Done))
    }

    /// Whether a request of a rank can be completed.
    pub fn is_done(&self, rank: u8, q: usize) -> bool {
        matches!(self.phase(rank, q), Some(Phase::Done))
    }

    fn phase(&self, rank: u8, q: usize) -> Option<Phase> {
        let player = self.replay.players.get(usize::from(rank))?;
        match phase(&self.replay.core, rank, &player.held, q) {
            Ok(phase) => phase,
            Err(_) => None,
        }
    }

    /// Whether the engine can't go on.
    pub fn is_quiet(&self) -> bool {
        self.replay.core.quiet()
    }

    /// Makes a move, and notes it. Returns whether it could be made: if it couldn't, the trial is over.
    ///
    /// # Errors
    ///
    /// [`Refusal::NoMemory`], and a refusal of the engine, after which the trial is over.
    pub fn make(&mut self, next: Move) -> Result<bool, Refusal> {
        let groups = self.script.history().groups();
        let is_made = follow(
            self.alloc,
            &mut self.replay.core,
            groups,
            &self.replay.lines,
            &mut self.replay.players,
            next,
        )?;
        if is_made {
            self.schedule.push(next)?;
        }
        Ok(is_made)
    }

    /// The moves that were made.
    pub fn into_schedule(self) -> Vec<Move> {
        self.schedule
    }
}
