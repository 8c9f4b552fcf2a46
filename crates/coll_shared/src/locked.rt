//! What the engine's lock guards.

ghost use Rattle.std.specs.Prelude.{◌≡◌, ◌<◌, ◌↔◌, ℕ, Any, IfErr, IfOk, IsTrue, OnOk, false, is_ok, length, true};
ghost use Rattle.std.specs.Bool.{OnFalse, OnTrue};
ghost use Rattle.coll_core.specs.Steps.{IsOut, ready};
ghost use Rattle.coll_traced.specs.Awaiting.{IsSetback};
ghost use Rattle.coll_traced.specs.Ranks.{IsIn};
ghost use Rattle.coll_traced.specs.Stalls.{AreHeldUp, IsStalled, WasStalled};
ghost use Rattle.coll_traced.specs.Waits.{IsMarked};
ghost use Rattle.coll_shared.specs.Successors.{IsSpinning, IsSuccessor};
ghost use Rattle.coll_shared.specs.Writings.{IsUnwanted, Writes, WritesDone};

use coll_core::{DoneShortWork, DoneWork, Stepped, Work};
use coll_kinds::{Refusal, Refused};
use coll_traced::{Entries, Ranks, TracedCore};

/// How many steps a combiner makes in a row before it looks after other ports.
pub(crate) const STEPS: u32 = 64;

/// What the lock guards: the core with its trace, and what is known of threads.
#[derive(Drop)]
pub(crate) struct Locked<L: Entries> {
    pub(crate) traced: TracedCore<L>,
    /// The ranks whose ports sleep, or are about to.
    pub(crate) parked: Ranks,
    /// The ranks whose waiting ports compute a combination.
    pub(crate) away: Ranks,
    /// How many progress threads sleep, or are about to.
    pub(crate) idle: u32,
    /// A request was finished since the registered waits were checked.
    pub(crate) finished: bool,
    /// Progress threads are to end.
    pub(crate) stopped: bool,
    /// A deadlock was reported, and nothing was ready since. The ports that are marked can go on
    /// only by giving their waits up.
    stalled: bool,
    pieces: u64,
}

/// Who goes on with what is ready once the lock is free.
#[derive(Clone, Copy, Debug, PartialEq, Eq)]
pub(crate) enum Successor {
    /// Nobody has to: nothing is ready, or a waiting port will take the lock by itself.
    NotNeeded,
    /// A progress thread that sleeps.
    Worker,
    /// A port that sleeps.
    Port(u8),
    /// There is nobody.
    Nobody,
}

impl<L: Entries> Locked<L> {
    pub(crate) fn new(traced: TracedCore<L>) -> Self {
        Locked {
            traced,
            parked: Ranks::NONE,
            away: Ranks::NONE,
            idle: 0,
            finished: false,
            stopped: false,
            stalled: false,
            pieces: 0,
        }
    }

    /// Makes the steps that need no combination, at most `STEPS` of them. A deadlock that was
    /// reported is over if a request is ready. A step that is refused memory is left to the thread
    /// that makes the next one.
    #[inline(always)]
    pub(crate) fn advance(&mut self)
        ensures over { 0 < length (ready self.old.traced.core) → self.new.stalled ≡ false }
        ensures kept { self.new.stalled ≡ true → self.old.stalled ≡ true }
    {
        if !self.traced.is_ready() {
            return;
        }
        self.stalled = false;
        for _step in 0..STEPS {
            let Ok(stepped) = self.traced.move_on() else {
                return;
            };
            match stepped {
                Stepped::Moved => {}
                Stepped::Finished => self.finished = true,
                Stepped::Quiet => return,
                Stepped::Out(_work) => unreachable!(),
            }
        }
    }

    /// Makes the next step.
    #[inline(always)]
    pub(crate) fn step(&mut self) -> Result<Stepped, Refusal>
        ensures { IfErr result (λ why. why ≡ Refusal.NoMemory) }
    {
        let stepped = self.traced.step();
        if let Ok(Stepped::Finished) = &stepped {
            self.finished = true;
        }
        stepped
    }

    /// Writes the result of a combination. A combination that was refused memory is taken back,
    /// because another thread may compute it.
    pub(crate) fn write(&mut self, computed: Result<DoneWork, Refused<Work>>) -> Result<(), Refusal>
        requires { IfErr computed (λ refused. refused.why ≡ Refusal.NoMemory) }
        ensures written { Writes self.old.traced.core self.new.traced.core computed }
        ensures out { IfOk computed (λ done. IsOut self.old.traced.core done.piece → IsTrue (is_ok result)) }
        ensures refused { IfErr result IsSetback }
        ensures stale { IfErr result (λ why. why ≡ Refusal.Stale → IsUnwanted self.old.traced.core computed) }
    {
        match computed {
            Ok(done) => {
                if self.traced.commit(done)?.has_finished() {
                    self.finished = true;
                }
                Ok(())
            }
            Err(Refused { why, back }) => {
                self.traced.abandon(back)?;
                Err(why)
            }
        }
    }

    /// Writes the result of a short combination.
    pub(crate) fn write_short(&mut self, done: DoneShortWork) -> Result<(), Refusal>
        ensures written { WritesDone self.old.traced.core self.new.traced.core done }
        ensures out { IsTrue (is_ok result) ↔ IsOut self.old.traced.core done.piece }
        ensures refused { IfErr result IsSetback }
    {
        if self.traced.commit_short(done)?.has_finished() {
            self.finished = true;
        }
        Ok(())
    }

    /// Returns the number of the next combination to be handed out. The number saturates.
    pub(crate) fn next_piece(&mut self) -> u64 {
        let piece = self.pieces;
        self.pieces = self.pieces.saturating_add(1);
        piece
    }

    /// Notes that a waiting port begins to compute a combination, or has ended that.
    pub(crate) fn set_away(&mut self, rank: Option<u8>, is_away: bool) {
        if let Some(rank) = rank {
            self.away = self.away.set(rank, is_away);
        }
    }

    /// Tells whether a deadlock was reported while the rank's port waited for what it waits for
    /// now, and nothing has been ready since.
    pub(crate) fn is_stalled(&self, rank: u8) -> bool
        ensures marked { IsTrue result ↔ ((self.now.stalled ≡ true) × IsMarked self.now.traced.waits self.now.traced.stalled rank) }
        ensures told { IsTrue result → WasStalled L.setting rank }
    {
        self.stalled && self.traced.is_stalled(rank)
    }

    /// Marks the waiting ports, if the engine is deadlocked. Returns whether it marked them. A
    /// marked port goes on once it has the lock, so no deadlock is reported again while one is
    /// marked.
    pub(crate) fn tell_stall(&mut self) -> bool
        ensures told { IsTrue result ↔ (IsStalled self.old.traced × (self.old.stalled ≡ true → Any (λ mark. mark ≡ true) self.old.traced.stalled → ⊥)) }
        ensures marked { OnTrue result (AreHeldUp self.new.traced.core self.new.traced.waits self.new.traced.stalled) }
        ensures none { OnFalse result (self.new.traced.stalled ≡ self.old.traced.stalled) }
        ensures stalled { OnTrue result (self.new.stalled ≡ true) }
        ensures waits { self.new.traced.waits ≡ self.old.traced.waits }
        ensures parked { self.new.parked ≡ self.old.parked }
    {
        if self.stalled && self.traced.some_is_marked() {
            return false;
        }
        let is_stalled = self.traced.tell_stall();
        self.stalled = self.stalled || is_stalled;
        is_stalled
    }

    /// Ends the wait of a port.
    pub(crate) fn give_up(&mut self, rank: Option<u8>) {
        if let Some(rank) = rank {
            self.traced.wake(rank);
        }
    }

    /// Returns the ranks whose waiting ports will take the lock by themselves: they neither sleep
    /// nor compute.
    #[tactic(auto, using(crate::proofs::Successors::spinning_are))]
    fn spinning(&self) -> Ranks
        ensures { (rank : ℕ) → IsIn result rank ↔ IsSpinning self.now.traced self.now.parked self.now.away rank }
    {
        self.traced.waiting().but(self.parked).but(self.away)
    }

    /// Returns who goes on if the lock's holder doesn't.
    pub(crate) fn successor(&self) -> Successor
        ensures { IsSuccessor self.now.traced self.now.parked self.now.away self.now.idle result }
    {
        if !self.traced.is_ready() || !self.spinning().is_empty() {
            return Successor::NotNeeded;
        }
        if self.idle > 0 {
            return Successor::Worker;
        }
        match self.parked.lowest() {
            Some(rank) => Successor::Port(rank),
            None => Successor::Nobody,
        }
    }
}
