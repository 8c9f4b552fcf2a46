//! Steps, and handed-out combinations. None of these calls adds an entry.

ghost use Rattle.std.specs.Prelude.{◌≡◌, ◌<◌, ◌↔◌, [], length, IfErr, IfOk, IfSome, IsOkUnless, IsTrue, None, Ok, OnErr, OnOk, is_ok, is_some};
ghost use Rattle.coll_core.specs.declared.stepped.Stepped.TheVariants.{Quiet};
ghost use Rattle.coll_core.specs.Steps.{AwaitsWork, CombinesFirst, CombinesShort, CommitSteps, CommitsOwn, HandsOut, IsOut, IsWork, Returns, Steps, ready};

use crate::tally::Entries;
use crate::traced_core::TracedCore;
use coll_core::{DoneShortWork, DoneWork, ShortWork, Stepped, Work};
use coll_kinds::Refusal;

impl<L: Entries> TracedCore<L> {
    /// The core's `step`.
    ///
    /// # Errors
    ///
    /// NoMemory, with nothing changed.
    pub fn step(&mut self) -> Result<Stepped, Refusal>
        ensures quiet { (result ≡ Ok Quiet) ↔ (ready self.old.core ≡ []) }
        ensures out { IfOk result (λ stepped. IsWork stepped ↔ CombinesFirst self.old.core) }
        ensures steps { IfOk result (Steps self.old.core self.new.core) }
        ensures entries { self.new.entries ≡ self.old.entries }
        ensures waits { (self.new.waits ≡ self.old.waits) × (self.new.stalled ≡ self.old.stalled) }
        ensures err { OnErr result (self.new ≡ self.old) }
        ensures refusal { IsOkUnless result Refusal.NoMemory }
    {
        self.core.step()
    }

    /// The core's `move_on`.
    ///
    /// # Errors
    ///
    /// NoMemory, with nothing changed.
    pub fn move_on(&mut self) -> Result<Stepped, Refusal>
        ensures quiet { IfOk result (λ stepped. (stepped ≡ Quiet) ↔ AwaitsWork self.old.core) }
        ensures inside { IfOk result (λ stepped. IsWork stepped → ⊥) }
        ensures steps { IfOk result (Steps self.old.core self.new.core) }
        ensures entries { self.new.entries ≡ self.old.entries }
        ensures waits { (self.new.waits ≡ self.old.waits) × (self.new.stalled ≡ self.old.stalled) }
        ensures err { OnErr result (self.new ≡ self.old) }
        ensures refusal { IsOkUnless result Refusal.NoMemory }
    {
        self.core.move_on()
    }

    /// The core's `hand_out_short`.
    pub fn hand_out_short(&mut self) -> Option<ShortWork>
        ensures short { IsTrue (is_some result) ↔ CombinesShort self.old.core }
        ensures out { IfSome result (HandsOut self.old.core self.new.core) }
        ensures none { result ≡ None → self.new ≡ self.old }
        ensures entries { self.new.entries ≡ self.old.entries }
        ensures waits { (self.new.waits ≡ self.old.waits) × (self.new.stalled ≡ self.old.stalled) }
    {
        self.core.hand_out_short()
    }

    /// The core's `commit_short`.
    ///
    /// # Errors
    ///
    /// Stale, with nothing changed, unless the combination is out.
    pub fn commit_short(&mut self, done: DoneShortWork) -> Result<Stepped, Refusal>
        ensures out { IsTrue (is_ok result) ↔ IsOut self.old.core done.piece }
        ensures steps { IfOk result (CommitSteps self.old.core self.new.core done) }
        ensures inside { IfOk result (λ stepped. IsWork stepped → ⊥) }
        ensures entries { self.new.entries ≡ self.old.entries }
        ensures waits { (self.new.waits ≡ self.old.waits) × (self.new.stalled ≡ self.old.stalled) }
        ensures err { OnErr result (self.new ≡ self.old) }
        ensures refused { IfErr result (λ why. why ≡ Refusal.Stale) }
    {
        self.core.commit_short(done)
    }

    /// Tells whether a request is ready.
    pub fn is_ready(&self) -> bool
        ensures { IsTrue result ↔ (0 < length (ready self.now.core)) }
    {
        self.core.ready_count() > 0
    }

    /// The core's `commit`.
    ///
    /// # Errors
    ///
    /// Stale, with nothing changed, as the core's.
    pub fn commit(&mut self, done: DoneWork) -> Result<Stepped, Refusal>
        ensures out { IsOut self.old.core done.piece → IsTrue (is_ok result) }
        ensures own { IfOk result (CommitsOwn self.old.core self.new.core done.piece) }
        ensures inside { IfOk result (λ stepped. IsWork stepped → ⊥) }
        ensures steps { IsOut self.old.core done.piece → IfOk result (CommitSteps self.old.core self.new.core done) }
        ensures entries { self.new.entries ≡ self.old.entries }
        ensures waits { (self.new.waits ≡ self.old.waits) × (self.new.stalled ≡ self.old.stalled) }
        ensures err { OnErr result (self.new ≡ self.old) }
        ensures refused { IfErr result (λ why. why ≡ Refusal.Stale) }
    {
        self.core.commit(done)
    }

    /// The core's `abandon`.
    ///
    /// # Errors
    ///
    /// Stale, with nothing changed, unless the combination is out.
    pub fn abandon(&mut self, work: Work) -> Result<(), Refusal>
        ensures out { IsTrue (is_ok result) ↔ IsOut self.old.core work }
        ensures back { OnOk result (Returns self.old.core self.new.core work) }
        ensures entries { self.new.entries ≡ self.old.entries }
        ensures waits { (self.new.waits ≡ self.old.waits) × (self.new.stalled ≡ self.old.stalled) }
        ensures err { OnErr result (self.new ≡ self.old) }
        ensures refused { IfErr result (λ why. why ≡ Refusal.Stale) }
    {
        self.core.abandon(work)
    }
}
