//! Combinations that are computed outside the engine.

ghost use Rattle.std.specs.Prelude.{◌≡◌, ◌↔◌, [], IfErr, IfNone, IfOk, IfSome, IsOkUnless, IsTrue, OnErr, OnOk, if◌then◌else◌, is_ok};
ghost use Rattle.coll_core.specs.declared.stepped.Stepped.{Stepped as How};
ghost use Rattle.coll_core.specs.declared.stepped.Stepped.TheVariants.{Quiet};
ghost use Rattle.coll_core.specs.Cores.{seen, setting};
ghost use Rattle.coll_core.specs.Steps.{CommitsOwn, Finishings, IsOut, Steps, ready, running};
ghost use Rattle.coll_serial.specs.Combinations.{IsHandedOut, IsOutside, TakesBack, is_computed, is_due, piece_of};
ghost use Rattle.coll_serial.specs.Progress.{Advances};

use crate::combination::{Combination, Stage};
use crate::engine::Engine;
use coll_core::{DoneWork, Stepped};
use coll_kinds::Refusal;

impl Engine {
    /// Carries out actions until the next one is a combination, and hands that out; None if no
    /// action can be carried out any more. The combination's request goes on once the combination
    /// is taken back. Until then steps and settling pass it by.
    ///
    /// # Errors
    ///
    /// NoMemory; the actions that were done before stay done, and no combination is lost.
    pub fn hand_out(&mut self) -> Result<Option<Combination>, Refusal>
        ensures setting { setting self.new ≡ setting self.old }
        ensures finishes { Finishings (setting self.old) (seen self.old) (seen self.new) }
        ensures out { IfOk result (λ found. IfSome found (IsHandedOut self.new)) }
        ensures quiet { IfOk result (λ found. IfNone found ((ready self.new ≡ []) × (running self.new ≡ running self.old))) }
        ensures err { OnErr result (running self.new ≡ running self.old) }
        ensures refusal { IsOkUnless result Refusal.NoMemory }
    {
        loop {
            match self.act()? {
                Stepped::Quiet => return Ok(None),
                Stepped::Moved => {}
                Stepped::Finished => {}
                Stepped::Out(work) => return Ok(Some(Combination::due(work))),
            }
        }
    }

    /// One step of the core.
    fn act(&mut self) -> Result<Stepped, Refusal>
        ensures steps { IfOk result (Steps self.old self.new) }
        ensures quiet { IfOk result (λ stepped. stepped ≡ Quiet → ready self.old ≡ []) }
        ensures err { OnErr result (self.new ≡ self.old) }
        ensures refusal { IsOkUnless result Refusal.NoMemory }
    {
        self.core.step()
    }

    /// Takes a combination back. If it was computed, its request goes on with the result. If not,
    /// its request becomes the first ready one, and the combination is handed out, or computed,
    /// again.
    ///
    /// # Errors
    ///
    /// Stale, with nothing changed, unless this engine handed the combination out and didn't take it
    /// back, or another engine's has the same action and operands. The combination is dropped.
    pub fn take_back(&mut self, combination: Combination) -> Result<(), Refusal>
        ensures out { IsOutside self.old (piece_of combination) → IsTrue (is_ok result) }
        ensures due { IsTrue (is_due combination) → IsTrue (is_ok result) → IsOutside self.old (piece_of combination) }
        ensures back { OnOk result (TakesBack self.old self.new combination) }
        ensures advances { OnOk result (Advances self.old self.new (if is_computed combination then 1 else 0)) }
        ensures err { OnErr result (self.new ≡ self.old) }
        ensures refused { IfErr result (λ why. why ≡ Refusal.Stale) }
    {
        match combination.into_stage() {
            None => Err(Refusal::Stale),
            Some(Stage::Due(work)) => self.core.abandon(work),
            Some(Stage::Computed(done)) => self.commit(done),
        }
    }

    /// Takes back one that was computed.
    fn commit(&mut self, done: DoneWork) -> Result<(), Refusal>
        ensures out { IsOut self.old done.piece → IsTrue (is_ok result) }
        ensures commits { OnOk result ((stepped : How) × CommitsOwn self.old self.new done.piece stepped) }
        ensures advances { OnOk result (Advances self.old self.new 1) }
        ensures err { OnErr result (self.new ≡ self.old) }
        ensures refused { IfErr result (λ why. why ≡ Refusal.Stale) }
    {
        match self.core.commit(done) {
            Ok(stepped) => {
                stepped.has_finished();
                Ok(())
            }
            Err(why) => Err(why),
        }
    }
}
