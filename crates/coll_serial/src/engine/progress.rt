//! Progress: the actions of schedules.

ghost use Rattle.std.specs.Prelude.{◌≡◌, ◌≤◌, ◌<◌, [], if◌then◌else◌, IfOk, IsOkUnless, OnErr, OnOk};
ghost use Rattle.std.specs.Bool.{OnFalse};
ghost use Rattle.coll_core.specs.Cores.{seen, setting};
ghost use Rattle.coll_core.specs.Steps.{Finishings, IsOut, ready};
ghost use Rattle.coll_serial.specs.Progress.{Advances};

use crate::engine::Engine;
use coll_core::{ShortWork, Stepped, Work};
use coll_kinds::Refusal;

impl Engine {
    /// Carries out at most `budget` actions, each of which copies bytes at most once or combines
    /// two rows. Returns how many there were, fewer than `budget` only if none is left to do.
    ///
    /// # Errors
    ///
    /// NoMemory; the actions that were done before stay done.
    pub fn step(&mut self, budget: u32) -> Result<u32, Refusal>
        ensures setting { setting self.new ≡ setting self.old }
        ensures finishes { Finishings (setting self.old) (seen self.old) (seen self.new) }
        ensures within { IfOk result (λ actions. actions ≤ budget) }
        ensures advances { IfOk result (Advances self.old self.new) }
        ensures quiet { IfOk result (λ actions. actions < budget → ready self.new ≡ []) }
        ensures refusal { IsOkUnless result Refusal.NoMemory }
    {
        for actions in 0..budget {
            if !self.advance()? {
                return Ok(actions);
            }
        }
        Ok(budget)
    }

    /// Carries out all actions that can be carried out.
    ///
    /// # Errors
    ///
    /// NoMemory; the actions that were done before stay done.
    pub fn settle(&mut self) -> Result<(), Refusal>
        ensures setting { setting self.new ≡ setting self.old }
        ensures finishes { Finishings (setting self.old) (seen self.old) (seen self.new) }
        ensures quiet { OnOk result (ready self.new ≡ []) }
        ensures refusal { IsOkUnless result Refusal.NoMemory }
    {
        self.core.settle()?;
        Ok(())
    }

    /// Makes one action; false where none can be made.
    fn advance(&mut self) -> Result<bool, Refusal>
        ensures advances { IfOk result (λ acted. Advances self.old self.new (if acted then 1 else 0)) }
        ensures quiet { IfOk result (λ acted. OnFalse acted ((ready self.old ≡ []) × (self.new ≡ self.old))) }
        ensures err { OnErr result ((setting self.new ≡ setting self.old) × (seen self.new ≡ seen self.old)) }
        ensures refusal { IsOkUnless result Refusal.NoMemory }
    {
        match self.core.move_on()? {
            Stepped::Quiet => self.combine_first(),
            Stepped::Moved => Ok(true),
            Stepped::Finished => Ok(true),
            Stepped::Out(_work) => unreachable!(),
        }
    }

    /// Makes one action as `advance` does, where it is a combination or none can be made. A short combination takes no memory.
    fn combine_first(&mut self) -> Result<bool, Refusal>
        ensures advances { IfOk result (λ acted. Advances self.old self.new (if acted then 1 else 0)) }
        ensures quiet { IfOk result (λ acted. OnFalse acted ((ready self.old ≡ []) × (self.new ≡ self.old))) }
        ensures err { OnErr result ((setting self.new ≡ setting self.old) × (seen self.new ≡ seen self.old)) }
        ensures refusal { IsOkUnless result Refusal.NoMemory }
    {
        if let Some(work) = self.core.hand_out_short() {
            self.combine_short(work);
            return Ok(true);
        }
        match self.core.step()? {
            Stepped::Quiet => Ok(false),
            Stepped::Moved => Ok(true),
            Stepped::Finished => Ok(true),
            Stepped::Out(work) => {
                self.combine(work)?;
                Ok(true)
            }
        }
    }

    /// Computes a short combination that was handed out.
    fn combine_short(&mut self, work: ShortWork)
        requires { IsOut self.old work }
        ensures { Advances self.old self.new 1 }
    {
        let Ok(stepped) = self.core.commit_short(work.run()) else {
            unreachable!()
        };
        stepped.has_finished();
    }

    /// Computes a combination that was handed out.
    fn combine(&mut self, work: Work) -> Result<(), Refusal>
        requires { IsOut self.old work }
        ensures advances { OnOk result (Advances self.old self.new 1) }
        ensures err { OnErr result ((setting self.new ≡ setting self.old) × (seen self.new ≡ seen self.old)) }
        ensures refusal { IsOkUnless result Refusal.NoMemory }
    {
        match work.run() {
            Ok(done) => {
                let Ok(stepped) = self.core.commit(done) else {
                    unreachable!()
                };
                stepped.has_finished();
                Ok(())
            }
            Err(refused) => {
                let Ok(()) = self.core.abandon(refused.back) else {
                    unreachable!()
                };
                Err(Refusal::NoMemory)
            }
        }
    }
}
