//! Whether the engine can be closed, and what a close takes out.

ghost use Rattle.std.specs.Prelude.{◌≡◌, ◌<◌, ℕ, IfSome, IsNone, length};
ghost use Rattle.coll_machine.specs.Traces.{LegalTrace};
ghost use Rattle.coll_core.specs.Cores.{seen, setting};
ghost use Rattle.coll_traced.specs.Closings.{AreEnds, IsBalanced, IsFirstBusy, Objects};
ghost use Rattle.coll_report.specs.Told.{IsIdle};

use crate::replacement::Replacement;
use crate::spent::Spent;
use crate::tally::Entries;
use crate::traced_core::TracedCore;
use coll_kinds::Refusal;
use coll_report::Report;
use std::mem;
use std::sync::ledger::Share;

impl<L: Entries> TracedCore<L> {
    /// Returns the number of ranks.
    pub fn ranks(&self) -> u8
        ensures ranks { result ≡ L.setting.ranks }
        ensures setting { setting self.now.core ≡ L.setting }
    {
        self.config.ranks
    }

    /// Returns the lowest rank that has an active request, as the trace shows.
    fn first_busy(&self) -> Option<u8>
        ensures none { IsNone result → IsIdle (seen self.now.core).state }
        ensures balanced { IsNone result → (r : ℕ) → r < L.setting.ranks → IsBalanced r self.now.entries }
        ensures some { IfSome result (IsFirstBusy (seen self.now.core).state) }
    {
        self.trace.first_unbalanced(self.config.ranks)
    }

    /// Returns why the engine can't be closed with these ends of ports, or None. StillActive names
    /// the lowest rank with an active request. Torn means that `ends` aren't the ends of all ports,
    /// or that one made another number of entries than its rank has. They may come in any order.
    pub fn objection(&self, ends: &[Spent<L>]) -> Option<Refusal>
        ensures idle { IsNone result → IsIdle (seen self.now.core).state }
        ensures balanced { IsNone result → (r : ℕ) → r < L.setting.ranks → IsBalanced r self.now.entries }
        ensures ends { IsNone result → AreEnds (setting self.now.core).ranks self.now.entries ends.now }
        ensures refused { IfSome result (Objects self.now ends.now) }
        ensures setting { setting self.now.core ≡ L.setting }
        ensures legal { LegalTrace L.setting self.now.entries (seen self.now.core).state }
    {
        self.keeps_legal();
        let ranks = self.ranks();
        if let Some(rank) = self.first_busy() {
            return Some(Refusal::StillActive { rank });
        }
        if !self.trace.has_ends(ranks, ends) {
            return Some(Refusal::Torn);
        }
        None
    }

    /// Takes the trace, once all shares of the ledger came back, and leaves an engine with an empty
    /// one.
    pub fn take_report(&mut self, replacement: Replacement, all: &mut Share<L>) -> Report
        requires whole { all.old.parts ≡ L.parts }
        requires setting { replacement ≡ L.setting }
        requires idle { IsIdle (seen self.old.core).state }
        ensures setting { result.setting ≡ setting self.old.core }
        ensures entries { result.entries ≡ self.old.entries }
        ensures total { all.old.amount ≡ length self.old.entries }
    {
        let Replacement { config, core } = replacement;
        let entries = self.trace.take(self.alloc, all);
        let config = mem::replace(&mut self.config, config);
        let core = mem::replace(&mut self.core, core);
        Report::new(core, config, entries)
    }
}
