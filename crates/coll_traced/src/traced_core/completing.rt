//! Completions.

ghost use Rattle.std.specs.Prelude.{◌≡◌, ◌+◌, [], ◌∷◌, ◌++◌, IfOk, IfSome, IsNone, OnErr};
ghost use Rattle.std.specs.Result.{result_err};
ghost use Rattle.coll_machine.specs.Calls.{Nothing, Retire};
ghost use Rattle.coll_machine.specs.Machines.{MachineStep};
ghost use Rattle.coll_machine.specs.Refusals.{refusal};
ghost use Rattle.coll_core.specs.Cores.{seen, setting};
ghost use Rattle.coll_traced.specs.Outcomes.{outcome_of, retired};

use crate::tally::{Entries, Tally};
use crate::trace::Receipt;
use crate::traced_core::TracedCore;
use coll_core::Outcome;
use coll_kinds::{Refusal, Ticket};
use coll_report::Entry;

impl<L: Entries> TracedCore<L> {
    /// Completes a Done request, as the core's `retire` does, and appends its entry. Returns None,
    /// and changes nothing, if the request isn't Done. Takes no memory.
    ///
    /// # Errors
    ///
    /// Stale if the ticket names no live request, then NotYours if it names another rank's; nothing
    /// changes.
    pub fn retire(
        &mut self,
        mine: &mut Tally<L>,
        rank: u8,
        ticket: Ticket,
    ) -> Result<Option<(Outcome, Receipt)>, Refusal>
        ensures setting { setting self.new.core ≡ setting self.old.core }
        ensures waits { (self.new.waits ≡ self.old.waits) × (self.new.stalled ≡ self.old.stalled) }
        ensures pending { IfOk result
            (λ found. IsNone found → MachineStep (setting self.old.core) (seen self.old.core) (Retire rank ticket) Nothing (seen self.new.core)) }
        ensures completes { IfOk result
            (λ found. IfSome found (λ r. MachineStep (setting self.old.core) (seen self.old.core) (Retire rank ticket) (outcome_of r.0) (seen self.new.core))) }
        ensures entry { IfOk result (λ found. IfSome found (λ r. self.new.entries ≡ self.old.entries ++ r.1 ∷ [])) }
        ensures receipt { IfOk result (λ found. IfSome found (λ r. r.1 ≡ retired rank ticket r.0)) }
        ensures counted { IfOk result (λ found. IfSome found (λ r. mine.new ≡ mine.old + 1)) }
        ensures none { IfOk result (λ found. IsNone found → (self.new ≡ self.old) × (mine.new ≡ mine.old)) }
        ensures refused { result_err result ≡ refusal (setting self.old.core) (seen self.old.core).state (Retire rank ticket) }
        ensures err { OnErr result ((self.new ≡ self.old) × (mine.new ≡ mine.old)) }
    {
        let (outcome, other) = match self.core.retire_shared(rank, ticket) {
            Ok(Some(completed)) => completed,
            Ok(None) => return Ok(None),
            Err(why) => return Err(why),
        };
        let bytes = self.recent.outcome(other);
        let receipt = self.trace.end(
            mine,
            Entry::Retired {
                rank,
                ticket,
                comm: outcome.comm,
                place: outcome.place,
                start: outcome.start,
                bytes,
            },
        );
        Ok(Some((outcome, receipt)))
    }
}
