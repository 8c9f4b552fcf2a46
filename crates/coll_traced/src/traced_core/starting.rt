//! Starts and frees of persistent requests.

ghost use Rattle.std.specs.Prelude.{◌≡◌, ◌+◌, ℕ, [], ◌∷◌, ◌++◌, IfErr, IfOk, IfSome, OnErr, OnOk};
ghost use Rattle.std.specs.Result.{result_err};
ghost use Rattle.coll_arena.specs.Slots.{record_in};
ghost use Rattle.coll_machine.specs.Calls.{Free, Nothing, Start};
ghost use Rattle.coll_machine.specs.Entries.{Freed, Started};
ghost use Rattle.coll_machine.specs.Machines.{MachineStep, StepsTo};
ghost use Rattle.coll_machine.specs.Refusals.{refusal};
ghost use Rattle.coll_core.specs.Cores.{seen, setting};
ghost use Rattle.coll_core.specs.Progress.{BeginsSchedule};
ghost use Rattle.coll_core.specs.Requests.{schedule, shown};
ghost use Rattle.coll_traced.specs.Traced.{Denies, Stays};

use crate::prepared::shared;
use crate::tally::{Entries, Tally};
use crate::trace::Receipt;
use crate::traced_core::{TracedCore, live};
use coll_core::Contribution;
use coll_kinds::{Refusal, Refused, Ticket};
use coll_report::Entry;

impl<L: Entries> TracedCore<L> {
    /// Starts a persistent request, as the core's `start` does, and appends its entry. Takes memory
    /// for the completion's entry, too, with the outcome's bytes.
    ///
    /// # Errors
    ///
    /// TraceFull if two more entries would pass the trace's limit; then NoMemory for them; then the
    /// errors of the core's `start`, in its order. The contribution is handed back, and nothing
    /// changes.
    pub fn start(
        &mut self,
        mine: &mut Tally<L>,
        rank: u8,
        ticket: Ticket,
        mut bytes: Contribution,
    ) -> Result<Receipt, Refused<Contribution>>
        ensures setting { setting self.new.core ≡ setting self.old.core }
        ensures waits { (self.new.waits ≡ self.old.waits) × (self.new.stalled ≡ self.old.stalled) }
        ensures starts { OnOk result (StepsTo (setting self.old.core) (seen self.old.core) (Start rank ticket bytes) Nothing (seen self.new.core)) }
        // No request makes progress but this one, which begins its schedule.
        ensures begins { OnOk result
            (IfSome (record_in self.old.core.arena ticket.slot) (λ x. BeginsSchedule self.old.core self.new.core ticket.slot (schedule (shown x)))) }
        ensures entry { IfOk result (λ receipt. self.new.entries ≡ self.old.entries ++ receipt ∷ []) }
        ensures receipt { IfOk result (λ receipt. (start : ℕ) × (receipt ≡ Started rank ticket start bytes)) }
        ensures counted { OnOk result (mine.new ≡ mine.old + 1) }
        ensures back { IfErr result (λ refused. refused.back ≡ bytes) }
        ensures refused { IfErr result (λ refused. Denies self.old (Start rank ticket bytes) refused.why) }
        ensures unchanged { OnErr result (Stays self.old self.new) }
        ensures uncounted { OnErr result (mine.new ≡ mine.old) }
    {
        if let Err(why) = self.trace.make_room(self.config.trace) {
            return Err(Refused { why, back: bytes });
        }
        let given = match shared(self.alloc, &mut bytes) {
            Ok(given) => given,
            Err(why) => return Err(Refused { why, back: bytes }),
        };
        if let Err(refused) = self.core.start(rank, ticket, bytes) {
            return Err(refused);
        }
        let start = live(&self.core, ticket).starts - 1;
        self.recent.remember(&given);
        Ok(
            self.trace.begin(
                mine,
                Entry::Started {
                    rank,
                    ticket,
                    start,
                    bytes: given,
                },
            ),
        )
    }

    /// Frees an inactive persistent request, as the core's `free` does, and appends its entry.
    /// Takes no memory.
    ///
    /// # Errors
    ///
    /// Those of the core's `free`, in its order; nothing changes.
    pub fn free(
        &mut self,
        mine: &mut Tally<L>,
        rank: u8,
        ticket: Ticket,
    ) -> Result<Receipt, Refusal>
        ensures setting { setting self.new.core ≡ setting self.old.core }
        ensures waits { (self.new.waits ≡ self.old.waits) × (self.new.stalled ≡ self.old.stalled) }
        ensures frees { OnOk result (MachineStep (setting self.old.core) (seen self.old.core) (Free rank ticket) Nothing (seen self.new.core)) }
        ensures entry { IfOk result (λ receipt. self.new.entries ≡ self.old.entries ++ receipt ∷ []) }
        ensures receipt { IfOk result (λ receipt. receipt ≡ Freed rank ticket) }
        ensures counted { OnOk result (mine.new ≡ mine.old + 1) }
        ensures refused { result_err result ≡ refusal (setting self.old.core) (seen self.old.core).state (Free rank ticket) }
        ensures err { OnErr result (self.new ≡ self.old) }
        ensures uncounted { OnErr result (mine.new ≡ mine.old) }
    {
        if let Err(why) = self.core.free(rank, ticket) {
            return Err(why);
        }
        Ok(self.trace.end(mine, Entry::Freed { rank, ticket }))
    }
}
