//! Posts and initialisations.

ghost use Rattle.std.specs.Prelude.{◌≡◌, ◌+◌, ℕ, [], ◌∷◌, ◌++◌, IfErr, IfOk, OnErr, OnOk};
ghost use Rattle.coll_machine.specs.Calls.{Ticketed};
ghost use Rattle.coll_machine.specs.Entries.{Posted, Inited};
ghost use Rattle.coll_machine.specs.Machines.{MachineStep, StepsTo};
ghost use Rattle.coll_core.specs.Cores.{seen, setting};
ghost use Rattle.coll_core.specs.Posts.{init_of, post_of};
ghost use Rattle.coll_core.specs.Progress.{BeginsSchedule, KeepsProgress};
ghost use Rattle.coll_plans.specs.Plans.{family};
ghost use Rattle.coll_traced.specs.Traced.{Denies, Stays};
ghost use Rattle.coll_report.specs.Views.{seen as seen_as};
ghost use Rattle.coll_traced.specs.Places.{IsLast, NamesLast};
ghost use Rattle.coll_traced.specs.Prepared.{IsPreparedFor};

use crate::prepared::Prepared;
use crate::tally::{Entries, Tally};
use crate::trace::{Appended, Receipt};
use crate::traced_core::{TracedCore, live};
use coll_core::Offer;
use coll_kinds::{Refusal, Refused, Ticket};
use coll_plans::Plan;
use coll_report::Entry;

impl<L: Entries> TracedCore<L> {
    /// Returns the last entry's place on its communicator; of a start, the number of the start.
    pub(crate) fn last_place(&self) -> u32
        ensures { NamesLast self.now.entries result }
    {
        self.trace.last_place()
    }

    /// Returns a copy of the trace's last entry.
    pub(crate) fn last(&self, copy: Entry) -> Appended
        requires { IsLast self.now.entries (seen_as copy) }
        ensures { result ≡ seen_as copy }
    {
        self.trace.last(copy)
    }

    /// Starts a collective, as the core's `post` does, and appends its entry. `prepared` is
    /// `Prepared::of` of the offer. It has the schedule's buffer; with room for two entries that is
    /// all memory that the request's entries take.
    ///
    /// # Errors
    ///
    /// TraceFull if two more entries would pass the trace's limit; then NoMemory for them, or for
    /// the buffer; then the errors of the core's `post`, in its order. The offer is handed back,
    /// and nothing changes.
    pub fn post(
        &mut self,
        mine: &mut Tally<L>,
        rank: u8,
        comm: u32,
        offer: Offer,
        prepared: Result<Prepared, Refusal>,
    ) -> Result<(Ticket, Receipt), Refused<Offer>>
        requires prepared { IfOk prepared (IsPreparedFor offer) }
        requires refused { IfErr prepared (λ why. why ≡ Refusal.NoMemory) }
        ensures setting { setting self.new.core ≡ setting self.old.core }
        ensures waits { (self.new.waits ≡ self.old.waits) × (self.new.stalled ≡ self.old.stalled) }
        ensures posted { IfOk result (λ r. StepsTo (setting self.old.core) (seen self.old.core) (post_of rank comm offer) (Ticketed r.0) (seen self.new.core)) }
        // No request makes progress but this one, which begins its schedule.
        ensures begins { IfOk result (λ r. BeginsSchedule self.old.core self.new.core r.0.slot (family offer.plan.sig offer.plan.n offer.plan.member)) }
        ensures entry { IfOk result (λ r. self.new.entries ≡ self.old.entries ++ r.1 ∷ []) }
        ensures receipt { IfOk result (λ r. (place : ℕ) × (r.1 ≡ Posted rank r.0 comm place offer.plan.sig offer.bytes)) }
        ensures counted { OnOk result (mine.new ≡ mine.old + 1) }
        ensures back { IfErr result (λ refused. refused.back ≡ offer) }
        ensures refused { IfErr result (λ refused. Denies self.old (post_of rank comm offer) refused.why) }
        ensures unchanged { OnErr result (Stays self.old self.new) }
        ensures uncounted { OnErr result (mine.new ≡ mine.old) }
    {
        if let Err(why) = self.trace.make_room(self.config.trace) {
            return Err(Refused { why, back: offer });
        }
        let Prepared { bytes, laid } = match prepared {
            Ok(prepared) => prepared,
            Err(why) => return Err(Refused { why, back: offer }),
        };
        let sig = match offer.plan.shared_sig() {
            Ok(sig) => sig,
            Err(why) => return Err(Refused { why, back: offer }),
        };
        let ticket = match self.core.post_laid(rank, comm, offer, Ok(laid)) {
            Ok(ticket) => ticket,
            Err(refused) => return Err(refused),
        };
        let place = live(&self.core, ticket).place;
        self.recent.remember(&bytes);
        let receipt = self.trace.begin(
            mine,
            Entry::Posted {
                rank,
                ticket,
                comm,
                place,
                sig,
                bytes,
            },
        );
        Ok((ticket, receipt))
    }

    /// Makes a persistent request, as the core's `init` does, and appends its entry. Takes memory
    /// for the entry of its free, too.
    ///
    /// # Errors
    ///
    /// TraceFull if two more entries would pass the trace's limit; then NoMemory for them; then the
    /// errors of the core's `init`, in its order. The plan is handed back, and nothing changes.
    pub fn init(
        &mut self,
        mine: &mut Tally<L>,
        rank: u8,
        comm: u32,
        plan: Plan,
    ) -> Result<(Ticket, Receipt), Refused<Plan>>
        ensures setting { setting self.new.core ≡ setting self.old.core }
        ensures waits { (self.new.waits ≡ self.old.waits) × (self.new.stalled ≡ self.old.stalled) }
        ensures made { IfOk result
            (λ r. MachineStep (setting self.old.core) (seen self.old.core) (init_of rank comm plan) (Ticketed r.0) (seen self.new.core)) }
        ensures progress { IfOk result (λ r. KeepsProgress self.old.core self.new.core r.0.slot) }
        ensures entry { IfOk result (λ r. self.new.entries ≡ self.old.entries ++ r.1 ∷ []) }
        ensures receipt { IfOk result (λ r. (place : ℕ) × (r.1 ≡ Inited rank r.0 comm place plan.sig)) }
        ensures counted { OnOk result (mine.new ≡ mine.old + 1) }
        ensures back { IfErr result (λ refused. refused.back ≡ plan) }
        ensures refused { IfErr result (λ refused. Denies self.old (init_of rank comm plan) refused.why) }
        ensures unchanged { OnErr result (Stays self.old self.new) }
        ensures uncounted { OnErr result (mine.new ≡ mine.old) }
    {
        if let Err(why) = self.trace.make_room(self.config.trace) {
            return Err(Refused { why, back: plan });
        }
        let sig = match plan.shared_sig() {
            Ok(sig) => sig,
            Err(why) => return Err(Refused { why, back: plan }),
        };
        let ticket = match self.core.init(rank, comm, plan) {
            Ok(ticket) => ticket,
            Err(refused) => return Err(refused),
        };
        let place = live(&self.core, ticket).place;
        let receipt = self.trace.begin(
            mine,
            Entry::Inited {
                rank,
                ticket,
                comm,
                place,
                sig,
            },
        );
        Ok((ticket, receipt))
    }
}
