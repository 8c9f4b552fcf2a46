//! Posts, initialisations, starts and frees.

ghost use Rattle.std.specs.Prelude.{◌≡◌, ◌⊎◌, None, Some, IfErr, IfOk, IfSome, OnErr, OnOk};
ghost use Rattle.std.specs.Result.{result_err};
ghost use Rattle.coll_machine.specs.Runs.{Runs};
ghost use Rattle.coll_machine.specs.Calls.{Post};
ghost use Rattle.coll_plans.specs.Plans.{family};
ghost use Rattle.coll_core.specs.Calls.{Refuses};
ghost use Rattle.coll_core.specs.Cores.{seen, setting};
ghost use Rattle.coll_core.specs.Posts.{planned};
ghost use Rattle.coll_core.specs.Progress.{BeginsSchedule, KeepsProgress};
ghost use Rattle.coll_core.specs.Requests.{schedule, shown};
ghost use Rattle.coll_arena.specs.Slots.{record_in};
ghost use Rattle.coll_complete.specs.Completing.{freeing};
ghost use Rattle.coll_complete.specs.Requests.{free_refusal};
ghost use Rattle.coll_complete.specs.Starting.{StartsAt};
ghost use Rattle.coll_serial.specs.Lengths.{IsLength};
ghost use Rattle.coll_serial.specs.Calls.{Denies, DeniesStart, InitsTo, PostsTo, early_refusal, init_by, planned_for, post_by, schedule_for};

use crate::engine::Engine;
use coll_complete::{Request, request_free};
use coll_core::{Contribution, Offer};
use coll_kinds::{Refusal, Refused, Signature, Ticket};
use coll_plans::{Plan, plan};

/// The bytes that a plan's member gets.
fn outcome_len(plan: &Plan) -> u32
    ensures { IsLength (planned plan.now) result }
{
    let _low = plan.member();
    plan.schedule().output().len
}

impl Engine {
    /// The rank's plan of a collective: one of those that it made last, or a new one.
    fn plan(&mut self, rank: u8, comm: u32, sig: Signature) -> Result<Plan, Refusal>
        ensures same { self.new ≡ self.old }
        ensures plan { IfOk result (λ plan. planned plan ≡ planned_for (setting self.old) rank comm sig) }
        ensures refused { IfErr result (λ why. (early_refusal (setting self.old) rank comm sig ≡ Some why) ⊎ (why ≡ Refusal.NoMemory)) }
    {
        let seat = self.communicators.seat(comm, rank)?;
        match self.plans.get_mut(rank as usize) {
            Some(plans) => plans.plan_of(&sig, seat.size, seat.member),
            None => plan(self.alloc, sig, seat.size, seat.member),
        }
    }

    /// A post by a plan.
    fn post_planned(
        &mut self,
        rank: u8,
        comm: u32,
        plan: Plan,
        bytes: Contribution,
    ) -> Result<Request, Refused<Contribution>>
        ensures setting { setting self.new ≡ setting self.old }
        ensures posted { IfOk result (PostsTo (setting self.old) (seen self.old) (Post rank comm (planned plan) bytes) (seen self.new)) }
        ensures begins { IfOk result (λ made. IfSome made (λ ticket. BeginsSchedule self.old self.new ticket.slot (family plan.sig plan.n plan.member))) }
        ensures refused { IfErr result (λ refused. Refuses (setting self.old) (seen self.old) (Post rank comm (planned plan) bytes) refused.why) }
        ensures back { IfErr result (λ refused. refused.back ≡ bytes) }
        ensures err { OnErr result (seen self.new ≡ seen self.old) }
    {
        let outcome_len = outcome_len(&plan);
        match self.core.post(rank, comm, Offer { plan, bytes }) {
            Ok(ticket) => {
                self.outcome_lengths[ticket.slot as usize] = outcome_len;
                Ok(Request::of(ticket))
            }
            Err(refused) => Err(Refused {
                why: refused.why,
                back: refused.back.bytes,
            }),
        }
    }

    /// Starts a collective (`MPI_Ibcast` and its like; MPI 4.1, 6.12). Copies the rank's
    /// contribution.
    ///
    /// # Errors
    ///
    /// In this order, with nothing changed: BadComm; NotMember; BadSignature; Mismatch if another
    /// member has another signature at the rank's next place; PlacesUsed; BadLength; Full. NoMemory
    /// may come in place of a later one.
    pub fn post(
        &mut self,
        rank: u8,
        comm: u32,
        sig: Signature,
        bytes: &[u8],
    ) -> Result<Request, Refusal>
        ensures setting { setting self.new ≡ setting self.old }
        ensures posted { IfOk result (PostsTo (setting self.old) (seen self.old) (post_by (setting self.old) rank comm sig bytes.now) (seen self.new)) }
        ensures begins { IfOk result
            (λ made. IfSome made (λ ticket. BeginsSchedule self.old self.new ticket.slot (schedule_for (setting self.old) rank comm sig))) }
        ensures refused { IfErr result (Denies (setting self.old) (seen self.old) (post_by (setting self.old) rank comm sig bytes.now)) }
        ensures err { OnErr result (seen self.new ≡ seen self.old) }
    {
        let plan = self.plan(rank, comm, sig)?;
        let bytes = Contribution::copy(self.alloc, bytes)?;
        match self.post_planned(rank, comm, plan, bytes) {
            Ok(made) => Ok(made),
            Err(refused) => Err(refused.why),
        }
    }

    /// `post` with a contribution that was copied before, so that a lock isn't held meanwhile.
    ///
    /// # Errors
    ///
    /// Those of `post`, with the contribution handed back.
    pub fn post_given(
        &mut self,
        rank: u8,
        comm: u32,
        sig: Signature,
        bytes: Contribution,
    ) -> Result<Request, Refused<Contribution>>
        ensures setting { setting self.new ≡ setting self.old }
        ensures posted { IfOk result (PostsTo (setting self.old) (seen self.old) (post_by (setting self.old) rank comm sig bytes) (seen self.new)) }
        ensures begins { IfOk result
            (λ made. IfSome made (λ ticket. BeginsSchedule self.old self.new ticket.slot (schedule_for (setting self.old) rank comm sig))) }
        ensures refused { IfErr result (λ refused. Denies (setting self.old) (seen self.old) (post_by (setting self.old) rank comm sig bytes) refused.why) }
        ensures back { IfErr result (λ refused. refused.back ≡ bytes) }
        ensures err { OnErr result (seen self.new ≡ seen self.old) }
    {
        match self.plan(rank, comm, sig) {
            Ok(plan) => self.post_planned(rank, comm, plan, bytes),
            Err(why) => Err(Refused { why, back: bytes }),
        }
    }

    /// Makes a persistent request, which is Idle (`MPI_Bcast_init` and its like; MPI 4.1, 6.13).
    ///
    /// # Errors
    ///
    /// In this order, with nothing changed: BadComm; NotMember; BadSignature; Mismatch if another
    /// member has another signature at the rank's next place; PlacesUsed; Full. NoMemory may come
    /// in place of a later one.
    pub fn init(&mut self, rank: u8, comm: u32, sig: Signature) -> Result<Request, Refusal>
        ensures setting { setting self.new ≡ setting self.old }
        ensures made { IfOk result (InitsTo (setting self.old) (seen self.old) (init_by (setting self.old) rank comm sig) (seen self.new)) }
        ensures progress { IfOk result (λ made. IfSome made (λ ticket. KeepsProgress self.old self.new ticket.slot)) }
        ensures refused { IfErr result (Denies (setting self.old) (seen self.old) (init_by (setting self.old) rank comm sig)) }
        ensures err { OnErr result (seen self.new ≡ seen self.old) }
    {
        let plan = self.plan(rank, comm, sig)?;
        let outcome_len = outcome_len(&plan);
        match self.core.init(rank, comm, plan) {
            Ok(ticket) => {
                self.outcome_lengths[ticket.slot as usize] = outcome_len;
                Ok(Request::of(ticket))
            }
            Err(refused) => Err(refused.why),
        }
    }

    /// Starts a persistent request (`MPI_Start`; MPI 4.1, 3.9). Copies the rank's contribution.
    ///
    /// # Errors
    ///
    /// In this order, with nothing changed: Stale, also if the request is null; NotYours;
    /// NotPersistent; Active; BadLength; StartsUsed. NoMemory may come in place of any but the
    /// first.
    pub fn start(&mut self, rank: u8, request: &Request, bytes: &[u8]) -> Result<(), Refusal>
        ensures setting { setting self.new ≡ setting self.old }
        ensures starts { OnOk result (StartsAt (setting self.old) rank (seen self.old) (request.now, bytes.now) (seen self.new)) }
        ensures begins { OnOk result
            (IfSome request.now (λ ticket. IfSome (record_in self.old.arena ticket.slot)
            (λ x. BeginsSchedule self.old self.new ticket.slot (schedule (shown x))))) }
        ensures refused { IfErr result (DeniesStart (setting self.old) rank (seen self.old) (request.now, bytes.now)) }
        ensures err { OnErr result (seen self.new ≡ seen self.old) }
    {
        if request.ticket().is_none() {
            return Err(Refusal::Stale);
        }
        let bytes = Contribution::copy(self.alloc, bytes)?;
        match self.start_given(rank, request, bytes) {
            Ok(()) => Ok(()),
            Err(refused) => Err(refused.why),
        }
    }

    /// `start` with a contribution that was copied before, so that a lock isn't held meanwhile.
    ///
    /// # Errors
    ///
    /// Those of `start`, with the contribution handed back.
    pub fn start_given(
        &mut self,
        rank: u8,
        request: &Request,
        bytes: Contribution,
    ) -> Result<(), Refused<Contribution>>
        ensures setting { setting self.new ≡ setting self.old }
        ensures starts { OnOk result (StartsAt (setting self.old) rank (seen self.old) (request.now, bytes) (seen self.new)) }
        ensures begins { OnOk result
            (IfSome request.now (λ ticket. IfSome (record_in self.old.arena ticket.slot)
            (λ x. BeginsSchedule self.old self.new ticket.slot (schedule (shown x))))) }
        ensures refused { IfErr result (λ refused. DeniesStart (setting self.old) rank (seen self.old) (request.now, bytes) refused.why) }
        ensures back { IfErr result (λ refused. refused.back ≡ bytes) }
        ensures err { OnErr result (seen self.new ≡ seen self.old) }
    {
        let Some(ticket) = request.ticket() else {
            return Err(Refused {
                why: Refusal::Stale,
                back: bytes,
            });
        };
        if let Err(refused) = self.core.start(rank, ticket, bytes) {
            return Err(refused);
        }
        Ok(())
    }

    /// Frees an inactive persistent request, and leaves null (`MPI_Request_free`; MPI 4.1, 3.7.3).
    /// Its place in the posting list stays taken. Takes no memory.
    ///
    /// # Errors
    ///
    /// In this order, with nothing changed: Stale, also if the request is null; NotYours;
    /// NotPersistent; Active.
    pub fn free(&mut self, rank: u8, request: &mut Request) -> Result<(), Refusal>
        ensures setting { setting self.new ≡ setting self.old }
        ensures refused { result_err result ≡ free_refusal (setting self.old) (seen self.old).state rank request.old }
        ensures err { OnErr result ((self.new ≡ self.old) × (request.new ≡ request.old)) }
        ensures frees { OnOk result (Runs (setting self.old) (seen self.old) (freeing rank request.old) (seen self.new)) }
        ensures null { OnOk result (request.new ≡ None) }
    {
        request_free(&mut self.core, rank, request)
    }
}
