//! Posts and initialisations.

ghost use Rattle.std.specs.Prelude.{◌≡◌, ◌<◌, ◌^◌, length, None, IsOk, IsErrOf, MatchOption, OnOk, OnErr, IfOk, IfErr};
ghost use Rattle.std.specs.Arc.{arc_value};
ghost use Rattle.std.specs.Result.{result_err};
ghost use Rattle.coll_kinds.specs.Checks.{broken};
ghost use Rattle.coll_kinds.specs.Elements.{AreBytes};
ghost use Rattle.coll_kinds.specs.Lengths.{given_len};
ghost use Rattle.coll_machine.specs.Calls.{Ticketed};
ghost use Rattle.coll_machine.specs.Machines.{MachineStep, StepsTo};
ghost use Rattle.coll_machine.specs.Refusals.{first_of, plan_refusals};
ghost use Rattle.coll_machine.specs.Settings.{size};
ghost use Rattle.coll_match.specs.Instances as instances;
ghost use Rattle.coll_plans.specs.Plans.{family, IsPlanned};
ghost use Rattle.coll_queues.specs.Postings.{HasRoom};
ghost use Rattle.coll_queues.specs.Refusing.{member_refusal};
ghost use Rattle.coll_sched.specs.Families.{laid_in};
ghost use Rattle.coll_refinement.specs.Engines.{entry_refusals};
ghost use Rattle.coll_core.specs.Calls.{Refuses};
ghost use Rattle.coll_core.specs.Cores.{seen, setting, Unchanged};
ghost use Rattle.coll_core.specs.Progress.{BeginsSchedule, KeepsProgress};
ghost use Rattle.coll_core.specs.Posts.{init_of, next_instance, planned, post_of, refused_in, IsLaid, IsRoomy};

use crate::buffer::{Buffer, Laid};
use crate::engine::Core;
use crate::offer::Offer;
use crate::request::Request;
use coll_arena::laws::is_sound;
use coll_arena::{ListName, Ticket};
use coll_kinds::laws::lengths_are_small;
use coll_kinds::{Mode, Refusal, Refused, Signature, SignatureFault};
use coll_match::Key;
use coll_plans::Plan;
use std::sync::Arc;

/// Checks the signature among `size` members. It was already checked for the plan's own number of
/// members when the plan was made.
fn check(plan: &Plan, size: u8) -> Result<(), Refusal>
    ensures { MatchOption (broken plan.now.sig size) (IsOk result) (λ cause. IsErrOf result (Refusal.BadSignature cause)) }
{
    let sig = plan.sig();
    if plan.n() == size {
        return Ok(());
    }
    sig.check(size)
}

/// Checks the signature among `size` members, and that the plan is for this mode and this member.
fn fits(plan: &Plan, size: u8, member: u8, mode: Mode) -> Result<(), Refusal>
    ensures { result_err result ≡ first_of (plan_refusals (planned plan.now) size member mode) }
{
    check(plan, size)?;
    if plan.sig().mode != mode {
        return Err(Refusal::BadSignature {
            cause: SignatureFault::Mode,
        });
    }
    if plan.n() != size || plan.member() != member {
        return Err(Refusal::BadSignature {
            cause: SignatureFault::Group,
        });
    }
    Ok(())
}

/// Returns the number of bytes that the plan's member gives.
fn want(plan: &Plan) -> u32
    ensures { result ≡ given_len plan.now.sig plan.now.n plan.now.member }
{
    lengths_are_small();
    plan.sig().given_len(plan.n(), plan.member()) as u32
}

/// States that a plan's family serves its signature. Does nothing at run time.
fn is_planned(plan: &Plan)
    ensures { IsPlanned plan.now.sig plan.now.n (family plan.now.sig plan.now.n) }
{
    let _schedule = plan.schedule();
}

/// States that each byte is below 256. Does nothing at run time.
fn are_bytes(bytes: &[u8])
    ensures { AreBytes bytes.now }
{
    let _bytes = bytes;
}

impl Core {
    /// Starts a collective (`MPI_Ibcast` and its like; MPI 4.1, 6.12).
    ///
    /// # Errors
    ///
    /// In this order, with the offer handed back and nothing changed: BadComm; NotMember;
    /// BadSignature; Mismatch if another member has another signature at the rank's next place;
    /// PlacesUsed; BadLength; Full; NoMemory.
    pub fn post(&mut self, rank: u8, comm: u32, mut offer: Offer) -> Result<Ticket, Refused<Offer>>
        ensures setting { setting self.new ≡ setting self.old }
        ensures posted { IfOk result (λ ticket. StepsTo (setting self.old) (seen self.old) (post_of rank comm offer) (Ticketed ticket) (seen self.new)) }
        ensures begins { IfOk result (λ ticket. BeginsSchedule self.old self.new ticket.slot (family offer.plan.sig offer.plan.n offer.plan.member)) }
        ensures back { IfErr result (λ refused. refused.back ≡ offer) }
        ensures refused { IfErr result (λ refused. Refuses (setting self.old) (seen self.old) (post_of rank comm offer) refused.why) }
        ensures unchanged { OnErr result (Unchanged self.old self.new) }
    {
        if let Err(why) = self.may_post(rank, comm, &offer) {
            return Err(Refused { why, back: offer });
        }
        let laid = offer.lay_in(self.alloc);
        self.post_tested(rank, comm, offer, laid)
    }

    /// `post` with a schedule's buffer that was made before: `laid` is `Offer::lay_in` of the
    /// offer.
    ///
    /// # Errors
    ///
    /// As `post`.
    pub fn post_laid(
        &mut self,
        rank: u8,
        comm: u32,
        offer: Offer,
        laid: Result<Laid, Refusal>,
    ) -> Result<Ticket, Refused<Offer>>
        requires laid { IfOk laid (λ buffer. IsLaid offer buffer) }
        requires short { IfErr laid (λ why. why ≡ Refusal.NoMemory) }
        ensures setting { setting self.new ≡ setting self.old }
        ensures posted { IfOk result (λ ticket. StepsTo (setting self.old) (seen self.old) (post_of rank comm offer) (Ticketed ticket) (seen self.new)) }
        ensures begins { IfOk result (λ ticket. BeginsSchedule self.old self.new ticket.slot (family offer.plan.sig offer.plan.n offer.plan.member)) }
        ensures short { OnOk result (length offer.bytes < 2 ^ 32) }
        ensures back { IfErr result (λ refused. refused.back ≡ offer) }
        ensures refused { IfErr result (λ refused. Refuses (setting self.old) (seen self.old) (post_of rank comm offer) refused.why) }
        ensures unchanged { OnErr result (Unchanged self.old self.new) }
    {
        if let Err(why) = self.may_post(rank, comm, &offer) {
            return Err(Refused { why, back: offer });
        }
        self.post_tested(rank, comm, offer, laid)
    }

    /// Carries out a post whose preconditions hold. The only refusal is NoMemory.
    fn post_tested(
        &mut self,
        rank: u8,
        comm: u32,
        offer: Offer,
        laid: Result<Laid, Refusal>,
    ) -> Result<Ticket, Refused<Offer>>
        requires accepted { refused_in self.old (post_of rank comm offer) ≡ None }
        requires laid { IfOk laid (λ buffer. IsLaid offer buffer) }
        requires short { IfErr laid (λ why. why ≡ Refusal.NoMemory) }
        ensures setting { setting self.new ≡ setting self.old }
        ensures posted { IfOk result (λ ticket. StepsTo (setting self.old) (seen self.old) (post_of rank comm offer) (Ticketed ticket) (seen self.new)) }
        ensures begins { IfOk result (λ ticket. BeginsSchedule self.old self.new ticket.slot (family offer.plan.sig offer.plan.n offer.plan.member)) }
        ensures back { IfErr result (λ refused. refused.back ≡ offer) }
        ensures refused { IfErr result (λ refused. Refuses (setting self.old) (seen self.old) (post_of rank comm offer) refused.why) }
        ensures unchanged { OnErr result (Unchanged self.old self.new) }
    {
        let (sig, buffer) = match self.make_room(rank, comm, &offer, laid) {
            Ok(room) => room,
            Err(why) => return Err(Refused { why, back: offer }),
        };
        Ok(self.enter(rank, comm, offer, sig, buffer))
    }

    /// Makes a persistent request, which is Idle (`MPI_Bcast_init` and its like; MPI 4.1, 6.13).
    ///
    /// # Errors
    ///
    /// In this order, with the plan handed back and nothing changed: BadComm; NotMember;
    /// BadSignature; Mismatch if another member has another signature at the rank's next place;
    /// PlacesUsed; Full; NoMemory.
    pub fn init(&mut self, rank: u8, comm: u32, plan: Plan) -> Result<Ticket, Refused<Plan>>
        ensures setting { setting self.new ≡ setting self.old }
        ensures made { IfOk result (λ ticket. MachineStep (setting self.old) (seen self.old) (init_of rank comm plan) (Ticketed ticket) (seen self.new)) }
        ensures progress { IfOk result (λ ticket. KeepsProgress self.old self.new ticket.slot) }
        ensures back { IfErr result (λ refused. refused.back ≡ plan) }
        ensures refused { IfErr result (λ refused. Refuses (setting self.old) (seen self.old) (init_of rank comm plan) refused.why) }
        ensures unchanged { OnErr result (Unchanged self.old self.new) }
    {
        if let Err(why) = self.may_init(rank, comm, &plan) {
            return Err(Refused { why, back: plan });
        }
        let sig = match self.make_idle_room(rank, comm, &plan) {
            Ok(sig) => sig,
            Err(why) => return Err(Refused { why, back: plan }),
        };
        Ok(self.lay_down(rank, comm, plan, sig))
    }

    /// Checks whether a plan may enter the rank's posting list.
    fn may_enter(&self, rank: u8, comm: u32, plan: &Plan, mode: Mode) -> Result<(), Refusal>
        ensures { result_err result ≡ first_of (entry_refusals self.now.queues rank comm mode (planned plan.now)) }
    {
        let member = self.queues.member(comm, rank)?;
        fits(plan, self.queues.size(comm), member, mode)?;
        self.queues.judge_checked(comm, member, plan.sig())?;
        Ok(())
    }

    /// Checks every precondition of a post but memory.
    fn may_post(&self, rank: u8, comm: u32, offer: &Offer) -> Result<(), Refusal>
        ensures refused { result_err result ≡ refused_in self.now (post_of rank comm offer.now) }
        ensures short { OnOk result (length offer.now.bytes < 2 ^ 32) }
    {
        is_sound(&self.arena);
        self.may_enter(rank, comm, &offer.plan, Mode::Once)?;
        let want = want(&offer.plan);
        let got = offer.bytes.len();
        if got != want as usize {
            return Err(Refusal::BadLength { want, got });
        }
        if !self.arena.has_free() {
            return Err(Refusal::Full);
        }
        Ok(())
    }

    /// Checks every precondition of an initialisation but memory.
    fn may_init(&self, rank: u8, comm: u32, plan: &Plan) -> Result<(), Refusal>
        ensures { result_err result ≡ refused_in self.now (init_of rank comm plan.now) }
    {
        is_sound(&self.arena);
        self.may_enter(rank, comm, plan, Mode::Persistent)?;
        if !self.arena.has_free() {
            return Err(Refusal::Full);
        }
        Ok(())
    }

    /// Makes room for one more signature in the rank's posting list.
    #[inline(always)]
    fn make_place(&mut self, rank: u8, comm: u32) -> Result<(), Refusal>
        requires { member_refusal self.old.queues comm rank ≡ None }
        ensures unchanged { Unchanged self.old self.new }
        ensures room { OnOk result (HasRoom self.new.queues comm rank) }
        ensures refused { IfErr result (λ why. why ≡ Refusal.NoMemory) }
    {
        self.queues.room(comm, rank)
    }

    /// Makes room for what the members of a communicator give to one collective.
    #[inline(always)]
    pub(crate) fn make_instance(&mut self, key: Key, n: u8) -> Result<(), Refusal>
        requires { n ≡ size (setting self.old) key.comm }
        ensures unchanged { Unchanged self.old self.new }
        ensures arena { self.new.arena ≡ self.old.arena }
        ensures queues { self.new.queues ≡ self.old.queues }
        ensures room { OnOk result (n ≡ instances.size self.new.matches key) }
        ensures refused { IfErr result (λ why. why ≡ Refusal.NoMemory) }
    {
        self.matches.room(key, n)
    }

    /// Makes room for everything that a post takes beside the schedule's buffer. Returns the
    /// signature for the posting list, and the buffer.
    fn make_room(
        &mut self,
        rank: u8,
        comm: u32,
        offer: &Offer,
        laid: Result<Laid, Refusal>,
    ) -> Result<(Arc<Signature>, Buffer), Refusal>
        requires accepted { refused_in self.old (post_of rank comm offer.now) ≡ None }
        requires laid { IfOk laid (λ buffer. IsLaid offer.now buffer) }
        requires short { IfErr laid (λ why. why ≡ Refusal.NoMemory) }
        ensures unchanged { Unchanged self.old self.new }
        ensures room { OnOk result (IsRoomy self.new rank comm offer.now.plan) }
        ensures sig { IfOk result (λ r. arc_value r.0 ≡ offer.now.plan.sig) }
        ensures buffer { IfOk result (λ r. r.1 ≡ laid_in (family offer.now.plan.sig offer.now.plan.n offer.now.plan.member) offer.now.bytes) }
        ensures refused { IfErr result (λ why. why ≡ Refusal.NoMemory) }
    {
        is_sound(&self.arena);
        is_planned(&offer.plan);
        let bare = laid?;
        let buffer = bare.furnished(self.alloc, &self.blocks)?;
        self.make_place(rank, comm)?;
        let key = Key {
            comm,
            place: self.queues.place_of(comm, rank),
            start: 0,
        };
        self.make_instance(key, offer.plan.n())?;
        let sig = offer.plan.shared_sig()?;
        Ok((sig, buffer))
    }

    /// Makes room for everything that an initialisation takes. Returns the signature for the
    /// posting list.
    fn make_idle_room(
        &mut self,
        rank: u8,
        comm: u32,
        plan: &Plan,
    ) -> Result<Arc<Signature>, Refusal>
        requires { refused_in self.old (init_of rank comm plan.now) ≡ None }
        ensures unchanged { Unchanged self.old self.new }
        ensures room { OnOk result (HasRoom self.new.queues comm rank) }
        ensures sig { IfOk result (λ sig. arc_value sig ≡ plan.now.sig) }
        ensures refused { IfErr result (λ why. why ≡ Refusal.NoMemory) }
    {
        is_sound(&self.arena);
        self.make_place(rank, comm)?;
        plan.shared_sig()
    }

    /// Enters a post whose room was made. Can't be refused.
    fn enter(
        &mut self,
        rank: u8,
        comm: u32,
        offer: Offer,
        sig: Arc<Signature>,
        buffer: Buffer,
    ) -> Ticket
        requires accepted { refused_in self.old (post_of rank comm offer) ≡ None }
        requires room { IsRoomy self.old rank comm offer.plan }
        requires sig { arc_value sig ≡ offer.plan.sig }
        requires buffer { buffer ≡ laid_in (family offer.plan.sig offer.plan.n offer.plan.member) offer.bytes }
        ensures setting { setting self.new ≡ setting self.old }
        ensures posted { StepsTo (setting self.old) (seen self.old) (post_of rank comm offer) (Ticketed result) (seen self.new) }
        ensures begins { BeginsSchedule self.old self.new result.slot (family offer.plan.sig offer.plan.n offer.plan.member) }
    {
        is_sound(&self.arena);
        lengths_are_small();
        let Offer { plan, bytes } = offer;
        are_bytes(bytes.as_slice());
        let place = self.queues.offer(comm, rank, sig);
        let member = plan.member();
        let weight = plan.sig().lent(plan.n(), member) as u32;
        let mut request = Request {
            rank,
            comm,
            place,
            hint: 0,
            plan,
            starts: 1,
            round: 0,
            index: 0,
            buffer,
        };
        let key = request.key();
        let given = bytes.into_bytes();
        let hint = self.matches.join(key, member, given);
        request.hint = hint;
        request.pass_ends();
        let list = request.list(&self.matches);
        match self.arena.take(request, weight, list) {
            Ok(ticket) => {
                self.matches.seat(key, hint, member, ticket.slot);
                ticket
            }
            Err(_) => unreachable!(),
        }
    }

    /// Enters an initialisation whose room was made. Can't be refused.
    fn lay_down(&mut self, rank: u8, comm: u32, plan: Plan, sig: Arc<Signature>) -> Ticket
        requires accepted { refused_in self.old (init_of rank comm plan) ≡ None }
        requires room { HasRoom self.old.queues comm rank }
        requires sig { arc_value sig ≡ plan.sig }
        ensures setting { setting self.new ≡ setting self.old }
        ensures made { MachineStep (setting self.old) (seen self.old) (init_of rank comm plan) (Ticketed result) (seen self.new) }
        ensures progress { KeepsProgress self.old self.new result.slot }
    {
        is_sound(&self.arena);
        let place = self.queues.offer(comm, rank, sig);
        let request = Request {
            rank,
            comm,
            place,
            hint: 0,
            plan,
            starts: 0,
            round: 0,
            index: 0,
            buffer: Buffer::empty(self.alloc),
        };
        match self.arena.take(request, 0, ListName::Idle(comm)) {
            Ok(ticket) => ticket,
            Err(_) => unreachable!(),
        }
    }
}
