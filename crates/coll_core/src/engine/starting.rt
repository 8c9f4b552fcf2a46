//! Starts and frees of persistent requests.

ghost use Rattle.std.specs.Prelude.{◌≡◌, ◌<◌, ◌^◌, suc, true, is_some, length, IfErr, IfOk, IfSome, OnOk, OnErr};
ghost use Rattle.std.specs.Result.{result_err};
ghost use Rattle.coll_kinds.specs.Elements.{AreBytes};
ghost use Rattle.coll_kinds.specs.Lengths.{given_len};
ghost use Rattle.coll_sched.specs.Families.{laid_in};
ghost use Rattle.coll_arena.specs.Slots.{names, record_in};
ghost use Rattle.coll_match.specs.Instances.{size};
ghost use Rattle.coll_machine.specs.Calls.{Free, Nothing, Start};
ghost use Rattle.coll_machine.specs.Machines.{MachineStep, StepsTo};
ghost use Rattle.coll_machine.specs.Refusals.{refusal};
ghost use Rattle.coll_core.specs.Calls.{Refuses};
ghost use Rattle.coll_core.specs.Cores.{seen, setting, Unchanged};
ghost use Rattle.coll_core.specs.Progress.{BeginsSchedule, KeepsProgress};
ghost use Rattle.coll_core.specs.Requests.{schedule, shown};
ghost use Rattle.coll_core.specs.Starts.{Begins, Begun, CanBegin, next_instance};

use crate::buffer::{Buffer, Laid};
use crate::contribution::Contribution;
use crate::engine::Core;
use crate::request::Request;
use coll_arena::laws::is_sound;
use coll_arena::{Arena, ListName, Ticket};
use coll_bytes::Bytes;
use coll_kinds::laws::lengths_are_small;
use coll_kinds::{Mode, Refusal, Refused};
use coll_match::{Key, Matches};

impl Core {
    /// Starts a persistent request (`MPI_Start`; MPI 4.1, 3.9).
    ///
    /// # Errors
    ///
    /// In this order, with the bytes handed back and nothing changed: Stale; NotYours;
    /// NotPersistent; Active; BadLength; StartsUsed; NoMemory.
    pub fn start(
        &mut self,
        rank: u8,
        ticket: Ticket,
        mut bytes: Contribution,
    ) -> Result<(), Refused<Contribution>>
        ensures setting { setting self.new ≡ setting self.old }
        ensures starts { OnOk result (StepsTo (setting self.old) (seen self.old) (Start rank ticket bytes) Nothing (seen self.new)) }
        ensures begins { OnOk result (IfSome (record_in self.old.arena ticket.slot) (λ x. BeginsSchedule self.old self.new ticket.slot (schedule (shown x)))) }
        ensures short { OnOk result (length bytes < 2 ^ 32) }
        ensures back { IfErr result (λ refused. refused.back ≡ bytes) }
        ensures refused { IfErr result (λ refused. Refuses (setting self.old) (seen self.old) (Start rank ticket bytes) refused.why) }
        ensures unchanged { OnErr result (Unchanged self.old self.new) }
    {
        if let Err(why) = self.may_start(rank, ticket, bytes.as_slice()) {
            return Err(Refused { why, back: bytes });
        }
        let buffer = match self.make_start_room(ticket, &mut bytes) {
            Ok(buffer) => buffer,
            Err(why) => return Err(Refused { why, back: bytes }),
        };
        is_sound(&self.arena);
        let given = bytes.into_bytes();
        begin(&mut self.arena, &mut self.matches, ticket, given, buffer);
        Ok(())
    }

    /// Frees a persistent request that isn't active (`MPI_Request_free`; MPI 4.1, 3.7.3). Its place
    /// in the posting list stays taken.
    ///
    /// # Errors
    ///
    /// In this order, with nothing changed: Stale; NotYours; NotPersistent; Active.
    pub fn free(&mut self, rank: u8, ticket: Ticket) -> Result<(), Refusal>
        ensures refused { result_err result ≡ refusal (setting self.old) (seen self.old).state (Free rank ticket) }
        ensures err { OnErr result (self.new ≡ self.old) }
        ensures setting { setting self.new ≡ setting self.old }
        ensures frees { OnOk result (MachineStep (setting self.old) (seen self.old) (Free rank ticket) Nothing (seen self.new)) }
        ensures progress { OnOk result (KeepsProgress self.old self.new ticket.slot) }
    {
        is_sound(&self.arena);
        self.may_free(rank, ticket)?;
        let Ok(_) = self.arena.retire(ticket) else {
            unreachable!()
        };
        Ok(())
    }

    /// Checks that the ticket names an inactive persistent request of the rank.
    fn may_free(&self, rank: u8, ticket: Ticket) -> Result<(), Refusal>
        ensures refused { result_err result ≡ refusal (setting self.now) (seen self.now).state (Free rank ticket) }
        ensures named { OnOk result (names self.now.arena ticket ≡ true) }
    {
        let request = self.named(rank, ticket)?;
        if request.plan.sig().mode != Mode::Persistent {
            return Err(Refusal::NotPersistent);
        }
        if !self.arena.is_on(ticket, ListName::Idle(request.comm)) {
            return Err(Refusal::Active);
        }
        Ok(())
    }

    /// Checks every precondition of a start but memory.
    fn may_start(&self, rank: u8, ticket: Ticket, bytes: &[u8]) -> Result<(), Refusal>
        ensures refused { result_err result ≡ refusal (setting self.now) (seen self.now).state (Start rank ticket bytes.now) }
        ensures named { OnOk result (names self.now.arena ticket ≡ true) }
        ensures bytes { OnOk result (AreBytes bytes.now) }
        ensures short { OnOk result (length bytes.now < 2 ^ 32) }
        ensures found { OnOk result (is_some (record_in self.now.arena ticket.slot) ≡ true) }
        ensures long { OnOk result (IfSome (record_in self.now.arena ticket.slot) (λ x. length bytes.now ≡ given_len x.plan.sig x.plan.n x.plan.member)) }
        ensures low { OnOk result (IfSome (record_in self.now.arena ticket.slot) (λ x. suc x.starts < 2 ^ 32)) }
    {
        self.may_free(rank, ticket)?;
        lengths_are_small();
        let Ok(request) = self.arena.get(ticket) else {
            unreachable!()
        };
        let sig = request.plan.sig();
        let want = sig.given_len(request.plan.n(), request.plan.member());
        if bytes.len() != want {
            return Err(Refusal::BadLength {
                want: want as u32,
                got: bytes.len(),
            });
        }
        if request.starts >= self.starts {
            return Err(Refusal::StartsUsed);
        }
        Ok(())
    }

    /// Makes room for everything that a start takes, and the schedule's buffer with the
    /// contribution.
    fn make_start_room(
        &mut self,
        ticket: Ticket,
        bytes: &mut Contribution,
    ) -> Result<Buffer, Refusal>
        requires named { names self.old.arena ticket ≡ true }
        requires long { IfSome (record_in self.old.arena ticket.slot) (λ x. length bytes.old ≡ given_len x.plan.sig x.plan.n x.plan.member) }
        ensures bytes { bytes.new ≡ bytes.old }
        ensures same { Unchanged self.old self.new }
        ensures arena { self.new.arena ≡ self.old.arena }
        ensures room { OnOk result (IfSome (record_in self.old.arena ticket.slot) (λ x. x.plan.member < size self.new.matches (next_instance x))) }
        ensures buffer { IfOk result (λ buf. IfSome (record_in self.old.arena ticket.slot) (λ x. buf ≡ laid_in (schedule (shown x)) bytes.old)) }
        ensures refused { IfErr result (λ why. why ≡ Refusal.NoMemory) }
    {
        let Ok(request) = self.arena.get(ticket) else {
            unreachable!()
        };
        let laid = Laid::lay_in(self.alloc, request.plan.schedule(), bytes)?;
        let buffer = laid.furnished(self.alloc, &self.blocks)?;
        let key = Key {
            comm: request.comm,
            place: request.place,
            start: request.starts,
        };
        let n = request.plan.n();
        self.make_instance(key, n)?;
        Ok(buffer)
    }
}

/// Starts a request whose room was made. Can't be refused.
fn begin(
    arena: &mut Arena<Request>,
    matches: &mut Matches,
    ticket: Ticket,
    bytes: Bytes,
    buffer: Buffer,
)
    requires named { names arena.old ticket ≡ true }
    requires can { IfSome (record_in arena.old ticket.slot) (CanBegin arena.old matches.old) }
    ensures { IfSome (record_in arena.old ticket.slot) (λ x. Begun arena.old arena.new matches.old matches.new ticket x bytes buffer) }
{
    is_sound(arena);
    lengths_are_small();
    let Ok(request) = arena.get_mut(ticket) else {
        unreachable!()
    };
    once_more(request, buffer);
    let key = request.key();
    let member = request.plan.member();
    let weight = request.plan.sig().lent(request.plan.n(), member) as u32;
    request.hint = matches.join(key, member, bytes);
    matches.seat(key, request.hint, member, ticket.slot);
    let list = request.list(matches);
    let Ok(()) = arena.reweigh(ticket, weight) else {
        unreachable!()
    };
    let Ok(()) = arena.shift(ticket, list) else {
        unreachable!()
    };
}

/// Takes a request to the first action of its next start.
fn once_more(request: &mut Request, buffer: Buffer)
    requires { suc request.old.starts < 2 ^ 32 }
    ensures { Begins (shown request.old) (shown request.new) buffer }
{
    request.starts += 1;
    request.buffer = buffer;
    request.round = 0;
    request.index = 0;
    request.pass_ends();
}
