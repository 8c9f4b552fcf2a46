//! Completions.

ghost use Rattle.std.specs.Prelude.{◌≡◌, Some, true, length, IfOk, IfErr, IfSome, IsTrue, OnErr, IsNone};
ghost use Rattle.std.specs.Result.{result_err};
ghost use Rattle.coll_lists.specs.Moves.{moved_back};
ghost use Rattle.coll_arena.specs.Slots.{home, names, record_in};
ghost use Rattle.coll_match.specs.Instances.{IsJoined, given};
ghost use Rattle.coll_machine.specs.Calls.{Outcome as Completed, Nothing, Retire};
ghost use Rattle.coll_machine.specs.Machines.{MachineStep};
ghost use Rattle.coll_machine.specs.Refusals.{refusal};
ghost use Rattle.coll_sched.specs.Regions.{Inside, read_of};
ghost use Rattle.coll_refinement.specs.Engines.{Rests};
ghost use Rattle.coll_refinement.specs.Requests.{key};
ghost use Rattle.coll_core.specs.Buffers.{HasRoom};
ghost use Rattle.coll_core.specs.Completions.{GivesUp, IsGathering, IsKnown, IsOutcome};
ghost use Rattle.coll_core.specs.Cores.{seen, setting};
ghost use Rattle.coll_core.specs.Progress.{KeepsProgress};
ghost use Rattle.coll_core.specs.Requests.{schedule, shown};

use crate::engine::Core;
use crate::outcome::Outcome;
use crate::request::Request;
use coll_arena::laws::is_sound;
use coll_arena::{Arena, ListName, Ticket};
use coll_bytes::{Blocks, Bytes};
use coll_kinds::{Kind, Mode, Refusal};
use coll_match::Matches;
use std::alloc::Global;

impl Core {
    /// Completes a Done request, as `MPI_Test` and `MPI_Wait` do: a once request goes, a persistent
    /// one becomes Idle (MPI 4.1, 3.7.3). Returns None, and changes nothing, if the request isn't
    /// Done. Takes no memory.
    ///
    /// # Errors
    ///
    /// Stale if the ticket names no live request, then NotYours if it names another rank's; nothing
    /// changes.
    pub fn retire(&mut self, rank: u8, ticket: Ticket) -> Result<Option<Outcome>, Refusal>
        ensures refused { result_err result ≡ refusal (setting self.old) (seen self.old).state (Retire rank ticket) }
        ensures err { OnErr result (self.new ≡ self.old) }
        ensures none { IfOk result (λ found. IsNone found → self.new ≡ self.old) }
        ensures setting { setting self.new ≡ setting self.old }
        ensures waits { IfOk result (λ found. IsNone found → MachineStep (setting self.old) (seen self.old) (Retire rank ticket) Nothing (seen self.new)) }
        ensures completes { IfOk result
            (λ found. IfSome found (λ o. MachineStep (setting self.old) (seen self.old) (Retire rank ticket)
            (Completed o.rank o.comm o.place o.start o.bytes) (seen self.new))) }
        ensures rank { IfOk result (λ found. IfSome found (λ o. o.rank ≡ rank)) }
        ensures progress { IfOk result (λ found. IfSome found (λ o. KeepsProgress self.old self.new ticket.slot)) }
    {
        match self.retire_shared(rank, ticket) {
            Ok(Some((outcome, _other))) => Ok(Some(outcome)),
            Ok(None) => Ok(None),
            Err(why) => Err(why),
        }
    }

    /// `retire` that also returns a second owner of the outcome's bytes. So a trace keeps the
    /// outcome without a copy.
    ///
    /// # Errors
    ///
    /// As `retire`.
    pub fn retire_shared(
        &mut self,
        rank: u8,
        ticket: Ticket,
    ) -> Result<Option<(Outcome, Bytes)>, Refusal>
        ensures refused { result_err result ≡ refusal (setting self.old) (seen self.old).state (Retire rank ticket) }
        ensures err { OnErr result (self.new ≡ self.old) }
        ensures none { IfOk result (λ found. IsNone found → self.new ≡ self.old) }
        ensures setting { setting self.new ≡ setting self.old }
        ensures waits { IfOk result (λ found. IsNone found → MachineStep (setting self.old) (seen self.old) (Retire rank ticket) Nothing (seen self.new)) }
        ensures completes { IfOk result
            (λ found. IfSome found (λ r. MachineStep (setting self.old) (seen self.old) (Retire rank ticket)
            (Completed r.0.rank r.0.comm r.0.place r.0.start r.0.bytes) (seen self.new))) }
        ensures rank { IfOk result (λ found. IfSome found (λ r. r.0.rank ≡ rank)) }
        ensures same { IfOk result (λ found. IfSome found (λ r. r.1 ≡ r.0.bytes)) }
        ensures progress { IfOk result (λ found. IfSome found (λ r. KeepsProgress self.old self.new ticket.slot)) }
    {
        is_sound(&self.arena);
        let request = self.named(rank, ticket)?;
        if !self.arena.is_on(ticket, ListName::Done(request.comm)) {
            return Ok(None);
        }
        let key = request.key();
        let hint = request.hint;
        let member = request.plan.member();
        let kind = request.plan.sig().kind;
        let known = known_outcome(&self.matches, request);
        let blocks = &self.blocks;
        let (bytes, room) = give_up(&mut self.arena, self.alloc, ticket, known, blocks);
        let other = second_owner(&bytes, room, blocks);
        let joined = joined_by(kind, &bytes);
        self.matches.leave(key, hint, member, joined);
        let outcome = Outcome {
            rank,
            comm: key.comm,
            place: key.place,
            start: key.start,
            bytes,
        };
        Ok(Some((outcome, other)))
    }
}

/// Returns a further owner of a Done request's outcome, if the instance has its bytes: of a bcast
/// what the root gave, of an allgather what a member joined that has left.
fn known_outcome(matches: &Matches, request: &Request) -> Option<Bytes>
    ensures { IfSome result (IsKnown matches.now request.now) }
{
    match root_row(matches, request) {
        Some(bytes) => Some(bytes),
        None => joined_rows(matches, request),
    }
}

/// Returns the value of a Done allgather or allgatherv, if a member that has left had joined the
/// rows. None for other kinds.
fn joined_rows(matches: &Matches, request: &Request) -> Option<Bytes>
    ensures kind { IfSome result (λ bytes. IsGathering request.now.plan.sig.kind) }
    ensures joined { IfSome result (IsJoined matches.now (key (shown request.now))) }
{
    if !is_gathering(request.plan.sig().kind) {
        return None;
    }
    matches.share_joined(request.key(), request.hint)
}

/// Tells whether each member's outcome is what all members gave, joined.
fn is_gathering(kind: Kind) -> bool
    ensures { IsTrue result → IsGathering kind }
{
    kind == Kind::Allgather || kind == Kind::Allgatherv
}

/// Returns a further owner of the outcome of an allgather or allgatherv, for the members that
/// complete later. None for other kinds, and if the bytes' block doesn't count its owners.
fn joined_by(kind: Kind, bytes: &Bytes) -> Option<Bytes>
    ensures kind { IfSome result (λ joined. IsGathering kind) }
    ensures same { IfSome result (λ joined. joined ≡ bytes.now) }
{
    if !is_gathering(kind) {
        return None;
    }
    bytes.share_counted()
}

/// Returns the value of a Done bcast: a further owner of its root's contribution. None for other
/// kinds, and if the contribution doesn't count its owners.
fn root_row(matches: &Matches, request: &Request) -> Option<Bytes>
    ensures kind { IfSome result (λ bytes. request.now.plan.sig.kind ≡ Kind.Bcast) }
    ensures given { IfSome result (λ bytes. given matches.now (key (shown request.now)) request.now.plan.sig.root ≡ Some bytes) }
{
    let sig = request.plan.sig();
    if sig.kind != Kind::Bcast {
        return None;
    }
    matches.share_given(request.key(), request.hint, sig.root)
}

/// Returns a second owner of an outcome's bytes. Takes no memory: `room` is for a copy, and is kept
/// if no copy is made.
fn second_owner(bytes: &Bytes, room: Vec<u8>, blocks: &Blocks) -> Bytes
    requires { HasRoom room (length bytes.now) }
    ensures { result ≡ bytes.now }
{
    match bytes.share_counted() {
        Some(other) => {
            blocks.keep(room);
            other
        }
        None => bytes.share_in(room),
    }
}

/// Takes the outcome of a request, with memory for a copy of it. `known` is another owner of the
/// same bytes, if there is one. A once request goes, a persistent one becomes Idle.
fn give_up(
    arena: &mut Arena<Request>,
    alloc: Global,
    ticket: Ticket,
    known: Option<Bytes>,
    blocks: &Blocks,
) -> (Bytes, Vec<u8>)
    requires named { names arena.old ticket ≡ true }
    requires can { IfSome (record_in arena.old ticket.slot) (GivesUp arena.old) }
    requires known { IfSome (record_in arena.old ticket.slot) (IsOutcome known) }
    ensures bytes { IfSome (record_in arena.old ticket.slot) (λ x. result.0 ≡ read_of x.buffer (schedule (shown x)).output) }
    ensures room { HasRoom result.1 (length result.0) }
    ensures rests { IfSome (record_in arena.old ticket.slot) (λ x. Rests shown x.plan.sig.mode arena.old arena.new ticket x) }
    ensures lists { arena.new.lists ≡ moved_back ticket.slot (home arena.new ticket.slot) arena.old.lists }
{
    let Ok(request) = arena.get(ticket) else {
        unreachable!()
    };
    match request.plan.sig().mode {
        Mode::Once => end(arena, alloc, ticket, known, blocks),
        Mode::Persistent => rest(arena, alloc, ticket, known, blocks),
    }
}

/// Takes the outcome of a once request, which goes.
fn end(
    arena: &mut Arena<Request>,
    alloc: Global,
    ticket: Ticket,
    known: Option<Bytes>,
    blocks: &Blocks,
) -> (Bytes, Vec<u8>)
    requires named { names arena.old ticket ≡ true }
    requires can { IfSome (record_in arena.old ticket.slot) (GivesUp arena.old) }
    requires known { IfSome (record_in arena.old ticket.slot) (IsOutcome known) }
    ensures bytes { IfSome (record_in arena.old ticket.slot) (λ x. result.0 ≡ read_of x.buffer (schedule (shown x)).output) }
    ensures room { HasRoom result.1 (length result.0) }
    ensures rests { IfSome (record_in arena.old ticket.slot) (λ x. Rests shown Mode.Once arena.old arena.new ticket x) }
    ensures lists { arena.new.lists ≡ moved_back ticket.slot (home arena.new ticket.slot) arena.old.lists }
{
    match arena.retire(ticket) {
        Ok(mut request) => request.take_outcome(alloc, known, blocks),
        Err(_) => unreachable!(),
    }
}

/// Takes the outcome of a persistent request, which becomes Idle.
fn rest(
    arena: &mut Arena<Request>,
    alloc: Global,
    ticket: Ticket,
    known: Option<Bytes>,
    blocks: &Blocks,
) -> (Bytes, Vec<u8>)
    requires named { names arena.old ticket ≡ true }
    requires can { IfSome (record_in arena.old ticket.slot) (GivesUp arena.old) }
    requires known { IfSome (record_in arena.old ticket.slot) (IsOutcome known) }
    ensures bytes { IfSome (record_in arena.old ticket.slot) (λ x. result.0 ≡ read_of x.buffer (schedule (shown x)).output) }
    ensures room { HasRoom result.1 (length result.0) }
    ensures rests { IfSome (record_in arena.old ticket.slot) (λ x. Rests shown Mode.Persistent arena.old arena.new ticket x) }
    ensures lists { arena.new.lists ≡ moved_back ticket.slot (home arena.new ticket.slot) arena.old.lists }
{
    is_sound(arena);
    let Ok(request) = arena.get_mut(ticket) else {
        unreachable!()
    };
    let bytes = request.take_outcome(alloc, known, blocks);
    let comm = request.comm;
    let Ok(()) = arena.reweigh(ticket, 0) else {
        unreachable!()
    };
    let Ok(()) = arena.shift(ticket, ListName::Idle(comm)) else {
        unreachable!()
    };
    bytes
}
