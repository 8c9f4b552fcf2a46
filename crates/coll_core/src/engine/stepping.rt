//! Progress: one action of one request at a time.

ghost use Rattle.std.specs.Prelude.{◌≡◌, ◌<◌, ◌≤◌, ◌+◌, ◌^◌, ◌↔◌, [], ℕ, true, IfOk, IfSome, IsOkUnless, IsTrue, None, Ok, OnErr, OnOk, Some, is_some};
ghost use Rattle.coll_lists.specs.Layouts.{sequence};
ghost use Rattle.coll_lists.specs.Neighbours.{first_in};
ghost use Rattle.coll_match.specs.Instances.{seats};
ghost use Rattle.coll_sched.specs.Actions.{IsLocal};
ghost use Rattle.coll_arena.specs.declared.list_name.ListName.TheVariants.{Ready, Running};
ghost use Rattle.coll_arena.specs.ListNames.{list_count, number_of};
ghost use Rattle.coll_arena.specs.Lookups.{IsFirst, PutsSlot};
ghost use Rattle.coll_arena.specs.Slots.{home, names, record_in, weight_of};
ghost use Rattle.coll_refinement.specs.Engines.{Delivers};
ghost use Rattle.coll_core.specs.declared.stepped.Stepped.TheVariants.{Quiet};
ghost use Rattle.coll_core.specs.Cores.{seen, setting};
ghost use Rattle.coll_core.specs.Advancing.{Brings, CanAdvance, IsReceiver, HasAdvanced, HaveLists, IsSent, NoReceiver, is_end};
ghost use Rattle.coll_core.specs.Requests.{schedule, shown};
ghost use Rattle.coll_core.specs.Steps.{Acts, AwaitsWork, CombinesFirst, CombinesNext, CombinesShort, Finishings, HandsOut, IsActing, IsWork, Makes};
ghost use Rattle.coll_core.specs.Steps.{Steps, left, placed, ready, running};
ghost use Rattle.coll_core.specs.Works.{IsShort};

use crate::engine::Core;
use crate::request::Request;
use crate::sent::Sent;
use crate::short_work::ShortWork;
use crate::stepped::Stepped;
use crate::word::WORD;
use crate::work::Work;
use coll_arena::laws::is_sound;
use coll_arena::{Arena, ListName, Ticket};
use coll_kinds::Refusal;
use coll_match::Matches;
use coll_sched::{Action, Region};

impl Core {
    /// Carries out the next action of the first ready request, or hands that action out if it is a
    /// combination. A request that can go on after its action stays the first. A step touches a
    /// bounded number of requests and copies bytes at most once.
    ///
    /// # Errors
    ///
    /// NoMemory, with nothing changed.
    pub fn step(&mut self) -> Result<Stepped, Refusal>
        ensures quiet { (result ≡ Ok Quiet) ↔ (ready self.old ≡ []) }
        ensures out { IfOk result (λ stepped. IsWork stepped ↔ CombinesFirst self.old) }
        ensures steps { IfOk result (Steps self.old self.new) }
        ensures err { OnErr result (self.new ≡ self.old) }
        ensures refusal { IsOkUnless result Refusal.NoMemory }
    {
        let Some(ticket) = self.arena.first(ListName::Ready) else {
            return Ok(Stepped::Quiet);
        };
        match self.next_of(ticket) {
            Action::Combine { .. } => Ok(Stepped::Out(self.hand_out(ticket)?)),
            action => Ok(Stepped::by(self.act(ticket, action)?)),
        }
    }

    /// `step` that hands nothing out. Returns Quiet if nothing can be done without a combination.
    ///
    /// # Errors
    ///
    /// NoMemory, with nothing changed.
    pub fn move_on(&mut self) -> Result<Stepped, Refusal>
        ensures quiet { IfOk result (λ stepped. (stepped ≡ Quiet) ↔ AwaitsWork self.old) }
        ensures inside { IfOk result (λ stepped. IsWork stepped → ⊥) }
        ensures steps { IfOk result (Steps self.old self.new) }
        ensures err { OnErr result (self.new ≡ self.old) }
        ensures refusal { IsOkUnless result Refusal.NoMemory }
    {
        let Some(ticket) = self.arena.first(ListName::Ready) else {
            return Ok(Stepped::Quiet);
        };
        match self.next_of(ticket) {
            Action::Combine { .. } => Ok(Stepped::Quiet),
            action => Ok(Stepped::by(self.act(ticket, action)?)),
        }
    }

    /// Hands the combination that `step` would hand out out by value, if its operands have up to
    /// eight bytes; else changes nothing. Takes no memory.
    pub fn hand_out_short(&mut self) -> Option<ShortWork>
        ensures short { IsTrue (is_some result) ↔ CombinesShort self.old }
        ensures out { IfSome result (HandsOut self.old self.new) }
        ensures none { result ≡ None → self.new ≡ self.old }
    {
        let Some(ticket) = self.arena.first(ListName::Ready) else {
            return None;
        };
        let action = self.next_of(ticket);
        if !is_short(action) {
            return None;
        }
        Some(self.hand_out_value(ticket, action))
    }

    /// Steps until no request is ready, and computes the combinations itself. Returns the number of
    /// actions.
    ///
    /// # Errors
    ///
    /// NoMemory; the actions that were done before stay done.
    pub fn settle(&mut self) -> Result<u64, Refusal>
        ensures quiet { OnOk result (ready self.new ≡ []) }
        ensures steps { IfOk result (λ steps. Makes self.old steps self.new) }
        ensures made { OnErr result ((steps : ℕ) × Makes self.old steps self.new) }
        ensures setting { setting self.new ≡ setting self.old }
        ensures running { running self.new ≡ running self.old }
        ensures left { IfOk result (λ steps. left self.new + steps ≡ left self.old) }
        ensures finishes { Finishings (setting self.old) (seen self.old) (seen self.new) }
        ensures refusal { IsOkUnless result Refusal.NoMemory }
    {
        is_sound(&self.arena);
        let mut steps = 0;
        while let Some(ticket) = self.arena.first(ListName::Ready) {
            let action = self.next_of(ticket);
            self.act(ticket, action)?;
            steps += 1;
        }
        Ok(steps)
    }

    /// Returns the next action of a ready request.
    fn next_of(&self, ticket: Ticket) -> Action
        requires { IsFirst self.now.arena (number_of Ready) ticket }
        ensures { IsActing self.now ticket result }
    {
        let Ok(request) = self.arena.get(ticket) else {
            unreachable!()
        };
        match request.next() {
            Some(action) => action,
            None => unreachable!(),
        }
    }

    /// Carries out the next action of a ready request. Returns whether the request is Done after
    /// it.
    #[inline(always)]
    fn act(&mut self, ticket: Ticket, action: Action) -> Result<bool, Refusal>
        requires { IsActing self.old ticket action }
        ensures acts { IfOk result (Acts self.old self.new) }
        ensures err { OnErr result (self.new ≡ self.old) }
        ensures refusal { IsOkUnless result Refusal.NoMemory }
    {
        match action {
            Action::Send { to, from } => self.send(ticket, to, from),
            Action::Copy { .. } => self.compute(ticket, action),
            Action::Combine { .. } => self.compute(ticket, action),
            Action::Recv { of, into } => Ok(self.receive(ticket, of, into)),
        }
    }

    /// Sends a message. A receiver that waits for it goes to the back of the list Ready.
    fn send(&mut self, ticket: Ticket, to: u8, from: Region) -> Result<bool, Refusal>
        requires { IsActing self.old ticket (Action.Send to from) }
        ensures acts { IfOk result (Acts self.old self.new) }
        ensures err { OnErr result (self.new ≡ self.old) }
        ensures refusal { IsOkUnless result Refusal.NoMemory }
    {
        let Ok(request) = self.arena.get_mut(ticket) else {
            unreachable!()
        };
        let message = request.buffer.message(self.alloc, from)?;
        let key = request.key();
        let hint = request.hint;
        let member = request.plan.member();
        let round = request.round;
        let seat = match self.matches.put(key, hint, member, to, round, message) {
            Ok(seat) => seat,
            Err(refused) => return Err(refused.why),
        };
        let sent = Sent {
            key,
            from: member,
            to,
            round,
        };
        deliver(&mut self.arena, &self.matches, sent, seat);
        Ok(advance(&mut self.arena, &self.matches, ticket))
    }

    /// Receives a message that is there.
    fn receive(&mut self, ticket: Ticket, of: u8, into: Region) -> bool
        requires { IsActing self.old ticket (Action.Recv of into) }
        ensures { Acts self.old self.new result }
    {
        is_sound(&self.arena);
        let Ok(request) = self.arena.get_mut(ticket) else {
            unreachable!()
        };
        let (key, hint, round) = (request.key(), request.hint, request.round);
        let member = request.plan.member();
        let Some(message) = self.matches.take(key, hint, of, member, round) else {
            unreachable!()
        };
        is_addressable(request);
        request.buffer.receive(into, message);
        advance(&mut self.arena, &self.matches, ticket)
    }

    /// Carries out a Copy or a Combine within the buffer.
    fn compute(&mut self, ticket: Ticket, action: Action) -> Result<bool, Refusal>
        requires acting { IsActing self.old ticket action }
        requires local { IsLocal action }
        ensures acts { IfOk result (Acts self.old self.new) }
        ensures err { OnErr result (self.new ≡ self.old) }
        ensures refusal { IsOkUnless result Refusal.NoMemory }
    {
        is_sound(&self.arena);
        let Ok(request) = self.arena.get_mut(ticket) else {
            unreachable!()
        };
        is_addressable(request);
        request.buffer.act(self.alloc, action)?;
        Ok(advance(&mut self.arena, &self.matches, ticket))
    }

    /// Hands out the short combination of a ready request by value.
    #[inline(always)]
    fn hand_out_value(&mut self, ticket: Ticket, action: Action) -> ShortWork
        requires first { IsFirst self.old.arena (number_of Ready) ticket }
        requires acting { IsActing self.old ticket action }
        requires short { IsShort action }
        ensures { HandsOut self.old self.new result }
    {
        let Ok(request) = self.arena.get_mut(ticket) else {
            unreachable!()
        };
        let work = request.short_work(self.alloc, ticket, action);
        let Ok(()) = self.arena.shift(ticket, ListName::Running) else {
            unreachable!()
        };
        work
    }

    /// Hands out the combination of a ready request.
    #[inline(always)]
    fn hand_out(&mut self, ticket: Ticket) -> Result<Work, Refusal>
        requires first { IsFirst self.old.arena (number_of Ready) ticket }
        requires combines { CombinesNext self.old ticket }
        ensures out { IfOk result (HandsOut self.old self.new) }
        ensures err { OnErr result (self.new ≡ self.old) }
        ensures refusal { IsOkUnless result Refusal.NoMemory }
    {
        let Ok(request) = self.arena.get_mut(ticket) else {
            unreachable!()
        };
        let work = request.work(self.alloc, ticket, &mut self.matches, &self.blocks)?;
        let Ok(()) = self.arena.shift(ticket, ListName::Running) else {
            unreachable!()
        };
        Ok(work)
    }
}

/// States that the places in a request's buffer fit into 32 bits. Does nothing at run time.
#[inline(always)]
fn is_addressable(request: &Request)
    ensures { (schedule (shown request.now)).size < 2 ^ 32 }
{
    let _size = request.plan.schedule().size();
}

/// Tells whether an action combines operands of up to eight bytes.
fn is_short(action: Action) -> bool
    ensures { IsTrue result ↔ IsShort action }
{
    match action {
        Action::Combine { left, .. } => left.len as usize <= WORD,
        Action::Send { .. } | Action::Copy { .. } | Action::Recv { .. } => false,
    }
}

/// Moves a request past its next action, and to the list that fits it then. Returns whether it is
/// Done.
#[inline(always)]
pub(super) fn advance(arena: &mut Arena<Request>, matches: &Matches, ticket: Ticket) -> bool
    requires { CanAdvance arena.old ticket }
    ensures { HasAdvanced arena.old arena.new matches.now ticket result }
{
    is_sound(arena);
    let Ok(request) = arena.get_mut(ticket) else {
        unreachable!()
    };
    request.advance();
    let list = request.list(matches);
    place(arena, ticket, list);
    is_end(list)
}

/// Moves a request to the back of a list, unless it is on that list already. So the first ready
/// request stays the first while it can go on.
#[inline(always)]
fn place(arena: &mut Arena<Request>, ticket: Ticket, list: ListName)
    requires live { names arena.old ticket ≡ true }
    requires live_list { 2 ≤ number_of list }
    requires list_in { number_of list < list_count arena.old.comms }
    ensures puts { PutsSlot arena.old arena.new ticket.slot ticket.generation (weight_of arena.old ticket.slot)
        (record_in arena.old ticket.slot) (number_of list) }
    ensures stays { home arena.old ticket.slot ≡ number_of list → arena.new ≡ arena.old }
    ensures placed { arena.new.lists ≡ placed ticket.slot (number_of list) arena.old.lists }
{
    is_sound(arena);
    if arena.is_on(ticket, list) {
        return;
    }
    let Ok(()) = arena.shift(ticket, list) else {
        unreachable!()
    };
}

/// Tells whether the requests on a list are Done.
fn is_end(list: ListName) -> bool
    ensures { result ≡ is_end list }
{
    matches!(list, ListName::Done(_))
}

/// Makes the receiver's request ready, if it waits for a message that is there. `seat` is that
/// request's slot.
fn deliver(arena: &mut Arena<Request>, matches: &Matches, sent: Sent, seat: Option<u32>)
    requires lists { HaveLists arena.old }
    requires sent { IsSent matches.now sent }
    requires seat { seat ≡ seats matches.now sent.key sent.to }
    ensures delivers { Delivers shown arena.old arena.new matches.now sent.key sent.to }
    ensures others { Brings arena.old arena.new matches.now sent.key sent.to }
    ensures running { sequence arena.new.lists (number_of Running) ≡ sequence arena.old.lists (number_of Running) }
    ensures first { IfSome (first_in (sequence arena.old.lists (number_of Ready))) (λ slot. first_in (sequence arena.new.lists (number_of Ready)) ≡ Some slot) }
{
    is_sound(arena);
    let Some(ticket) = receiver(arena, matches, sent, seat) else {
        return;
    };
    let Ok(()) = arena.shift(ticket, ListName::Ready) else {
        unreachable!()
    };
}

/// Returns the receiver's request, if it waits for a message that is there. Mostly that is the
/// message just sent.
fn receiver(
    arena: &Arena<Request>,
    matches: &Matches,
    sent: Sent,
    seat: Option<u32>,
) -> Option<Ticket>
    requires lists { HaveLists arena.now }
    requires sent { IsSent matches.now sent }
    requires seat { seat ≡ seats matches.now sent.key sent.to }
    ensures can_receive { IfSome result (IsReceiver arena.now matches.now sent.key sent.to) }
    ensures none { result ≡ None → NoReceiver arena.now matches.now sent.key sent.to }
{
    is_sound(arena);
    let slot = seat?;
    let ticket = arena.ticket_at(slot)?;
    let Ok(request) = arena.get(ticket) else {
        unreachable!()
    };
    if arena.is_on(ticket, ListName::Queue(request.comm)) && request.can_receive(matches, sent) {
        Some(ticket)
    } else {
        None
    }
}
