ghost use Rattle.std.specs.Prelude.{◌≡◌, [], ◌↔◌, ◌<◌, ◌≤◌, All, Any, IfErr, IfOk, IfSome, IsNone, IsTrue, OnErr, OnOk, Some, false, length, vec_capacity};
ghost use Rattle.coll_traced.specs.Waits.{Awake, mark_in, wait_in};
ghost use Rattle.coll_traced.specs.Stalls.{IsBlocked, IsDone, IsHeldUp, IsPending, IsRightlyMarked};
ghost use Rattle.coll_traced.specs.Awaiting.{IsListed, NoneIsPending, one_by, tickets_in};

use crate::waiting::Waiting;
use coll_complete::Request;
use coll_core::{Core, Phase};
use coll_kinds::{Refusal, Ticket};
use std::alloc::Global;

/// What a port waits for, with memory for the tickets of a list.
#[derive(Drop)]
pub(crate) struct PortWait {
    how: Waiting,
    tickets: Vec<Ticket>,
    /// Whether a deadlock was found since the port began this wait.
    is_stalled: bool,
}

/// Tells whether the ticket names a request of the rank that can be completed.
pub(crate) fn is_done(core: &Core, rank: u8, ticket: Ticket) -> bool
    ensures { IsTrue result ↔ IsDone core.now rank ticket }
{
    match core.phase(rank, ticket) {
        Ok(Phase::Idle) => false,
        Ok(Phase::Pending) => false,
        Ok(Phase::Done) => true,
        Err(_) => false,
    }
}

/// Tells whether the ticket names a Pending request of the rank.
fn is_pending(core: &Core, rank: u8, ticket: Ticket) -> bool
    ensures { IsTrue result ↔ IsPending core.now rank ticket }
{
    match core.phase(rank, ticket) {
        Ok(Phase::Idle) => false,
        Ok(Phase::Pending) => true,
        Ok(Phase::Done) => false,
        Err(_) => false,
    }
}

/// Returns a Pending request of the rank in the list, if there is one. It is the last one, because
/// that is mostly the last to become Done, and a port that waits for all should be woken seldom.
pub(crate) fn last_pending(core: &Core, rank: u8, requests: &[Request]) -> Option<Ticket>
    ensures listed { IfSome result (IsListed requests.now) }
    ensures pending { IfSome result (IsPending core.now rank) }
    ensures none { IsNone result → NoneIsPending core.now rank requests.now }
{
    for index in (0..requests.len()).rev() {
        if let Some(ticket) = requests[index].ticket() {
            if is_pending(core, rank, ticket) {
                return Some(ticket);
            }
        }
    }
    None
}

/// Tells whether one of the tickets names a Pending request of the rank.
fn some_is_pending(core: &Core, rank: u8, tickets: &[Ticket]) -> bool
    ensures { IsTrue result ↔ Any (IsPending core.now rank) tickets.now }
{
    tickets.iter().any(|ticket| is_pending(core, rank, *ticket))
}

/// Tells whether none of the tickets names a request of the rank that can be completed.
fn none_is_done(core: &Core, rank: u8, tickets: &[Ticket]) -> bool
    ensures { IsTrue result ↔ All (λ t. IsDone core.now rank t → ⊥) tickets.now }
{
    tickets.iter().all(|ticket| !is_done(core, rank, *ticket))
}

/// Replaces `tickets` by the tickets of the requests that aren't null, in their order. Takes memory
/// only if they don't fit.
fn list(tickets: &mut Vec<Ticket>, requests: &[Request]) -> Result<(), Refusal>
    ensures tickets { OnOk result (tickets.new.items ≡ tickets_in requests.now) }
    ensures capacity { vec_capacity tickets.old ≤ vec_capacity tickets.new }
    ensures refused { IfErr result (λ why. why ≡ Refusal.NoMemory) }
    ensures full { OnErr result (vec_capacity tickets.old < length (tickets_in requests.now)) }
{
    tickets.clear();
    for request in requests {
        if let Some(ticket) = request.ticket() {
            tickets.push(ticket)?;
        }
    }
    Ok(())
}

impl PortWait {
    /// Makes the record of a port that is awake, with memory for `slots` tickets.
    pub(crate) fn new(alloc: Global, slots: u32) -> Result<Self, Refusal>
        ensures waits { IfOk result (λ port. wait_in port ≡ Awake) }
        ensures unmarked { IfOk result (λ port. port.is_stalled ≡ false) }
        ensures capacity { IfOk result (λ port. slots ≤ vec_capacity port.tickets) }
        ensures refused { IfErr result (λ why. why ≡ Refusal.NoMemory) }
    {
        Ok(PortWait {
            how: Waiting::Awake,
            tickets: Vec::with_capacity(alloc, slots as usize)?,
            is_stalled: false,
        })
    }

    /// Notes how the port waits, for nothing of a list.
    pub(crate) fn put(&mut self, how: Waiting)
        ensures how { self.new.how ≡ how }
        ensures tickets { self.new.tickets.items ≡ [] }
        ensures unmarked { self.new.is_stalled ≡ false }
        ensures capacity { vec_capacity self.new.tickets ≡ vec_capacity self.old.tickets }
    {
        self.is_stalled = false;
        self.how = how;
        self.tickets.clear();
    }

    /// Notes that the rank's port waits until one of the requests is Done. If that can't be noted,
    /// the port is awake.
    pub(crate) fn put_list(&mut self, rank: u8, requests: &[Request]) -> Result<(), Refusal>
        ensures how { OnOk result (self.new.how ≡ Waiting.ForAny rank) }
        ensures tickets { OnOk result (self.new.tickets.items ≡ tickets_in requests.now) }
        ensures unmarked { self.new.is_stalled ≡ false }
        ensures capacity { vec_capacity self.old.tickets ≤ vec_capacity self.new.tickets }
        ensures refused { IfErr result (λ why. why ≡ Refusal.NoMemory) }
        ensures full { OnErr result (vec_capacity self.old.tickets < length (tickets_in requests.now)) }
        ensures err { OnErr result (self.new.how ≡ Waiting.Awake) }
    {
        self.is_stalled = false;
        self.how = Waiting::Awake;
        list(&mut self.tickets, requests)?;
        self.how = Waiting::ForAny { rank };
        Ok(())
    }

    /// Tells whether the port is blocked in a wait, or has ended.
    pub(crate) fn is_blocked(&self, core: &Core) -> bool
        ensures { IsTrue result ↔ IsBlocked core.now (wait_in self.now) }
    {
        match self.how {
            Waiting::Awake => false,
            Waiting::ForOne { rank, ticket } => !is_done(core, rank, ticket),
            Waiting::ForAny { rank } => none_is_done(core, rank, &self.tickets),
            Waiting::Ended => true,
        }
    }

    /// Tells whether the port waits for a Pending request.
    fn is_held_up(&self, core: &Core) -> bool
        ensures { IsTrue result ↔ IsHeldUp core.now (wait_in self.now) }
    {
        match self.how {
            Waiting::Awake => false,
            Waiting::ForOne { rank, ticket } => is_pending(core, rank, ticket),
            Waiting::ForAny { rank } => some_is_pending(core, rank, &self.tickets),
            Waiting::Ended => false,
        }
    }

    /// Marks the port as deadlocked, if it waits for a Pending request.
    pub(crate) fn mark(&mut self, core: &Core)
        ensures wait { wait_in self.new ≡ wait_in self.old }
        ensures mark { IsRightlyMarked core.now self.new }
        ensures capacity { vec_capacity self.new.tickets ≡ vec_capacity self.old.tickets }
    {
        self.is_stalled = self.is_held_up(core);
    }

    /// Tells whether the port is marked as deadlocked, and waits for the same since.
    pub(crate) fn is_marked(&self) -> bool
        ensures { result ≡ mark_in self.now }
    {
        self.is_stalled
    }

    /// Returns the request that the port waits for, if it waits for exactly one.
    pub(crate) fn one(&self) -> Option<Ticket>
        ensures { result ≡ one_by (Some (wait_in self.now)) }
    {
        match self.how {
            Waiting::ForOne { ticket, .. } => Some(ticket),
            _ => None,
        }
    }
}
