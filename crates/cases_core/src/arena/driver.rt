//! An arena of one communicator, with its calls as rows have them.

ghost use Rattle.std.specs.Prelude.{◌≡◌, ◌<◌, ◌≤◌};
ghost use Rattle.coll_arena.specs.ListNames.{number_of};

use coll_arena::{Arena, ListName, Tickets};
use coll_kinds::{Refusal, Ticket};
use std::alloc::Global;

/// A list of communicator 0.
#[derive(Clone, Copy)]
pub enum On {
    Free,
    Worn,
    Live(Live),
}

/// A list of live requests.
#[derive(Clone, Copy)]
pub enum Live {
    Ready,
    Queue,
    Done,
}

/// A call. A request is named by the number of the `Take` that made it, from 0.
#[derive(Clone, Copy)]
pub enum ArenaCall {
    /// Takes a slot for a record of that weight, on that list.
    Take(u32, u8, Live),
    Retire(usize),
    Get(usize),
    Set(usize, u32),
    Replace(usize, u32, Live),
    Reweigh(usize, u8),
    Shift(usize, Live),
    ShiftFront(usize, Live),
    Slots(On),
    SlotsBack(On),
    First(Live),
    Len(On),
    IsOn(usize, Live),
    TicketAt(u32),
    HasFree,
    Lent,
}

/// The answer to a call.
#[derive(Clone, Copy, Debug, PartialEq, Eq)]
pub enum ArenaAnswer {
    Accepted,
    Record(u32),
    /// The slot and the generation.
    Ticket(u32, u32),
    Nothing,
    /// The first slots of a list, and `END` after them.
    Slots([u32; 4]),
    Count(u32),
    Lent(u64),
    Is(bool),
    Refused(Refusal),
    /// The refusal, and the record that was handed back.
    Back(Refusal, u32),
}

/// No slot.
pub const END: u32 = u32::MAX;

/// An arena of one communicator, and the tickets that it gave.
#[derive(Drop)]
pub struct ArenaDriver {
    arena: Arena<u32>,
    tickets: Vec<Ticket>,
    ghost one: { arena.comms ≡ 1 },
}

impl Live {
    fn name(self) -> ListName
        ensures live { 2 ≤ number_of result }
        ensures low { number_of result < 7 }
    {
        match self {
            Live::Ready => ListName::Ready,
            Live::Queue => ListName::Queue(0),
            Live::Done => ListName::Done(0),
        }
    }
}

impl On {
    fn name(self) -> ListName
        ensures { number_of result < 7 }
    {
        match self {
            On::Free => ListName::Free,
            On::Worn => ListName::Worn,
            On::Live(live) => live.name(),
        }
    }
}

fn of_call(answer: Result<(), Refusal>) -> ArenaAnswer {
    match answer {
        Ok(()) => ArenaAnswer::Accepted,
        Err(why) => ArenaAnswer::Refused(why),
    }
}

fn of_record(answer: Result<u32, Refusal>) -> ArenaAnswer {
    match answer {
        Ok(record) => ArenaAnswer::Record(record),
        Err(why) => ArenaAnswer::Refused(why),
    }
}

fn of_ticket(ticket: Option<Ticket>) -> ArenaAnswer {
    match ticket {
        Some(ticket) => ArenaAnswer::Ticket(ticket.slot, ticket.generation),
        None => ArenaAnswer::Nothing,
    }
}

/// The first slots of a walk, as an answer.
fn of_walk(walk: Tickets<'_, u32>) -> ArenaAnswer {
    let mut slots = [END; 4];
    for (slot, ticket) in slots.iter_mut().zip(walk) {
        *slot = ticket.slot;
    }
    ArenaAnswer::Slots(slots)
}

impl ArenaDriver {
    /// An arena with this number of slots, each of which can be taken `wear` times, at least once.
    pub fn open(alloc: Global, slots: u8, wear: u8) -> Result<ArenaDriver, Refusal> {
        let wear = u32::from(wear).max(1);
        let arena = Arena::open(alloc, u32::from(slots), 1, wear)?;
        Ok(ArenaDriver {
            arena,
            tickets: Vec::new(alloc),
        })
    }

    /// The ticket of the request with that number; if there is none, a ticket that names no request.
    fn ticket(&self, number: usize) -> Ticket {
        match self.tickets.get(number) {
            Some(ticket) => *ticket,
            None => Ticket {
                slot: END,
                generation: 0,
            },
        }
    }

    fn take(&mut self, record: u32, weight: u8, live: Live) -> ArenaAnswer {
        match self.arena.take(record, u32::from(weight), live.name()) {
            Ok(ticket) => {
                let _ = self.tickets.push(ticket);
                ArenaAnswer::Ticket(ticket.slot, ticket.generation)
            }
            Err(refused) => ArenaAnswer::Back(refused.why, refused.back),
        }
    }

    fn retire(&mut self, number: usize) -> ArenaAnswer {
        let ticket = self.ticket(number);
        of_record(self.arena.retire(ticket))
    }

    fn get(&self, number: usize) -> ArenaAnswer {
        match self.arena.get(self.ticket(number)) {
            Ok(record) => ArenaAnswer::Record(*record),
            Err(why) => ArenaAnswer::Refused(why),
        }
    }

    fn set(&mut self, number: usize, record: u32) -> ArenaAnswer {
        let ticket = self.ticket(number);
        match self.arena.get_mut(ticket) {
            Ok(place) => {
                *place = record;
                ArenaAnswer::Accepted
            }
            Err(why) => ArenaAnswer::Refused(why),
        }
    }

    fn replace(&mut self, number: usize, record: u32, live: Live) -> ArenaAnswer {
        let ticket = self.ticket(number);
        match self.arena.replace(ticket, record, live.name()) {
            Ok(earlier) => ArenaAnswer::Record(earlier),
            Err(refused) => ArenaAnswer::Back(refused.why, refused.back),
        }
    }

    fn reweigh(&mut self, number: usize, weight: u8) -> ArenaAnswer {
        let ticket = self.ticket(number);
        of_call(self.arena.reweigh(ticket, u32::from(weight)))
    }

    fn shift(&mut self, number: usize, live: Live) -> ArenaAnswer {
        let ticket = self.ticket(number);
        of_call(self.arena.shift(ticket, live.name()))
    }

    fn shift_front(&mut self, number: usize, live: Live) -> ArenaAnswer {
        let ticket = self.ticket(number);
        of_call(self.arena.shift_front(ticket, live.name()))
    }

    /// The answer to a call that changes nothing.
    fn told(&self, call: ArenaCall) -> ArenaAnswer {
        match call {
            ArenaCall::Get(number) => self.get(number),
            ArenaCall::Slots(on) => of_walk(self.arena.list(on.name())),
            ArenaCall::SlotsBack(on) => of_walk(self.arena.list_back(on.name())),
            ArenaCall::First(live) => of_ticket(self.arena.first(live.name())),
            ArenaCall::Len(on) => ArenaAnswer::Count(self.arena.len(on.name())),
            ArenaCall::IsOn(number, live) => {
                ArenaAnswer::Is(self.arena.is_on(self.ticket(number), live.name()))
            }
            ArenaCall::TicketAt(slot) => of_ticket(self.arena.ticket_at(slot)),
            ArenaCall::HasFree => ArenaAnswer::Is(self.arena.has_free()),
            ArenaCall::Lent => ArenaAnswer::Lent(self.arena.lent()),
            _ => ArenaAnswer::Nothing,
        }
    }

    /// Makes a call.
    pub fn answer(&mut self, call: ArenaCall) -> ArenaAnswer {
        match call {
            ArenaCall::Take(record, weight, live) => self.take(record, weight, live),
            ArenaCall::Retire(number) => self.retire(number),
            ArenaCall::Set(number, record) => self.set(number, record),
            ArenaCall::Replace(number, record, live) => self.replace(number, record, live),
            ArenaCall::Reweigh(number, weight) => self.reweigh(number, weight),
            ArenaCall::Shift(number, live) => self.shift(number, live),
            ArenaCall::ShiftFront(number, live) => self.shift_front(number, live),
            _ => self.told(call),
        }
    }
}
