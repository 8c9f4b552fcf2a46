//! Rows of calls of an arena, with the answers that must come.

mod driver;

ghost use Rattle.std.specs.Prelude.{◌≡◌, OnErr, OnOk, is_ok};
ghost use Rattle.std.specs.Option.{ForSome};
ghost use Rattle.coll_arena.specs.Changes.{rewritten};
ghost use Rattle.coll_arena.specs.Slots.{names, record_in};

use coll_arena::{Arena, ListName};
use coll_kinds::{Refusal, Ticket};
use driver::{ArenaAnswer, ArenaCall, ArenaDriver, END, Live, On};
use std::alloc::Global;
use std::process::Abort;

/// A call, with the answer that must come.
type ArenaRow = (ArenaCall, ArenaAnswer);

/// The first call of a list that was answered otherwise, by its index and with its answer. The arena is new and has this number
/// of slots, each of which can be taken `wear` times.
fn first_misfit(
    alloc: Global,
    slots: u8,
    wear: u8,
    rows: &[ArenaRow],
) -> Result<Option<(usize, ArenaAnswer)>, Refusal> {
    let mut driver = ArenaDriver::open(alloc, slots, wear)?;
    for (index, (call, want)) in rows.iter().enumerate() {
        let got = driver.answer(*call);
        if got != *want {
            return Ok(Some((index, got)));
        }
    }
    Ok(None)
}

/// Ends the test if a call of a list is answered otherwise.
fn assert_answers(rt: &impl Abort, alloc: Global, slots: u8, wear: u8, rows: &[ArenaRow]) {
    assert_eq!(rt; first_misfit(alloc, slots, wear, rows), Ok(None));
}

const ON_DONE: On = On::Live(Live::Done);

// A slot that is worn out isn't given again, and its tickets name no request.
const WORN: &[ArenaRow] = &[
    (
        ArenaCall::Take(7, 0, Live::Ready),
        ArenaAnswer::Ticket(0, 1),
    ),
    (ArenaCall::Retire(0), ArenaAnswer::Record(7)),
    (ArenaCall::Get(0), ArenaAnswer::Refused(Refusal::Stale)),
    (
        ArenaCall::Take(8, 0, Live::Ready),
        ArenaAnswer::Ticket(0, 2),
    ),
    (ArenaCall::Retire(0), ArenaAnswer::Refused(Refusal::Stale)),
    (ArenaCall::Retire(1), ArenaAnswer::Record(8)),
    (
        ArenaCall::Take(9, 0, Live::Ready),
        ArenaAnswer::Back(Refusal::Full, 9),
    ),
    (
        ArenaCall::Slots(On::Worn),
        ArenaAnswer::Slots([0, END, END, END]),
    ),
    (ArenaCall::Retire(0), ArenaAnswer::Refused(Refusal::Stale)),
];

#[test]
fn worn_slot(rt: HostRuntime) {
    assert_answers(&rt, rt.alloc(), 1, 2, WORN);
}

// The request that is named leaves, not the oldest.
const NAMED: &[ArenaRow] = &[
    (
        ArenaCall::Take(10, 1, Live::Done),
        ArenaAnswer::Ticket(0, 1),
    ),
    (
        ArenaCall::Take(11, 1, Live::Done),
        ArenaAnswer::Ticket(1, 1),
    ),
    (
        ArenaCall::Take(12, 1, Live::Done),
        ArenaAnswer::Ticket(2, 1),
    ),
    (
        ArenaCall::Slots(ON_DONE),
        ArenaAnswer::Slots([0, 1, 2, END]),
    ),
    (ArenaCall::Retire(1), ArenaAnswer::Record(11)),
    (
        ArenaCall::Slots(ON_DONE),
        ArenaAnswer::Slots([0, 2, END, END]),
    ),
    (
        ArenaCall::Slots(On::Free),
        ArenaAnswer::Slots([3, 1, END, END]),
    ),
];

#[test]
fn retire_the_named(rt: HostRuntime) {
    assert_answers(&rt, rt.alloc(), 4, 2, NAMED);
}

const REST: &[ArenaRow] = &[
    (
        ArenaCall::Take(10, 8, Live::Done),
        ArenaAnswer::Ticket(0, 1),
    ),
    (
        ArenaCall::Take(11, 24, Live::Done),
        ArenaAnswer::Ticket(1, 1),
    ),
    (
        ArenaCall::Take(12, 0, Live::Done),
        ArenaAnswer::Ticket(2, 1),
    ),
    (ArenaCall::Lent, ArenaAnswer::Lent(32)),
    (ArenaCall::Retire(1), ArenaAnswer::Record(11)),
    (ArenaCall::Lent, ArenaAnswer::Lent(8)),
    (
        ArenaCall::Slots(ON_DONE),
        ArenaAnswer::Slots([0, 2, END, END]),
    ),
    (ArenaCall::Get(0), ArenaAnswer::Record(10)),
    (ArenaCall::Get(2), ArenaAnswer::Record(12)),
];

#[test]
fn retire_keeps_the_rest(rt: HostRuntime) {
    assert_answers(&rt, rt.alloc(), 3, 2, REST);
}

const WEARS_OUT: &[ArenaRow] = &[
    (
        ArenaCall::Take(10, 8, Live::Done),
        ArenaAnswer::Ticket(0, 1),
    ),
    (
        ArenaCall::Take(11, 24, Live::Done),
        ArenaAnswer::Ticket(1, 1),
    ),
    (
        ArenaCall::Take(12, 0, Live::Done),
        ArenaAnswer::Ticket(2, 1),
    ),
    (ArenaCall::Retire(1), ArenaAnswer::Record(11)),
    (
        ArenaCall::Slots(On::Worn),
        ArenaAnswer::Slots([1, END, END, END]),
    ),
    (
        ArenaCall::Slots(On::Free),
        ArenaAnswer::Slots([END, END, END, END]),
    ),
];

#[test]
fn retire_wears_out(rt: HostRuntime) {
    assert_answers(&rt, rt.alloc(), 3, 1, WEARS_OUT);
}

const CHANGES: &[ArenaRow] = &[
    (
        ArenaCall::Take(10, 8, Live::Done),
        ArenaAnswer::Ticket(0, 1),
    ),
    (
        ArenaCall::Take(11, 24, Live::Done),
        ArenaAnswer::Ticket(1, 1),
    ),
    (
        ArenaCall::Take(12, 0, Live::Done),
        ArenaAnswer::Ticket(2, 1),
    ),
    (ArenaCall::Set(2, 13), ArenaAnswer::Accepted),
    (ArenaCall::Get(2), ArenaAnswer::Record(13)),
    (ArenaCall::Reweigh(0, 0), ArenaAnswer::Accepted),
    (ArenaCall::Lent, ArenaAnswer::Lent(24)),
    (ArenaCall::Shift(0, Live::Done), ArenaAnswer::Accepted),
    (
        ArenaCall::Slots(ON_DONE),
        ArenaAnswer::Slots([1, 2, 0, END]),
    ),
    (ArenaCall::ShiftFront(2, Live::Done), ArenaAnswer::Accepted),
    (
        ArenaCall::Slots(ON_DONE),
        ArenaAnswer::Slots([2, 1, 0, END]),
    ),
    (
        ArenaCall::SlotsBack(ON_DONE),
        ArenaAnswer::Slots([0, 1, 2, END]),
    ),
];

#[test]
fn a_live_request_changes(rt: HostRuntime) {
    assert_answers(&rt, rt.alloc(), 3, 2, CHANGES);
}

const ASKED_FOR: &[ArenaRow] = &[
    (ArenaCall::HasFree, ArenaAnswer::Is(true)),
    (ArenaCall::First(Live::Done), ArenaAnswer::Nothing),
    (ArenaCall::TicketAt(0), ArenaAnswer::Nothing),
    (
        ArenaCall::Take(10, 8, Live::Done),
        ArenaAnswer::Ticket(0, 1),
    ),
    (ArenaCall::HasFree, ArenaAnswer::Is(false)),
    (ArenaCall::First(Live::Done), ArenaAnswer::Ticket(0, 1)),
    (ArenaCall::TicketAt(0), ArenaAnswer::Ticket(0, 1)),
    (ArenaCall::TicketAt(1), ArenaAnswer::Nothing),
    (ArenaCall::Len(ON_DONE), ArenaAnswer::Count(1)),
    (ArenaCall::Len(On::Free), ArenaAnswer::Count(0)),
    (ArenaCall::IsOn(0, Live::Done), ArenaAnswer::Is(true)),
    (ArenaCall::IsOn(0, Live::Queue), ArenaAnswer::Is(false)),
];

#[test]
fn a_request_is_asked_for(rt: HostRuntime) {
    assert_answers(&rt, rt.alloc(), 1, 1, ASKED_FOR);
}

const REPLACED: &[ArenaRow] = &[
    (
        ArenaCall::Take(10, 8, Live::Done),
        ArenaAnswer::Ticket(0, 1),
    ),
    (
        ArenaCall::Take(11, 24, Live::Done),
        ArenaAnswer::Ticket(1, 1),
    ),
    (
        ArenaCall::Replace(0, 20, Live::Ready),
        ArenaAnswer::Record(10),
    ),
    (ArenaCall::Get(0), ArenaAnswer::Record(20)),
    (ArenaCall::IsOn(0, Live::Ready), ArenaAnswer::Is(true)),
    (ArenaCall::Lent, ArenaAnswer::Lent(32)),
    (ArenaCall::Retire(0), ArenaAnswer::Record(20)),
    (
        ArenaCall::Replace(0, 21, Live::Ready),
        ArenaAnswer::Back(Refusal::Stale, 21),
    ),
];

#[test]
fn a_record_is_replaced(rt: HostRuntime) {
    assert_answers(&rt, rt.alloc(), 3, 1, REPLACED);
}

/// A record of two fields.
#[derive(Clone, Copy)]
struct TwoFields {
    steps: u32,
    bytes: u32,
}

/// Changes one field of a record by a write through `get_mut`. The other fields stay, and so does all else.
fn set_steps(arena: &mut Arena<TwoFields>, ticket: Ticket, steps: u32) -> Result<(), Refusal>
    ensures live { is_ok result ≡ names arena.old ticket }
    ensures err { OnErr result (arena.new ≡ arena.old) }
    ensures written { OnOk result
        (ForSome (record_in arena.old ticket.slot) (λ counted. arena.new ≡ rewritten arena.old ticket.slot (record { steps = steps; bytes = counted.bytes }))) }
{
    arena.get_mut(ticket)?.steps = steps;
    Ok(())
}

/// The fields of a record after one of them was changed.
fn changed(alloc: Global) -> Result<(u32, u32), Refusal> {
    let mut arena: Arena<TwoFields> = Arena::open(alloc, 1, 1, 1)?;
    let counted = TwoFields { steps: 1, bytes: 2 };
    let Ok(ticket) = arena.take(counted, 0, ListName::Ready) else {
        return Err(Refusal::Torn);
    };
    set_steps(&mut arena, ticket, 3)?;
    let counted = arena.get(ticket)?;
    Ok((counted.steps, counted.bytes))
}

#[test]
fn one_field_changes(rt: HostRuntime) {
    assert!(rt; changed(rt.alloc()) == Ok((3, 2)));
}
