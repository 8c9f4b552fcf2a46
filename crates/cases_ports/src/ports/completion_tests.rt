//! Each completion call of a port: what it completes, and that it doesn't sleep if no rank can go on.

use crate::ports::answer::PortAnswer;
use crate::ports::call::{ListCall, PortCall};
use crate::ports::noted::{OutcomeBytes, Outcomes};
use crate::ports::setup::{ALONE, BOTH, LONE, PortSetup, TWO_GROUPS};
use crate::ports::{PortRow, assert_answers};
use crate::signatures::{SUM, SUM_OF_I32};
use coll_kinds::Refusal;

// A null request, and two that are Done since a later one was completed.
const DONE: &[PortRow] = &[
    (PortCall::Finish, PortAnswer::Ended(1, 0)),
    (PortCall::Null, PortAnswer::Accepted),
    (PortCall::Post(0, ALONE, SUM, &[10]), PortAnswer::Accepted),
    (PortCall::Post(0, ALONE, SUM, &[11]), PortAnswer::Accepted),
    (
        PortCall::PostAndWait(ALONE, SUM, &[12]),
        PortAnswer::Outcome(OutcomeBytes::One(12)),
    ),
    (PortCall::Made(0), PortAnswer::Made(0, 4)),
];

const TEN: OutcomeBytes = OutcomeBytes::One(10);

const FIRST: Outcomes = Outcomes::One(1, TEN);

const ALL: Outcomes = Outcomes::Two((1, TEN), (2, OutcomeBytes::One(11)));

// A call with its answer, the number of requests that it leaves, and the number of entries that the port has made after it: one
// more for each outcome.
const COMPLETIONS: &[(PortCall, PortAnswer, usize, u64)] = &[
    (PortCall::Test(0, 1), PortAnswer::Flag(true, FIRST), 1, 5),
    (PortCall::Wait(0, 1), PortAnswer::Outcome(TEN), 1, 5),
    (
        PortCall::Over(ListCall::TestAny),
        PortAnswer::At(1, TEN),
        1,
        5,
    ),
    (
        PortCall::Over(ListCall::WaitAny),
        PortAnswer::At(1, TEN),
        1,
        5,
    ),
    (
        PortCall::Over(ListCall::TestAll),
        PortAnswer::Flag(true, ALL),
        0,
        6,
    ),
    (
        PortCall::Over(ListCall::WaitAll),
        PortAnswer::Flag(true, ALL),
        0,
        6,
    ),
    (
        PortCall::Over(ListCall::TestSome),
        PortAnswer::Count(Some(2), ALL),
        0,
        6,
    ),
    (
        PortCall::Over(ListCall::WaitSome),
        PortAnswer::Count(Some(2), ALL),
        0,
        6,
    ),
];

#[test]
fn each_completion(rt: HostRuntime) {
    for (call, answer, left, made) in COMPLETIONS {
        let rows = [
            (*call, *answer),
            (PortCall::Left, PortAnswer::Left(*left)),
            (PortCall::Made(0), PortAnswer::Made(0, *made)),
        ];
        assert_answers(&rt, rt.alloc(), &TWO_GROUPS, &[DONE, &rows]);
    }
}

// Seven requests of a rank that is alone in its communicator, each completed by another call.
const SEVEN: &[PortRow] = &[
    (
        PortCall::Post(0, 0, SUM_OF_I32, &[1, 0, 0, 0]),
        PortAnswer::Accepted,
    ),
    (
        PortCall::Post(0, 0, SUM_OF_I32, &[2, 0, 0, 0]),
        PortAnswer::Accepted,
    ),
    (
        PortCall::Post(0, 0, SUM_OF_I32, &[3, 0, 0, 0]),
        PortAnswer::Accepted,
    ),
    (
        PortCall::Post(0, 0, SUM_OF_I32, &[4, 0, 0, 0]),
        PortAnswer::Accepted,
    ),
    (
        PortCall::Post(0, 0, SUM_OF_I32, &[5, 0, 0, 0]),
        PortAnswer::Accepted,
    ),
    (
        PortCall::Post(0, 0, SUM_OF_I32, &[6, 0, 0, 0]),
        PortAnswer::Accepted,
    ),
    (
        PortCall::Post(0, 0, SUM_OF_I32, &[7, 0, 0, 0]),
        PortAnswer::Accepted,
    ),
    (
        PortCall::OverSome(ListCall::WaitAll, 6, 1),
        PortAnswer::Flag(true, Outcomes::One(0, OutcomeBytes::Four(7, 0, 0, 0))),
    ),
    (PortCall::Left, PortAnswer::Left(6)),
    (
        PortCall::Test(0, 0),
        PortAnswer::Flag(true, Outcomes::One(0, OutcomeBytes::Four(1, 0, 0, 0))),
    ),
    (
        PortCall::OverSome(ListCall::TestAny, 1, 2),
        PortAnswer::At(0, OutcomeBytes::Four(2, 0, 0, 0)),
    ),
    (
        PortCall::OverSome(ListCall::WaitAny, 2, 2),
        PortAnswer::At(0, OutcomeBytes::Four(3, 0, 0, 0)),
    ),
    (
        PortCall::OverSome(ListCall::TestSome, 3, 1),
        PortAnswer::Count(Some(1), Outcomes::One(0, OutcomeBytes::Four(4, 0, 0, 0))),
    ),
    (
        PortCall::OverSome(ListCall::WaitSome, 4, 1),
        PortAnswer::Count(Some(1), Outcomes::One(0, OutcomeBytes::Four(5, 0, 0, 0))),
    ),
    (
        PortCall::OverSome(ListCall::TestAll, 5, 1),
        PortAnswer::Flag(true, Outcomes::One(0, OutcomeBytes::Four(6, 0, 0, 0))),
    ),
    (PortCall::Left, PortAnswer::Left(0)),
    (PortCall::Made(0), PortAnswer::Made(0, 14)),
    (PortCall::Stop, PortAnswer::Accepted),
    (PortCall::Work, PortAnswer::Worked(0)),
];

#[test]
fn every_port_completion(rt: HostRuntime) {
    let setup = PortSetup {
        slots: 7,
        trace: 14,
        ..LONE
    };
    assert_answers(&rt, rt.alloc(), &setup, &[SEVEN]);
}

// A null request, and two that wait for a rank whose port has ended.
const PENDING: &[PortRow] = &[
    (PortCall::Finish, PortAnswer::Ended(1, 0)),
    (PortCall::Null, PortAnswer::Accepted),
    (PortCall::Post(0, BOTH, SUM, &[10]), PortAnswer::Accepted),
    (PortCall::Post(0, BOTH, SUM, &[11]), PortAnswer::Accepted),
];

// Each call keeps both requests, and makes no entry.
const KEPT: &[PortRow] = &[
    (PortCall::Left, PortAnswer::Left(2)),
    (PortCall::Made(0), PortAnswer::Made(0, 2)),
];

const STALLED: PortAnswer = PortAnswer::Refused(Refusal::Stalled);

const STALLS: &[PortRow] = &[
    (
        PortCall::Test(0, 1),
        PortAnswer::Flag(false, Outcomes::Nothing),
    ),
    (PortCall::Over(ListCall::TestAny), PortAnswer::Unfinished),
    (
        PortCall::Over(ListCall::TestAll),
        PortAnswer::Flag(false, Outcomes::Nothing),
    ),
    (
        PortCall::Over(ListCall::TestSome),
        PortAnswer::Count(Some(0), Outcomes::Nothing),
    ),
    (PortCall::Wait(0, 1), STALLED),
    (PortCall::Over(ListCall::WaitAny), STALLED),
    (PortCall::Over(ListCall::WaitAll), STALLED),
    (PortCall::Over(ListCall::WaitSome), STALLED),
];

#[test]
fn stalls_change_nothing(rt: HostRuntime) {
    for row in STALLS {
        assert_answers(&rt, rt.alloc(), &TWO_GROUPS, &[PENDING, &[*row], KEPT]);
    }
}
