//! Requests of another rank: each call that names one is refused, and changes nothing.

use crate::ports::answer::PortAnswer;
use crate::ports::call::{ListCall, PortCall};
use crate::ports::noted::OutcomeBytes;
use crate::ports::setup::{ALONE, BOTH, TWO_GROUPS};
use crate::ports::{PortRow, assert_answers};
use crate::signatures::{PERSISTENT_SUM, SUM};
use coll_kinds::Refusal;

const NOT_YOURS: PortAnswer = PortAnswer::Refused(Refusal::NotYours);

// Rank 1 names a request of rank 0 that is Done, and one that is Idle.
const FOREIGN: &[PortRow] = &[
    (PortCall::Post(0, ALONE, SUM, &[10]), PortAnswer::Accepted),
    (
        PortCall::Init(0, ALONE, PERSISTENT_SUM),
        PortAnswer::Accepted,
    ),
    (PortCall::Test(1, 0), NOT_YOURS),
    (PortCall::TestTicket(1, 0), NOT_YOURS),
    (PortCall::Wait(1, 0), NOT_YOURS),
    (PortCall::Test(1, 1), NOT_YOURS),
    (PortCall::Start(1, 1, &[5]), NOT_YOURS),
    (PortCall::Free(1, 1), NOT_YOURS),
    (PortCall::Made(1), PortAnswer::Made(1, 0)),
    (PortCall::Left, PortAnswer::Left(2)),
    (
        PortCall::Wait(0, 0),
        PortAnswer::Outcome(OutcomeBytes::One(10)),
    ),
    (PortCall::Free(0, 1), PortAnswer::Accepted),
    (PortCall::Made(0), PortAnswer::Made(0, 4)),
];

#[test]
fn another_ranks_ticket(rt: HostRuntime) {
    assert_answers(&rt, rt.alloc(), &TWO_GROUPS, &[FOREIGN]);
}

// A list of rank 0 in which a request of rank 1 stands after one that is Done.
const MIXED: &[PortRow] = &[
    (PortCall::Post(0, ALONE, SUM, &[10]), PortAnswer::Accepted),
    (PortCall::Post(1, BOTH, SUM, &[20]), PortAnswer::Accepted),
];

const KEPT: &[PortRow] = &[
    (PortCall::Made(0), PortAnswer::Made(0, 1)),
    (PortCall::Left, PortAnswer::Left(2)),
    (
        PortCall::Wait(0, 0),
        PortAnswer::Outcome(OutcomeBytes::One(10)),
    ),
];

const CALLS: &[ListCall] = &[
    ListCall::TestAny,
    ListCall::WaitAny,
    ListCall::TestAll,
    ListCall::WaitAll,
    ListCall::TestSome,
    ListCall::WaitSome,
];

#[test]
fn lists_with_another_ranks_ticket(rt: HostRuntime) {
    for call in CALLS {
        let row = [(PortCall::Over(*call), NOT_YOURS)];
        assert_answers(&rt, rt.alloc(), &TWO_GROUPS, &[MIXED, &row, KEPT]);
    }
}
