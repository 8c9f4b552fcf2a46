//! A trace that fills up, and the calls for which it still has room.

use crate::ports::answer::PortAnswer;
use crate::ports::call::PortCall;
use crate::ports::noted::OutcomeBytes;
use crate::ports::setup::{LONE, PortSetup};
use crate::ports::{PortRow, assert_answers};
use crate::signatures::{BCAST_OF_TWO, PERSISTENT_BCAST_OF_TWO};
use coll_kinds::Refusal;

const BYTES: &[u8] = &[7, 9];

// A rank that is alone in its communicator gets back what it gave. Its request is gone after that.
const ONE_BCAST: &[PortRow] = &[
    (
        PortCall::Post(0, 0, BCAST_OF_TWO, BYTES),
        PortAnswer::Accepted,
    ),
    (
        PortCall::Wait(0, 0),
        PortAnswer::Outcome(OutcomeBytes::Two(7, 9)),
    ),
    (PortCall::IsNull(0), PortAnswer::IsNull(true)),
    (
        PortCall::TestTicket(0, 0),
        PortAnswer::Refused(Refusal::Stale),
    ),
    (PortCall::Finish, PortAnswer::Ended(0, 2)),
];

#[test]
fn made_and_completed(rt: HostRuntime) {
    assert_answers(&rt, rt.alloc(), &LONE, &[ONE_BCAST]);
}

// A trace of three entries has room for one persistent request, and neither for its start nor for a second request. The request
// can still be freed, and the entry of that is counted.
const FULL: &[PortRow] = &[
    (
        PortCall::Init(0, 0, PERSISTENT_BCAST_OF_TWO),
        PortAnswer::Accepted,
    ),
    (
        PortCall::Start(0, 0, BYTES),
        PortAnswer::Refused(Refusal::TraceFull),
    ),
    (
        PortCall::Post(0, 0, BCAST_OF_TWO, BYTES),
        PortAnswer::Refused(Refusal::TraceFull),
    ),
    (PortCall::Made(0), PortAnswer::Made(0, 1)),
    (PortCall::Free(0, 0), PortAnswer::Accepted),
    (PortCall::Made(0), PortAnswer::Made(0, 2)),
];

#[test]
fn trace_full_of_one_init(rt: HostRuntime) {
    let setup = PortSetup { trace: 3, ..LONE };
    assert_answers(&rt, rt.alloc(), &setup, &[FULL]);
}

// With four entries the request can be started and completed once, and still be freed.
const FULL_OF_ONE_START: &[PortRow] = &[
    (
        PortCall::Init(0, 0, PERSISTENT_BCAST_OF_TWO),
        PortAnswer::Accepted,
    ),
    (PortCall::Start(0, 0, BYTES), PortAnswer::Accepted),
    (
        PortCall::Wait(0, 0),
        PortAnswer::Outcome(OutcomeBytes::Two(7, 9)),
    ),
    (
        PortCall::Start(0, 0, BYTES),
        PortAnswer::Refused(Refusal::TraceFull),
    ),
    (PortCall::Made(0), PortAnswer::Made(0, 3)),
    (PortCall::Free(0, 0), PortAnswer::Accepted),
    (PortCall::Made(0), PortAnswer::Made(0, 4)),
];

#[test]
fn trace_full_then_free(rt: HostRuntime) {
    let setup = PortSetup { trace: 4, ..LONE };
    assert_answers(&rt, rt.alloc(), &setup, &[FULL_OF_ONE_START]);
}

const POST: PortCall = PortCall::Post(0, 0, BCAST_OF_TWO, BYTES);

const FIRST: &[PortRow] = &[(POST, PortAnswer::Accepted)];

// The number of entries and of places of an engine, and what refuses the second post of a rank that is alone.
const LIMITS: &[(u32, u32, Refusal)] = &[(2, 8, Refusal::TraceFull), (4, 1, Refusal::PlacesUsed)];

#[test]
fn trace_limit(rt: HostRuntime) {
    for (trace, places, why) in LIMITS {
        let setup = PortSetup {
            trace: *trace,
            places: *places,
            ..LONE
        };
        let second = [
            (POST, PortAnswer::Refused(*why)),
            (PortCall::Made(0), PortAnswer::Made(0, 1)),
        ];
        assert_answers(&rt, rt.alloc(), &setup, &[FIRST, &second]);
    }
}
