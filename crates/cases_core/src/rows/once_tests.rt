use crate::rows::answer::CoreAnswer;
use crate::rows::call::CoreCall;
use crate::rows::setup::{FIVE, PAIR, THREE};
use crate::rows::signatures::{BARRIER, BCAST, LAST, SUM, SUM_OF_THREE};
use crate::rows::values::UpToThree;
use crate::rows::{CoreRow, assert_answers};
use coll_core::Phase;
use coll_kinds::{Datatype, Kind, Mode, Refusal};

// The refusal names the lowest member that has the place; the bytes come back, and no place was taken.
const MISMATCH: &[CoreRow] = &[
    (CoreCall::Post(0, BCAST, &[7]), CoreAnswer::Accepted),
    (
        CoreCall::Post(1, SUM, &[1]),
        CoreAnswer::Back(FIRST_BCASTS, 4),
    ),
    (CoreCall::Post(1, BCAST, &[]), CoreAnswer::Accepted),
    (CoreCall::Rest, CoreAnswer::Accepted),
    (
        CoreCall::Retire(1, 1),
        CoreAnswer::Outcome(0, 0, UpToThree::One(7)),
    ),
];

const FIRST_BCASTS: Refusal = Refusal::Mismatch {
    place: 0,
    first: 0,
    kind: Kind::Bcast,
    mode: Mode::Once,
    root: 0,
    op: None,
    ty: Datatype::I32,
    count: 1,
};

#[test]
fn mismatch_names_the_first(rt: HostRuntime) {
    assert_answers(&rt, rt.alloc(), &PAIR, MISMATCH);
}

// What the root gave is kept after the root has left.
const LATE_MEMBER: &[CoreRow] = &[
    (CoreCall::Post(0, BCAST, &[7]), CoreAnswer::Accepted),
    (CoreCall::Rest, CoreAnswer::Accepted),
    (
        CoreCall::Retire(0, 0),
        CoreAnswer::Outcome(0, 0, UpToThree::One(7)),
    ),
    (CoreCall::Post(1, BCAST, &[]), CoreAnswer::Accepted),
    (CoreCall::Rest, CoreAnswer::Accepted),
    (
        CoreCall::Retire(1, 1),
        CoreAnswer::Outcome(0, 0, UpToThree::One(7)),
    ),
];

#[test]
fn late_member_gets_its_bcast(rt: HostRuntime) {
    assert_answers(&rt, rt.alloc(), &PAIR, LATE_MEMBER);
}

const BARRIER_OF_THREE: &[CoreRow] = &[
    (CoreCall::Post(0, BARRIER, &[]), CoreAnswer::Accepted),
    (CoreCall::Post(1, BARRIER, &[]), CoreAnswer::Accepted),
    (CoreCall::Settle, CoreAnswer::Settled(4)),
    (CoreCall::Phase(0, 0), CoreAnswer::Phase(Phase::Pending)),
    (CoreCall::Phase(1, 1), CoreAnswer::Phase(Phase::Pending)),
    (CoreCall::Post(2, BARRIER, &[]), CoreAnswer::Accepted),
    (CoreCall::Settle, CoreAnswer::Settled(8)),
    (CoreCall::Phase(0, 0), CoreAnswer::Phase(Phase::Done)),
    (CoreCall::Phase(1, 1), CoreAnswer::Phase(Phase::Done)),
    (CoreCall::Phase(2, 2), CoreAnswer::Phase(Phase::Done)),
    (
        CoreCall::Retire(2, 2),
        CoreAnswer::Outcome(0, 0, UpToThree::Empty),
    ),
];

#[test]
fn barrier_waits_for_all(rt: HostRuntime) {
    assert_answers(&rt, rt.alloc(), &THREE, BARRIER_OF_THREE);
}

const MOVED: CoreRow = (CoreCall::Step, CoreAnswer::Moved);

// Once rank 2 is there, each request has its last action to do, and the requests are Done in the order of their posts.
const STEPS_OF_BARRIER: &[CoreRow] = &[
    (CoreCall::Post(0, BARRIER, &[]), CoreAnswer::Accepted),
    (CoreCall::Post(1, BARRIER, &[]), CoreAnswer::Accepted),
    MOVED,
    MOVED,
    MOVED,
    MOVED,
    (CoreCall::Step, CoreAnswer::Still),
    (CoreCall::Post(2, BARRIER, &[]), CoreAnswer::Accepted),
    MOVED,
    MOVED,
    MOVED,
    MOVED,
    MOVED,
    (CoreCall::Phase(0, 0), CoreAnswer::Phase(Phase::Pending)),
    (CoreCall::Step, CoreAnswer::Finished),
    (CoreCall::Phase(0, 0), CoreAnswer::Phase(Phase::Done)),
    (CoreCall::Phase(1, 1), CoreAnswer::Phase(Phase::Pending)),
    (CoreCall::Step, CoreAnswer::Finished),
    (CoreCall::Phase(1, 1), CoreAnswer::Phase(Phase::Done)),
    (CoreCall::Phase(2, 2), CoreAnswer::Phase(Phase::Pending)),
    (CoreCall::Step, CoreAnswer::Finished),
    (CoreCall::Phase(2, 2), CoreAnswer::Phase(Phase::Done)),
    (CoreCall::Step, CoreAnswer::Still),
];

#[test]
fn barrier_by_steps(rt: HostRuntime) {
    assert_answers(&rt, rt.alloc(), &THREE, STEPS_OF_BARRIER);
}

// Rank 1's message wakes rank 0. On list Ready it comes after rank 1, which has rank 0's message and goes on first.
const FIRST_OF_BARRIER: &[CoreRow] = &[
    (CoreCall::Post(0, BARRIER, &[]), CoreAnswer::Accepted),
    (CoreCall::Post(1, BARRIER, &[]), CoreAnswer::Accepted),
    MOVED,
    MOVED,
    (CoreCall::Step, CoreAnswer::Finished),
    (CoreCall::Phase(0, 0), CoreAnswer::Phase(Phase::Pending)),
    (CoreCall::Phase(1, 1), CoreAnswer::Phase(Phase::Done)),
    (CoreCall::Step, CoreAnswer::Finished),
    (CoreCall::Phase(0, 0), CoreAnswer::Phase(Phase::Done)),
    (CoreCall::Step, CoreAnswer::Still),
];

#[test]
fn first_of_ready_stays_first(rt: HostRuntime) {
    assert_answers(&rt, rt.alloc(), &PAIR, FIRST_OF_BARRIER);
}

const SUMS: UpToThree = UpToThree::Three(5, 7, 9);

// Each of two members lends 12 bytes that it gives and 12 that it gets, until it has left.
const LENT: &[CoreRow] = &[
    (CoreCall::Lent, CoreAnswer::Lent(0)),
    (
        CoreCall::Post(0, SUM_OF_THREE, &[1, 2, 3]),
        CoreAnswer::Accepted,
    ),
    (CoreCall::Lent, CoreAnswer::Lent(24)),
    (
        CoreCall::Post(1, SUM_OF_THREE, &[4, 5, 6]),
        CoreAnswer::Accepted,
    ),
    (CoreCall::Lent, CoreAnswer::Lent(48)),
    (CoreCall::Rest, CoreAnswer::Accepted),
    (CoreCall::Lent, CoreAnswer::Lent(48)),
    (CoreCall::Retire(0, 0), CoreAnswer::Outcome(0, 0, SUMS)),
    (CoreCall::Lent, CoreAnswer::Lent(24)),
    (CoreCall::Retire(1, 1), CoreAnswer::Outcome(0, 0, SUMS)),
    (CoreCall::Lent, CoreAnswer::Lent(0)),
];

#[test]
fn lent_bytes(rt: HostRuntime) {
    assert_answers(&rt, rt.alloc(), &PAIR, LENT);
}

// The combination is the last value that isn't 0, in member order.
const LAST_OF_FIVE: &[CoreRow] = &[
    (CoreCall::Post(0, LAST, &[3]), CoreAnswer::Accepted),
    (CoreCall::Post(1, LAST, &[0]), CoreAnswer::Accepted),
    (CoreCall::Post(2, LAST, &[5]), CoreAnswer::Accepted),
    (CoreCall::Post(3, LAST, &[0]), CoreAnswer::Accepted),
    (CoreCall::Post(4, LAST, &[0]), CoreAnswer::Accepted),
    (CoreCall::Rest, CoreAnswer::Accepted),
    (
        CoreCall::Retire(0, 0),
        CoreAnswer::Outcome(0, 0, UpToThree::One(5)),
    ),
    (
        CoreCall::Retire(1, 1),
        CoreAnswer::Outcome(0, 0, UpToThree::One(5)),
    ),
    (
        CoreCall::Retire(2, 2),
        CoreAnswer::Outcome(0, 0, UpToThree::One(5)),
    ),
    (
        CoreCall::Retire(3, 3),
        CoreAnswer::Outcome(0, 0, UpToThree::One(5)),
    ),
    (
        CoreCall::Retire(4, 4),
        CoreAnswer::Outcome(0, 0, UpToThree::One(5)),
    ),
];

#[test]
fn lastnz_of_five(rt: HostRuntime) {
    assert_answers(&rt, rt.alloc(), &FIVE, LAST_OF_FIVE);
}
