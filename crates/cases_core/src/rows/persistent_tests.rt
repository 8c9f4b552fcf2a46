use crate::rows::answer::CoreAnswer;
use crate::rows::call::CoreCall;
use crate::rows::setup::{ALONE, CoreSetup, PAIR};
use crate::rows::signatures::{PERSISTENT_MAX, PERSISTENT_SUM};
use crate::rows::values::UpToThree;
use crate::rows::{CoreRow, assert_answers};
use coll_core::{About, Phase};
use coll_kinds::{Mode, Refusal};

const UNSTARTED: About = About {
    rank: 0,
    comm: 0,
    place: 0,
    mode: Mode::Persistent,
    starts: 0,
};

const STARTED: About = About {
    starts: 1,
    ..UNSTARTED
};

const LIFE: &[CoreRow] = &[
    (CoreCall::Init(0, PERSISTENT_SUM), CoreAnswer::Accepted),
    (CoreCall::Phase(0, 0), CoreAnswer::Phase(Phase::Idle)),
    (CoreCall::About(0), CoreAnswer::About(Some(UNSTARTED))),
    (CoreCall::Start(0, 0, &[5]), CoreAnswer::Accepted),
    (
        CoreCall::Start(0, 0, &[6]),
        CoreAnswer::Back(Refusal::Active, 4),
    ),
    (CoreCall::Free(0, 0), CoreAnswer::Refused(Refusal::Active)),
    (CoreCall::Rest, CoreAnswer::Accepted),
    (
        CoreCall::Retire(0, 0),
        CoreAnswer::Outcome(0, 0, UpToThree::One(5)),
    ),
    (CoreCall::Retire(0, 0), CoreAnswer::Unfinished),
    (CoreCall::About(0), CoreAnswer::About(Some(STARTED))),
    (CoreCall::Free(0, 0), CoreAnswer::Accepted),
    (
        CoreCall::Start(0, 0, &[7]),
        CoreAnswer::Back(Refusal::Stale, 4),
    ),
    (CoreCall::About(0), CoreAnswer::About(None)),
];

#[test]
fn persistent_life(rt: HostRuntime) {
    assert_answers(&rt, rt.alloc(), &ALONE, LIFE);
}

// Two members start two requests in different orders, three times.
const OUT_OF_ORDER: &[CoreRow] = &[
    (CoreCall::Init(0, PERSISTENT_SUM), CoreAnswer::Accepted),
    (CoreCall::Init(0, PERSISTENT_MAX), CoreAnswer::Accepted),
    (CoreCall::Init(1, PERSISTENT_SUM), CoreAnswer::Accepted),
    (CoreCall::Init(1, PERSISTENT_MAX), CoreAnswer::Accepted),
    (CoreCall::Start(0, 0, &[1]), CoreAnswer::Accepted),
    (CoreCall::Start(0, 1, &[10]), CoreAnswer::Accepted),
    (CoreCall::Start(1, 3, &[11]), CoreAnswer::Accepted),
    (CoreCall::Start(1, 2, &[4]), CoreAnswer::Accepted),
    (CoreCall::Rest, CoreAnswer::Accepted),
    (
        CoreCall::Retire(0, 0),
        CoreAnswer::Outcome(0, 0, UpToThree::One(5)),
    ),
    (
        CoreCall::Retire(0, 1),
        CoreAnswer::Outcome(1, 0, UpToThree::One(11)),
    ),
    (
        CoreCall::Retire(1, 2),
        CoreAnswer::Outcome(0, 0, UpToThree::One(5)),
    ),
    (
        CoreCall::Retire(1, 3),
        CoreAnswer::Outcome(1, 0, UpToThree::One(11)),
    ),
    (CoreCall::Start(0, 0, &[2]), CoreAnswer::Accepted),
    (CoreCall::Start(0, 1, &[20]), CoreAnswer::Accepted),
    (CoreCall::Start(1, 3, &[19]), CoreAnswer::Accepted),
    (CoreCall::Start(1, 2, &[5]), CoreAnswer::Accepted),
    (CoreCall::Rest, CoreAnswer::Accepted),
    (
        CoreCall::Retire(0, 0),
        CoreAnswer::Outcome(0, 1, UpToThree::One(7)),
    ),
    (
        CoreCall::Retire(0, 1),
        CoreAnswer::Outcome(1, 1, UpToThree::One(20)),
    ),
    (
        CoreCall::Retire(1, 2),
        CoreAnswer::Outcome(0, 1, UpToThree::One(7)),
    ),
    (
        CoreCall::Retire(1, 3),
        CoreAnswer::Outcome(1, 1, UpToThree::One(20)),
    ),
    (CoreCall::Start(0, 0, &[3]), CoreAnswer::Accepted),
    (CoreCall::Start(0, 1, &[30]), CoreAnswer::Accepted),
    (CoreCall::Start(1, 3, &[31]), CoreAnswer::Accepted),
    (CoreCall::Start(1, 2, &[6]), CoreAnswer::Accepted),
    (CoreCall::Rest, CoreAnswer::Accepted),
    (
        CoreCall::Retire(0, 0),
        CoreAnswer::Outcome(0, 2, UpToThree::One(9)),
    ),
    (
        CoreCall::Retire(0, 1),
        CoreAnswer::Outcome(1, 2, UpToThree::One(31)),
    ),
    (
        CoreCall::Retire(1, 2),
        CoreAnswer::Outcome(0, 2, UpToThree::One(9)),
    ),
    (
        CoreCall::Retire(1, 3),
        CoreAnswer::Outcome(1, 2, UpToThree::One(31)),
    ),
];

#[test]
fn starts_out_of_order(rt: HostRuntime) {
    assert_answers(&rt, rt.alloc(), &PAIR, OUT_OF_ORDER);
}

// A member starts again before the other has left the start before.
const OVERLAP: &[CoreRow] = &[
    (CoreCall::Init(0, PERSISTENT_SUM), CoreAnswer::Accepted),
    (CoreCall::Init(1, PERSISTENT_SUM), CoreAnswer::Accepted),
    (CoreCall::Start(0, 0, &[1]), CoreAnswer::Accepted),
    (CoreCall::Start(1, 1, &[2]), CoreAnswer::Accepted),
    (CoreCall::Rest, CoreAnswer::Accepted),
    (
        CoreCall::Retire(0, 0),
        CoreAnswer::Outcome(0, 0, UpToThree::One(3)),
    ),
    (CoreCall::Start(0, 0, &[10]), CoreAnswer::Accepted),
    (
        CoreCall::Retire(1, 1),
        CoreAnswer::Outcome(0, 0, UpToThree::One(3)),
    ),
    (CoreCall::Start(1, 1, &[20]), CoreAnswer::Accepted),
    (CoreCall::Rest, CoreAnswer::Accepted),
    (
        CoreCall::Retire(0, 0),
        CoreAnswer::Outcome(0, 1, UpToThree::One(30)),
    ),
    (
        CoreCall::Retire(1, 1),
        CoreAnswer::Outcome(0, 1, UpToThree::One(30)),
    ),
];

#[test]
fn starts_overlap(rt: HostRuntime) {
    assert_answers(&rt, rt.alloc(), &PAIR, OVERLAP);
}

const ONE_PLACE: CoreSetup = CoreSetup { places: 1, ..ALONE };

// A place isn't given back by a free.
const PLACES: &[CoreRow] = &[
    (CoreCall::Init(0, PERSISTENT_SUM), CoreAnswer::Accepted),
    (CoreCall::Free(0, 0), CoreAnswer::Accepted),
    (
        CoreCall::Init(0, PERSISTENT_SUM),
        CoreAnswer::Refused(Refusal::PlacesUsed),
    ),
];

const ONE_START: CoreSetup = CoreSetup { starts: 1, ..ALONE };

const STARTS: &[CoreRow] = &[
    (CoreCall::Init(0, PERSISTENT_SUM), CoreAnswer::Accepted),
    (CoreCall::Start(0, 0, &[5]), CoreAnswer::Accepted),
    (CoreCall::Rest, CoreAnswer::Accepted),
    (
        CoreCall::Retire(0, 0),
        CoreAnswer::Outcome(0, 0, UpToThree::One(5)),
    ),
    (
        CoreCall::Start(0, 0, &[6]),
        CoreAnswer::Back(Refusal::StartsUsed, 4),
    ),
];

#[test]
fn places_and_starts_run_out(rt: HostRuntime) {
    assert_answers(&rt, rt.alloc(), &ONE_PLACE, PLACES);
    assert_answers(&rt, rt.alloc(), &ONE_START, STARTS);
}
