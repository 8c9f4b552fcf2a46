use crate::rows::answer::CoreAnswer;
use crate::rows::call::CoreCall;
use crate::rows::setup::{ALONE, CoreSetup, PAIR};
use crate::rows::signatures::{PERSISTENT_SUM, SUM};
use crate::rows::values::UpToThree;
use crate::rows::{CoreRow, assert_answers, first_misfit};
use coll_core::Phase;
use coll_kinds::{ConfigField, Refusal, SignatureFault};

const ANOTHER_RANKS: &[CoreRow] = &[
    (CoreCall::Post(0, SUM, &[1]), CoreAnswer::Accepted),
    (
        CoreCall::Retire(1, 0),
        CoreAnswer::Refused(Refusal::NotYours),
    ),
    (
        CoreCall::Phase(1, 0),
        CoreAnswer::Refused(Refusal::NotYours),
    ),
    (CoreCall::Free(1, 0), CoreAnswer::Refused(Refusal::NotYours)),
    (
        CoreCall::Start(1, 0, &[1]),
        CoreAnswer::Back(Refusal::NotYours, 4),
    ),
    (CoreCall::Phase(0, 0), CoreAnswer::Phase(Phase::Pending)),
    (
        CoreCall::Free(0, 0),
        CoreAnswer::Refused(Refusal::NotPersistent),
    ),
];

#[test]
fn another_ranks_ticket(rt: HostRuntime) {
    assert_answers(&rt, rt.alloc(), &PAIR, ANOTHER_RANKS);
}

const ONE_SLOT: CoreSetup = CoreSetup {
    slots: 1,
    places: 2,
    wear: 1,
    ..ALONE
};

// Request 1 is never made, so its number stands for a ticket of a slot that the engine doesn't have.
const STALE_AND_FULL: &[CoreRow] = &[
    (CoreCall::Post(0, SUM, &[1]), CoreAnswer::Accepted),
    (CoreCall::Rest, CoreAnswer::Accepted),
    (
        CoreCall::Retire(0, 0),
        CoreAnswer::Outcome(0, 0, UpToThree::One(1)),
    ),
    (CoreCall::Retire(0, 0), CoreAnswer::Refused(Refusal::Stale)),
    (
        CoreCall::Post(0, SUM, &[2]),
        CoreAnswer::Back(Refusal::Full, 4),
    ),
    (CoreCall::Retire(0, 1), CoreAnswer::Refused(Refusal::Stale)),
];

#[test]
fn stale_ticket_and_full(rt: HostRuntime) {
    assert_answers(&rt, rt.alloc(), &ONE_SLOT, STALE_AND_FULL);
}

// One communicator more than an engine may have.
const SEVENTEEN: [&[u8]; 17] = [&[0]; 17];

// Setups with two fields out of their ranges, and the first of these fields, which is refused.
const FIRST_MISFITS: [(CoreSetup, ConfigField); 6] = [
    (
        CoreSetup {
            ranks: 65,
            slots: 0,
            ..PAIR
        },
        ConfigField::Ranks,
    ),
    (
        CoreSetup {
            groups: &[&[0, 0]],
            slots: 0,
            ..PAIR
        },
        ConfigField::Groups,
    ),
    (
        CoreSetup {
            slots: 0,
            places: 0,
            ..PAIR
        },
        ConfigField::Slots,
    ),
    (
        CoreSetup {
            places: 0,
            wear: 0,
            ..PAIR
        },
        ConfigField::Places,
    ),
    (
        CoreSetup {
            wear: 0,
            starts: 0,
            ..PAIR
        },
        ConfigField::Wear,
    ),
    (
        CoreSetup {
            starts: 0,
            trace: 1,
            ..PAIR
        },
        ConfigField::Starts,
    ),
];

// Setups with one field out of its range, and that field.
const LONE_MISFITS: [(CoreSetup, ConfigField); 16] = [
    (CoreSetup { ranks: 0, ..PAIR }, ConfigField::Ranks),
    (CoreSetup { ranks: 65, ..PAIR }, ConfigField::Ranks),
    (
        CoreSetup {
            groups: &[],
            ..PAIR
        },
        ConfigField::Groups,
    ),
    (
        CoreSetup {
            groups: &[&[0, 1], &[]],
            ..PAIR
        },
        ConfigField::Groups,
    ),
    (
        CoreSetup {
            groups: &[&[1, 1]],
            ..PAIR
        },
        ConfigField::Groups,
    ),
    (
        CoreSetup {
            groups: &[&[0, 2]],
            ..PAIR
        },
        ConfigField::Groups,
    ),
    (
        CoreSetup {
            groups: &SEVENTEEN,
            ..PAIR
        },
        ConfigField::Groups,
    ),
    (CoreSetup { slots: 0, ..PAIR }, ConfigField::Slots),
    (
        CoreSetup {
            slots: 4_097,
            ..PAIR
        },
        ConfigField::Slots,
    ),
    (CoreSetup { places: 0, ..PAIR }, ConfigField::Places),
    (
        CoreSetup {
            places: 65_537,
            ..PAIR
        },
        ConfigField::Places,
    ),
    (CoreSetup { wear: 0, ..PAIR }, ConfigField::Wear),
    (CoreSetup { starts: 0, ..PAIR }, ConfigField::Starts),
    (
        CoreSetup {
            starts: 1_048_577,
            ..PAIR
        },
        ConfigField::Starts,
    ),
    (CoreSetup { trace: 1, ..PAIR }, ConfigField::Trace),
    (
        CoreSetup {
            trace: 1_048_577,
            ..PAIR
        },
        ConfigField::Trace,
    ),
];

#[test]
fn bad_configs(rt: HostRuntime) {
    for (setup, field) in FIRST_MISFITS.iter().chain(LONE_MISFITS.iter()) {
        let opened = first_misfit(rt.alloc(), setup, &[]);
        assert!(rt;
            opened == Err(Refusal::BadConfig { field: *field }),
            "{field:?}"
        );
    }
}

const WITH_ONE: CoreSetup = CoreSetup {
    groups: &[&[0, 1], &[0]],
    ..PAIR
};

const BAD_COMM: Refusal = Refusal::BadComm { comm: 2 };

const NOT_MEMBER: Refusal = Refusal::NotMember { rank: 1 };

const BAD_MODE: Refusal = Refusal::BadSignature {
    cause: SignatureFault::Mode,
};

const BAD_GROUP: Refusal = Refusal::BadSignature {
    cause: SignatureFault::Group,
};

const TOO_SHORT: Refusal = Refusal::BadLength { want: 4, got: 3 };

const TOO_LONG: Refusal = Refusal::BadLength { want: 4, got: 8 };

const OFFERS: &[CoreRow] = &[
    (
        CoreCall::Offer(0, 2, (SUM, 2, 0), &[1]),
        CoreAnswer::Back(BAD_COMM, 4),
    ),
    (
        CoreCall::Offer(1, 1, (SUM, 2, 1), &[1]),
        CoreAnswer::Back(NOT_MEMBER, 4),
    ),
    (
        CoreCall::Post(0, PERSISTENT_SUM, &[1]),
        CoreAnswer::Back(BAD_MODE, 4),
    ),
    (CoreCall::Init(0, SUM), CoreAnswer::Refused(BAD_MODE)),
    (
        CoreCall::Offer(0, 0, (SUM, 3, 0), &[1]),
        CoreAnswer::Back(BAD_GROUP, 4),
    ),
    (
        CoreCall::Offer(0, 0, (SUM, 2, 1), &[1]),
        CoreAnswer::Back(BAD_GROUP, 4),
    ),
    (
        CoreCall::PostBytes(0, SUM, 3),
        CoreAnswer::Back(TOO_SHORT, 3),
    ),
    (
        CoreCall::Post(0, SUM, &[1, 2]),
        CoreAnswer::Back(TOO_LONG, 8),
    ),
    (CoreCall::Lent, CoreAnswer::Lent(0)),
    (CoreCall::Quiet, CoreAnswer::Quiet(true)),
];

#[test]
fn bad_offers(rt: HostRuntime) {
    assert_answers(&rt, rt.alloc(), &WITH_ONE, OFFERS);
}
