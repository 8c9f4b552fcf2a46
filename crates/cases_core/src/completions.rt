//! The completion calls of one request and of lists: each answer is compared with the one that must come.
//!
//! | Module | Has |
//! |---|---|
//! | `making` | an engine with the requests that rows ask for |
//! | `asking` | the calls of the rows, with their answers in short |

mod asking;
mod making;

use asking::{CompletionAnswer, CompletionCall, ask};
use coll_kinds::Refusal;
use making::{Holder, far_all, make_all, open};
use std::alloc::Global;
use std::process::Abort;

/// A call over a list, its answer, the outcomes or bytes that it notes, and how far the requests are after it.
type CompletionRow = (
    CompletionCall,
    &'static [Holder],
    CompletionAnswer,
    &'static [(usize, u8)],
    &'static [Holder],
);

/// Whether a call gives its answer, notes what it must, and leaves the requests as it must.
fn holds(alloc: Global, (call, list, want, noted, after): &CompletionRow) -> Result<bool, Refusal> {
    let mut core = open(alloc)?;
    let mut requests = make_all(alloc, &mut core, list)?;
    let mut told = Vec::new(alloc);
    let answer = ask(alloc, &mut core, *call, &mut requests, &mut told)?;
    let left = far_all(alloc, &core, &requests)?;
    Ok(answer == *want && told.as_slice() == *noted && left.as_slice() == *after)
}

/// Ends the test if a call does otherwise.
fn assert_rows(rt: &impl Abort, alloc: Global, rows: &[CompletionRow]) {
    for (index, row) in rows.iter().enumerate() {
        assert!(rt; holds(alloc, row) == Ok(true), "row {index}");
    }
}

const INACTIVE: &[Holder] = &[Holder::Null, Holder::Idle];

const OVER_INACTIVE: &[CompletionRow] = &[
    (
        CompletionCall::Some,
        &[Holder::Null, Holder::Idle, Holder::Pending],
        CompletionAnswer::Count(Some(0)),
        &[],
        &[Holder::Null, Holder::Idle, Holder::Pending],
    ),
    (
        CompletionCall::Some,
        INACTIVE,
        CompletionAnswer::Count(None),
        &[],
        INACTIVE,
    ),
];

#[test]
fn some_over_inactive(rt: HostRuntime) {
    assert_rows(&rt, rt.alloc(), OVER_INACTIVE);
}

const SOME_DONE: &[CompletionRow] = &[(
    CompletionCall::Some,
    &[
        Holder::Done,
        Holder::Pending,
        Holder::Null,
        Holder::Restarted,
    ],
    CompletionAnswer::Count(Some(2)),
    &[(0, 10), (3, 13)],
    &[Holder::Null, Holder::Pending, Holder::Null, Holder::Idle],
)];

#[test]
fn some_are_done(rt: HostRuntime) {
    assert_rows(&rt, rt.alloc(), SOME_DONE);
}

const PARTLY_DONE: &[Holder] = &[Holder::Done, Holder::Pending];

const REST_LEFT: &[CompletionRow] = &[
    (
        CompletionCall::Any,
        &[Holder::Null, Holder::Done, Holder::Done],
        CompletionAnswer::At(1),
        &[(1, 11)],
        &[Holder::Null, Holder::Null, Holder::Done],
    ),
    (
        CompletionCall::All,
        PARTLY_DONE,
        CompletionAnswer::Flag(false),
        &[],
        PARTLY_DONE,
    ),
];

#[test]
fn any_and_all_leave_the_rest(rt: HostRuntime) {
    assert_rows(&rt, rt.alloc(), REST_LEFT);
}

const NOT_DONE: &[Holder] = &[Holder::Pending, Holder::Idle];

const NONE_DONE: &[CompletionRow] = &[
    (
        CompletionCall::Any,
        NOT_DONE,
        CompletionAnswer::Unfinished,
        &[],
        NOT_DONE,
    ),
    (
        CompletionCall::Any,
        INACTIVE,
        CompletionAnswer::Undefined,
        &[],
        INACTIVE,
    ),
];

#[test]
fn any_of_none(rt: HostRuntime) {
    assert_rows(&rt, rt.alloc(), NONE_DONE);
}

const NULL: &[Holder] = &[Holder::Null];

const ALL_DONE: &[CompletionRow] = &[
    (
        CompletionCall::All,
        &[Holder::Restarted, Holder::Null, Holder::Idle, Holder::Done],
        CompletionAnswer::Flag(true),
        &[(0, 10), (3, 13)],
        &[Holder::Idle, Holder::Null, Holder::Idle, Holder::Null],
    ),
    (
        CompletionCall::All,
        NULL,
        CompletionAnswer::Flag(true),
        &[],
        NULL,
    ),
];

#[test]
fn all_are_done(rt: HostRuntime) {
    assert_rows(&rt, rt.alloc(), ALL_DONE);
}

const NOT_YOURS: CompletionAnswer = CompletionAnswer::Refused(Refusal::NotYours);

const BAD: &[Holder] = &[Holder::Foreign, Holder::Stale];

const BAD_LISTS: &[CompletionRow] = &[
    (CompletionCall::Any, BAD, NOT_YOURS, &[], BAD),
    (CompletionCall::All, BAD, NOT_YOURS, &[], BAD),
    (CompletionCall::Some, BAD, NOT_YOURS, &[], BAD),
    (
        CompletionCall::Start,
        BAD,
        CompletionAnswer::Halted(0, Refusal::NotYours),
        &[(0, 1), (1, 2)],
        BAD,
    ),
];

#[test]
fn bad_lists(rt: HostRuntime) {
    assert_rows(&rt, rt.alloc(), BAD_LISTS);
}

const FOREIGN: &[Holder] = &[Holder::Foreign];

const ANOTHER_RANKS: &[CompletionRow] = &[
    (CompletionCall::Test, FOREIGN, NOT_YOURS, &[], FOREIGN),
    (CompletionCall::Free, FOREIGN, NOT_YOURS, &[], FOREIGN),
];

#[test]
fn another_ranks_ticket(rt: HostRuntime) {
    assert_rows(&rt, rt.alloc(), ANOTHER_RANKS);
}

const ONE_NULL: &[CompletionRow] = &[
    (
        CompletionCall::Free,
        NULL,
        CompletionAnswer::Refused(Refusal::Stale),
        &[],
        NULL,
    ),
    (
        CompletionCall::Test,
        NULL,
        CompletionAnswer::Flag(true),
        &[],
        NULL,
    ),
];

#[test]
fn one_null(rt: HostRuntime) {
    assert_rows(&rt, rt.alloc(), ONE_NULL);
}

const ONE: &[CompletionRow] = &[
    (
        CompletionCall::Test,
        &[Holder::Done],
        CompletionAnswer::Flag(true),
        &[(0, 10)],
        NULL,
    ),
    (
        CompletionCall::Free,
        &[Holder::Idle],
        CompletionAnswer::Ok,
        &[],
        NULL,
    ),
];

#[test]
fn one_request(rt: HostRuntime) {
    assert_rows(&rt, rt.alloc(), ONE);
}

const STARTED: &[Holder] = &[Holder::Pending, Holder::Pending];

const STARTS: &[CompletionRow] = &[
    (
        CompletionCall::Start,
        &[Holder::Idle, Holder::Pending],
        CompletionAnswer::Halted(1, Refusal::NotPersistent),
        &[(0, 0), (1, 2)],
        STARTED,
    ),
    (
        CompletionCall::Start,
        &[Holder::Idle, Holder::Idle],
        CompletionAnswer::Ok,
        &[],
        STARTED,
    ),
];

#[test]
fn start_all_halts(rt: HostRuntime) {
    assert_rows(&rt, rt.alloc(), STARTS);
}
