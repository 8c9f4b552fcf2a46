use crate::rows::answer::CoreAnswer;
use crate::rows::call::CoreCall;
use crate::rows::setup::PAIR;
use crate::rows::signatures::{LONG_MAX, LONG_SUM, MAX, SUM};
use crate::rows::values::UpToThree;
use crate::rows::{CoreRow, assert_answers};
use coll_core::Phase;
use coll_kinds::{Refusal, Signature};

const OUT: CoreAnswer = CoreAnswer::Out(UpToThree::One(1), UpToThree::One(2));

// A combination that is handed out holds up its own request alone.
const BESIDE_RUNNING: &[CoreRow] = &[
    (CoreCall::Post(0, SUM, &[1]), CoreAnswer::Accepted),
    (CoreCall::Post(1, SUM, &[2]), CoreAnswer::Accepted),
    (CoreCall::StepsToWork, OUT),
    (CoreCall::Rest, CoreAnswer::Accepted),
    (CoreCall::Phase(0, 0), CoreAnswer::Phase(Phase::Done)),
    (CoreCall::Phase(1, 1), CoreAnswer::Phase(Phase::Pending)),
    (CoreCall::Quiet, CoreAnswer::Quiet(false)),
    (CoreCall::Commit, CoreAnswer::Finished),
    (CoreCall::Rest, CoreAnswer::Accepted),
    (CoreCall::Quiet, CoreAnswer::Quiet(true)),
    (CoreCall::Phase(0, 0), CoreAnswer::Phase(Phase::Done)),
    (CoreCall::Phase(1, 1), CoreAnswer::Phase(Phase::Done)),
];

#[test]
fn settle_beside_running(rt: HostRuntime) {
    assert_answers(&rt, rt.alloc(), &PAIR, BESIDE_RUNNING);
}

// An abandoned combination is handed out again by the next step.
const ABANDONED: &[CoreRow] = &[
    (CoreCall::Post(0, SUM, &[1]), CoreAnswer::Accepted),
    (CoreCall::Post(1, SUM, &[2]), CoreAnswer::Accepted),
    (CoreCall::StepsToWork, OUT),
    (CoreCall::Abandon, CoreAnswer::Accepted),
    (CoreCall::Lent, CoreAnswer::Lent(16)),
    (CoreCall::Step, OUT),
    (CoreCall::Commit, CoreAnswer::Finished),
    (CoreCall::Rest, CoreAnswer::Accepted),
    (
        CoreCall::Retire(0, 0),
        CoreAnswer::Outcome(0, 0, UpToThree::One(3)),
    ),
    (
        CoreCall::Retire(1, 1),
        CoreAnswer::Outcome(0, 0, UpToThree::One(3)),
    ),
];

const STALE: CoreAnswer = CoreAnswer::Refused(Refusal::Stale);

// Another engine has handed out a combination of the same ticket, with another operation or another operand. What it computed
// is refused, and the engine's own work is still accepted.
fn foreign(
    sum: Signature,
    max: Signature,
    operands: [UpToThree; 2],
    value: UpToThree,
) -> [CoreRow; 16] {
    let [left, right] = operands;
    [
        (CoreCall::PostEqual(0, sum, 1), CoreAnswer::Accepted),
        (CoreCall::PostEqual(1, sum, 2), CoreAnswer::Accepted),
        (CoreCall::StepsToWork, CoreAnswer::Out(left, right)),
        (CoreCall::CommitForeign(max, [1, 2]), STALE),
        (CoreCall::CommitForeign(sum, [3, 2]), STALE),
        (CoreCall::CommitForeign(sum, [1, 3]), STALE),
        (CoreCall::AbandonForeign(max, [1, 2]), STALE),
        (CoreCall::AbandonForeign(sum, [1, 3]), STALE),
        (CoreCall::Quiet, CoreAnswer::Quiet(false)),
        (CoreCall::Rest, CoreAnswer::Accepted),
        (CoreCall::Phase(1, 1), CoreAnswer::Phase(Phase::Pending)),
        (CoreCall::Lent, CoreAnswer::Lent(u64::from(sum.count) * 16)),
        (CoreCall::Commit, CoreAnswer::Finished),
        (CoreCall::Quiet, CoreAnswer::Quiet(true)),
        (CoreCall::Retire(0, 0), CoreAnswer::Outcome(0, 0, value)),
        (CoreCall::Retire(1, 1), CoreAnswer::Outcome(0, 0, value)),
    ]
}

// A combination is accepted once.
const SPENT: &[CoreRow] = &[
    (CoreCall::Post(0, SUM, &[1]), CoreAnswer::Accepted),
    (CoreCall::Post(1, SUM, &[2]), CoreAnswer::Accepted),
    (CoreCall::AbandonForeign(SUM, [1, 2]), STALE),
    (CoreCall::StepsToWork, OUT),
    (CoreCall::Commit, CoreAnswer::Finished),
    (CoreCall::AbandonForeign(SUM, [1, 2]), STALE),
    (CoreCall::CommitForeign(SUM, [1, 2]), STALE),
];

#[test]
fn abandoned_and_foreign_work(rt: HostRuntime) {
    assert_answers(&rt, rt.alloc(), &PAIR, ABANDONED);
    assert_answers(&rt, rt.alloc(), &PAIR, SPENT);
    let few = UpToThree::One(3);
    let rows = foreign(SUM, MAX, [UpToThree::One(1), UpToThree::One(2)], few);
    assert_answers(&rt, rt.alloc(), &PAIR, &rows);
    let many = UpToThree::Other(65_536);
    let rows = foreign(LONG_SUM, LONG_MAX, [many, many], many);
    assert_answers(&rt, rt.alloc(), &PAIR, &rows);
}
