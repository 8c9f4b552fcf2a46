//! Engines that are closed, and engines that can't be.

use crate::ports::answer::PortAnswer;
use crate::ports::call::PortCall;
use crate::ports::closed::Closed;
use crate::ports::noted::{OutcomeBytes, Outcomes};
use crate::ports::setup::PAIR;
use crate::ports::{PortRow, closed_after};
use crate::signatures::SUM_OF_I32;
use coll_core::Outcome;
use coll_kinds::Refusal;
use coll_report::Report;
use std::alloc::Global;
use std::rt::Clock;
use std::sync::Wait;
use std::test::Fail;

const THREE: PortAnswer = PortAnswer::Outcome(OutcomeBytes::Four(3, 0, 0, 0));

// Each rank posts its number, and each gets the sum.
const SUMS: &[PortRow] = &[
    (
        PortCall::Post(0, 0, SUM_OF_I32, &[1, 0, 0, 0]),
        PortAnswer::Accepted,
    ),
    (
        PortCall::Post(1, 0, SUM_OF_I32, &[2, 0, 0, 0]),
        PortAnswer::Accepted,
    ),
    (PortCall::Made(0), PortAnswer::Made(0, 1)),
    (PortCall::Made(1), PortAnswer::Made(1, 1)),
    (PortCall::Wait(0, 0), THREE),
    (PortCall::Made(0), PortAnswer::Made(0, 2)),
    (PortCall::Made(1), PortAnswer::Made(1, 1)),
    (PortCall::Wait(1, 1), THREE),
];

/// Whether the report attests an outcome, and not the same outcome with another byte.
fn is_attested(report: &Report, outcome: Outcome) -> bool {
    if !report.attests(&outcome) {
        return false;
    }
    let other = Outcome {
        bytes: coll_bytes::Bytes::few(&[4, 0, 0, 0]),
        ..outcome
    };
    !report.attests(&other)
}

/// How many of the outcomes are attested.
fn count_attested(report: &Report, outcomes: Vec<Outcome>) -> usize {
    let mut count = 0usize;
    for outcome in outcomes {
        if is_attested(report, outcome) {
            count = count.saturating_add(1);
        }
    }
    count
}

#[test]
fn made_and_attested(rt: HostRuntime) -> Result<(), Fail> {
    let Closed { outcomes, report } = closed_after(&rt, rt.alloc(), &PAIR, SUMS)?;
    let report = report.ok().ok_or("closed")?;
    assert!(rt; count_attested(&report, outcomes) == 2);
    assert!(rt; report.entries().len() == 4);
    Ok(())
}

/// The refusal to close an engine after these calls, and the number of ends that are handed back.
fn refusal_after<R: Wait + Clock>(
    rt: &R,
    alloc: Global,
    rows: &[PortRow],
) -> Result<Option<(Refusal, usize)>, Refusal> {
    let closed = closed_after(rt, alloc, &PAIR, rows)?;
    Ok(closed.report.err())
}

// Both ports end, after rank 1 has posted and done no more.
const POSTED: &[PortRow] = &[(
    PortCall::Post(1, 0, SUM_OF_I32, &[2, 0, 0, 0]),
    PortAnswer::Accepted,
)];

#[test]
fn close_refuses_active(rt: HostRuntime) -> Result<(), Fail> {
    let refusal = refusal_after(&rt, rt.alloc(), POSTED)?;
    assert!(rt; refusal == Some((Refusal::StillActive { rank: 1 }, 2)));
    Ok(())
}

const STALLED: PortAnswer = PortAnswer::Refused(Refusal::Stalled);

// Rank 0 waits twice for a rank whose port has ended, and keeps its request.
const STALL: &[PortRow] = &[
    (
        PortCall::Post(0, 0, SUM_OF_I32, &[1, 0, 0, 0]),
        PortAnswer::Accepted,
    ),
    (PortCall::Finish, PortAnswer::Ended(1, 0)),
    (PortCall::Wait(0, 0), STALLED),
    (PortCall::IsNull(0), PortAnswer::IsNull(false)),
    (
        PortCall::Test(0, 0),
        PortAnswer::Flag(false, Outcomes::Nothing),
    ),
    (PortCall::Wait(0, 0), STALLED),
    (PortCall::Finish, PortAnswer::Ended(0, 1)),
];

#[test]
fn stall_in_one_thread(rt: HostRuntime) -> Result<(), Fail> {
    let refusal = refusal_after(&rt, rt.alloc(), STALL)?;
    assert!(rt; refusal == Some((Refusal::StillActive { rank: 0 }, 2)));
    Ok(())
}

// The port of rank 1 doesn't end.
const UNENDED: &[PortRow] = &[(PortCall::PutAside, PortAnswer::Accepted)];

#[test]
fn close_refuses_torn(rt: HostRuntime) -> Result<(), Fail> {
    let refusal = refusal_after(&rt, rt.alloc(), UNENDED)?;
    assert!(rt; refusal == Some((Refusal::Torn, 1)));
    Ok(())
}
