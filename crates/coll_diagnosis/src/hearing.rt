//! From which members a schedule hears.

ghost use Rattle.std.specs.Prelude.{◌≡◌, ◌≤◌, ◌==◌, map, IfOk, slice_get};
ghost use Rattle.std.specs.List.{range_with_len};
ghost use Rattle.coll_sched.specs.Common.{actions_at};
ghost use Rattle.coll_plans.specs.Plans.{family};
ghost use Rattle.coll_plans.specs.Hearings.{hears_from};
ghost use Rattle.coll_diagnosis.specs.Hearings.{ArePlans, AreRows, AreRowsAfter, IsHearing, bit, hears_in, hears_now, rounds_in};

use coll_kinds::{Refusal, Signature};
use coll_plans::{Plan, plan};
use coll_sched::Action;
use std::alloc::{AllocError, Global};

/// For each of `n` members, of each member whether it has heard from that one at the end of its schedule, directly or by way of
/// others; from itself it has. Its part of the collective is done once they have joined, and not before. The cost is linear in
/// `n` and in the actions of all members' schedules.
pub(crate) fn heard(alloc: Global, sig: Signature, n: u8) -> Result<Vec<Vec<bool>>, Refusal>
    requires { n ≤ 64 }
    ensures { IfOk result (λ rows. IsHearing sig n rows.items) }
{
    let plans = plans(alloc, sig, n)?;
    let mut rows = alone(alloc, n)?;
    for round in 0..round_count(&plans) {
        rows = after_round(alloc, &plans, round, &rows)?;
    }
    Ok(rows)
}

/// The plan of each of `n` members.
fn plans(alloc: Global, sig: Signature, n: u8) -> Result<Vec<Plan>, Refusal>
    requires { n ≤ 64 }
    ensures { IfOk result (λ plans. ArePlans sig n plans.items) }
{
    let mut plans = Vec::new(alloc);
    for member in 0..n {
        plans.push(plan(alloc, sig, n, member)?)?;
    }
    Ok(plans)
}

/// For each of `n` members, that it has heard from itself alone.
fn alone(alloc: Global, n: u8) -> Result<Vec<Vec<bool>>, AllocError>
    ensures { IfOk result (λ rows. AreRows n (λ r p. p == r) rows.items) }
{
    let mut rows = Vec::new(alloc);
    for member in 0..n {
        rows.push(own_row(alloc, n, member)?)?;
    }
    Ok(rows)
}

fn own_row(alloc: Global, n: u8, member: u8) -> Result<Vec<bool>, AllocError>
    ensures { IfOk result (λ row. row.items ≡ map (λ p. p == member) (range_with_len 0 n)) }
{
    (0..n).map(|other| other == member).collect(alloc)
}

/// The number of rounds, which all members' schedules have in common.
fn round_count(plans: &[Plan]) -> usize
    ensures { result ≡ rounds_in (slice_get plans.now 0) }
{
    match plans.first() {
        Some(plan) => plan.schedule().rounds().len(),
        None => 0,
    }
}

/// The rows after the round. `before` has those before it.
fn after_round(
    alloc: Global,
    plans: &[Plan],
    round: usize,
    before: &[Vec<bool>],
) -> Result<Vec<Vec<bool>>, AllocError>
    ensures { IfOk result (λ rows. AreRowsAfter plans.now round before.now rows.items) }
{
    let mut rows = Vec::new(alloc);
    for member in 0..plans.len() {
        let row = row_after(alloc, &plans[member], plans.len(), round, before)?;
        rows.push(row)?;
    }
    Ok(rows)
}

/// A member's row after the round, of `n`.
fn row_after(
    alloc: Global,
    plan: &Plan,
    n: usize,
    round: usize,
    before: &[Vec<bool>],
) -> Result<Vec<bool>, AllocError>
    ensures { IfOk result (λ row. row.items ≡ map (hears_now plan.now round before.now) (range_with_len 0 n)) }
{
    (0..n)
        .map(|other| hears_now(plan, round, before, other))
        .collect(alloc)
}

/// Whether a member has heard from another after the round.
fn hears_now(plan: &Plan, round: usize, before: &[Vec<bool>], other: usize) -> bool
    ensures { result ≡ hears_now plan.now round before.now other }
{
    has_heard(before, usize::from(plan.member()), other) || hears_in(plan, round, before, other)
}

/// Whether a sender of a message that the member receives in the round had heard from the other before.
fn hears_in(plan: &Plan, round: usize, before: &[Vec<bool>], other: usize) -> bool
    ensures { result ≡ hears_in plan.now round before.now other }
{
    actions_in(plan, round)
        .iter()
        .any(|action| hears_from(action, before, other))
}

/// The member's actions in the round.
fn actions_in(plan: &Plan, round: usize) -> &[Action]
    ensures { result.now ≡ actions_at (family plan.now.sig plan.now.n) round plan.now.member }
{
    match plan.schedule().rounds().get(round) {
        Some(actions) => actions.actions(),
        None => &[],
    }
}

fn hears_from(action: &Action, before: &[Vec<bool>], other: usize) -> bool
    ensures { result ≡ hears_from (λ q. bit before.now q other) action.now }
{
    match action {
        Action::Recv { of, .. } => has_heard(before, usize::from(*of), other),
        Action::Send { .. } | Action::Copy { .. } | Action::Combine { .. } => false,
    }
}

/// Whether the member has heard from the other, by these rows.
fn has_heard(rows: &[Vec<bool>], member: usize, other: usize) -> bool
    ensures { result ≡ bit rows.now member other }
{
    match rows.get(member) {
        Some(row) => match row.get(other) {
            Some(has_heard) => *has_heard,
            None => false,
        },
        None => false,
    }
}
