ghost use Rattle.std.specs.Prelude.{◌≡◌, ◌++◌, ◌<◌, ◌≤◌, None, ℕ, Some, map, IfOk, OnOk, IsOkUnless, length, slice_get};
ghost use Rattle.std.specs.List.{list_any};
ghost use Rattle.coll_kinds.specs.Checks.{broken};
ghost use Rattle.coll_sched.specs.Schedules.{has_peer};
ghost use Rattle.coll_draw.specs.Drawings.{step_of};

use crate::step::DrawnAction;
use coll_kinds::{Refusal, Signature};
use coll_plans::{Plan, plan};
use coll_sched::Action;
use std::alloc::{AllocError, Global};
use std::marker::Model;

/// All members' plans of one collective.
#[derive(Debug, Drop)]
pub(crate) struct MemberPlans {
    sig: Signature,
    n: u8,
    plans: Vec<Plan>,
}

impl Model for MemberPlans {
    ghost use Rattle.coll_draw.specs.Code.{Collective, ArePlans};

    ghost Value = { Collective };

    ghost view = { λ p. record { sig = p.sig; n = p.n } };

    ghost invariant = { λ p. ArePlans p.sig p.n p.plans.items };
}

impl MemberPlans {
    ghost use Rattle.coll_sched.specs.Families.{actions_at, is_exchange, family_exchanges};
    ghost use Rattle.coll_plans.specs.Plans.{family};
    ghost use Rattle.coll_draw.specs.Drawings.{rounds_of, round_steps, steps};

    /// The plans of a checked signature. The only refusal is [`Refusal::NoMemory`].
    pub(crate) fn of(alloc: Global, sig: Signature, n: u8) -> Result<MemberPlans, Refusal>
        requires checked { broken sig n ≡ None }
        requires not_none { 0 < n }
        requires few { n ≤ 64 }
        ensures of { IfOk result (λ plans. plans ≡ record { sig = sig; n = n }) }
        ensures refusal { IsOkUnless result Refusal.NoMemory }
    {
        let plans = plans_of(alloc, sig, n)?;
        Ok(MemberPlans { sig, n, plans })
    }

    /// How many rounds each member's schedule has.
    pub(crate) fn round_count(&self) -> usize
        ensures { result ≡ rounds_of (family self.now.sig self.now.n) }
    {
        match self.plans.first() {
            Some(plan) => plan.schedule().rounds().len(),
            None => 0,
        }
    }

    /// The actions of a member in a round.
    fn actions(&self, round: usize, member: u8) -> &[Action]
        requires { member < self.now.n }
        ensures { result.now ≡ actions_at (family self.now.sig self.now.n) round member }
    {
        match self.plans.get(usize::from(member)) {
            Some(plan) => match plan.schedule().rounds().get(round) {
                Some(actions) => actions.actions(),
                None => &[],
            },
            None => &[],
        }
    }

    /// How many rounds have a Send or a Recv of some member.
    pub(crate) fn exchange_count(&self) -> usize
        ensures { result ≡ family_exchanges self.now.n (family self.now.sig self.now.n) }
    {
        let mut count: usize = 0;
        for round in 0..self.round_count() {
            if self.is_exchange(round) {
                count += 1;
            }
        }
        count
    }

    fn is_exchange(&self, round: usize) -> bool
        ensures { result ≡ is_exchange self.now.n (family self.now.sig self.now.n) round }
    {
        let mut found = false;
        for member in 0..self.n {
            found = found || has_exchange(self.actions(round, member));
        }
        found
    }

    /// All actions, in the order of their rounds, and within a round in the order of their members.
    pub(crate) fn steps(&self, alloc: Global) -> Result<Vec<DrawnAction>, AllocError>
        ensures { IfOk result (λ all. all.items ≡ steps self.now.n (family self.now.sig self.now.n)) }
    {
        let mut all = Vec::new(alloc);
        for round in 0..self.round_count() {
            self.push_round(round, &mut all)?;
        }
        Ok(all)
    }

    fn push_round(&self, round: usize, all: &mut Vec<DrawnAction>) -> Result<(), AllocError>
        ensures { OnOk result (all.new.items ≡ all.old.items ++ round_steps self.now.n (family self.now.sig self.now.n) round) }
    {
        for member in 0..self.n {
            push_steps(round, member, self.actions(round, member), all)?;
        }
        Ok(())
    }
}

/// The plan of each member.
fn plans_of(alloc: Global, sig: Signature, n: u8) -> Result<Vec<Plan>, Refusal>
    requires checked { broken sig n ≡ None }
    requires few { n ≤ 64 }
    ensures each { IfOk result (λ plans. (r : ℕ) → r < n → slice_get plans.items r ≡ Some (record { sig = sig; n = n; member = r })) }
    ensures refusal { IsOkUnless result Refusal.NoMemory }
{
    let mut plans = Vec::new(alloc);
    for member in 0..n {
        plans.push(plan(alloc, sig, n, member)?)?;
    }
    Ok(plans)
}

fn push_steps(
    round: usize,
    member: u8,
    actions: &[Action],
    all: &mut Vec<DrawnAction>,
) -> Result<(), AllocError>
    ensures { OnOk result (all.new.items ≡ all.old.items ++ map (step_of round member) actions.now) }
{
    for action in actions {
        all.push(DrawnAction {
            round,
            member,
            action: *action,
        })?;
    }
    Ok(())
}

fn has_exchange(actions: &[Action]) -> bool
    ensures { result ≡ list_any has_peer actions.now }
{
    actions.iter().any(|action| action.has_peer())
}
