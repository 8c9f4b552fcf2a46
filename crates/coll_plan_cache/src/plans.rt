//! The plans that were made last.

ghost use Rattle.std.specs.Prelude.{◌≡◌, ◌<◌, ◌≤◌, ◌⊎◌, ◌++◌, ◌∷◌, ◌↔◌, [], None, IfNone, IfOk, IfSome, IsErrOf, IsOkUnless, IsSome, IsTrue};
ghost use Rattle.std.specs.Prelude.{MatchOption, OnOk, length};
ghost use Rattle.std.specs.List.{Contains};
ghost use Rattle.coll_kinds.specs.Checks.{broken};
ghost use Rattle.coll_plan_cache.specs.Kept.{the_plan};

use crate::made_plan::MadePlan;
use coll_kinds::{Refusal, Signature};
use coll_plans::{Plan, plan};
use std::alloc::Global;
use std::marker::Model;

/// How many plans are kept.
const MOST: usize = 8;

/// The plans that a rank made last. To look one up is linear in their number. Contracts see the
/// plans, the last one at the end.
#[derive(Drop)]
pub struct Plans {
    alloc: Global,
    plans: Vec<MadePlan>,
}

impl Model for Plans {
    ghost use Rattle.std.specs.Prelude.{◌≤◌, List, length};
    ghost use Rattle.coll_plans.specs.Plans.{Planned};

    ghost Value = { List Planned };

    ghost view = { λ p. p.plans.items };

    ghost invariant = { λ p. length p.plans.items ≤ 8 };
}

/// Tells whether a plan is that member's of such a collective.
fn is_of(plan: &Plan, sig: &Signature, n: u8, member: u8) -> bool
    ensures is { IsTrue result ↔ (plan.now ≡ the_plan sig.now n member) }
    ensures checked { IsTrue result → broken sig.now n ≡ None }
{
    plan.sig().is_same(sig) && plan.n() == n && plan.member() == member
}

/// Returns an owner of the second plan of the same collective; None if no plan like it is there, or
/// if that plan's count of owners is full.
fn lent_by(plans: &mut [MadePlan], plan: &Plan, alloc: Global) -> Option<Plan>
    ensures lent { IfSome result (λ lent. lent ≡ plan.now) }
    ensures same { plans.new ≡ plans.old }
{
    for made in plans {
        if is_of(made.own(), plan.sig(), plan.n(), plan.member()) {
            return made.lend(alloc);
        }
    }
    None
}

impl Plans {
    /// Keeps no plan yet. Takes no memory.
    pub fn new(alloc: Global) -> Self
        ensures { result ≡ [] }
    {
        Plans {
            alloc,
            plans: Vec::new(alloc),
        }
    }

    /// Returns the member's plan of a collective, as `coll_plans::plan` does: a copy of a kept one,
    /// or a new one, which is kept if there is memory.
    ///
    /// # Errors
    ///
    /// BadSignature; NoMemory.
    pub fn plan_of(&mut self, sig: &Signature, n: u8, member: u8) -> Result<Plan, Refusal>
        requires member { member < n }
        requires few { n ≤ 64 }
        ensures plan { IfOk result (λ p. p ≡ the_plan sig.now n member) }
        ensures refusal { MatchOption (broken sig.now n)
            (IsOkUnless result Refusal.NoMemory)
            (λ cause. IsErrOf result (Refusal.BadSignature cause)) }
        ensures most { length self.new ≤ 8 }
        ensures found { Contains self.old (the_plan sig.now n member) → self.new ≡ self.old }
    {
        if let Some(known) = self.known(sig, n, member) {
            return known.own().share();
        }
        let made = plan(self.alloc, *sig, n, member)?;
        let _ = self.add(&made);
        Ok(made)
    }

    /// Returns a second plan of the same collective, whose owners another thread drops; a copy of
    /// `plan` if none like it is kept.
    ///
    /// # Errors
    ///
    /// NoMemory if the plan's count of owners is full.
    pub fn lent(&mut self, plan: &Plan) -> Result<Plan, Refusal>
        ensures plan { IfOk result (λ p. p ≡ plan.now) }
        ensures refused { IsOkUnless result Refusal.NoMemory }
        ensures same { self.new ≡ self.old }
    {
        match lent_by(&mut self.plans, plan, self.alloc) {
            Some(lent) => Ok(lent),
            None => plan.share(),
        }
    }

    /// Returns the kept plan of such a collective.
    fn known(&self, sig: &Signature, n: u8, member: u8) -> Option<&MadePlan>
        ensures is { IfSome result (λ made. made.now ≡ the_plan sig.now n member) }
        ensures checked { IsSome result → broken sig.now n ≡ None }
        ensures none { IfNone result (Contains self.now (the_plan sig.now n member) → ⊥) }
    {
        for made in &self.plans {
            if is_of(made.own(), sig, n, member) {
                return Some(made);
            }
        }
        None
    }

    /// Keeps a plan. A full list is emptied first.
    ///
    /// # Errors
    ///
    /// NoMemory, and the plan isn't kept.
    fn add(&mut self, made: &Plan) -> Result<(), Refusal>
        ensures added { OnOk result ((self.new ≡ self.old ++ (made.now ∷ [])) ⊎ ((length self.old ≡ 8) × (self.new ≡ made.now ∷ []))) }
        ensures most { length self.new ≤ 8 }
        ensures refused { IsOkUnless result Refusal.NoMemory }
    {
        let kept = MadePlan::of(self.alloc, made)?;
        if self.plans.len() >= MOST {
            self.plans.clear();
        }
        self.plans.push(kept)?;
        Ok(())
    }
}
