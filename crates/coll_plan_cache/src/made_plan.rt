//! A plan that was made, and another one of the same for what its thread leaves to others.

ghost use Rattle.std.specs.Prelude.{◌≡◌, All, IfOk, IfSome, IsOkUnless, IsSome};

use coll_kinds::Refusal;
use coll_plans::{Plan, plan};
use std::alloc::Global;
use std::marker::Model;

/// How many owners of the second plan are counted at one time.
const READY: usize = 64;

/// A plan that was made, and a second one once it is lent. What the rank's thread does itself goes by the first; what it leaves to another
/// thread by the second, whose owners that thread gives up. So each count of owners mostly stays in one processor's cache: else it goes to
/// and fro four times in a post. Contracts see the plan.
#[derive(Drop)]
pub(crate) struct MadePlan {
    own: Plan,
    /// The second; none before it is lent.
    lent: Option<Plan>,
    /// Owners of the second that are counted already: each goes out with one operation.
    ready: Vec<Plan>,
}

impl Model for MadePlan {
    ghost use Rattle.std.specs.Prelude.{◌≡◌, All, IfSome};
    ghost use Rattle.coll_plans.specs.Plans.{Planned};

    ghost Value = { Planned };

    ghost view = { λ m. m.own };

    ghost invariant = { λ m. IfSome m.lent (λ lent. lent ≡ m.own) × All (λ p. p ≡ m.own) m.ready.items };
}

/// Counts more owners of a plan.
fn count_owners(plan: &Plan, owners: &mut Vec<Plan>)
    requires { All (λ owner. owner ≡ plan.now) owners.old.items }
    ensures { All (λ owner. owner ≡ plan.now) owners.new.items }
{
    for _owner in 0..READY {
        if let Ok(owner) = plan.share() {
            let _ = owners.push(owner);
        }
    }
}

impl MadePlan {
    /// Of a plan.
    ///
    /// # Errors
    ///
    /// NoMemory.
    pub(crate) fn of(alloc: Global, made: &Plan) -> Result<MadePlan, Refusal>
        ensures made { IfOk result (λ m. m ≡ made.now) }
        ensures refused { IsOkUnless result Refusal.NoMemory }
    {
        let own = made.share()?;
        Ok(MadePlan {
            own,
            lent: None,
            ready: Vec::new(alloc),
        })
    }

    /// The plan.
    pub(crate) fn own(&self) -> &Plan
        ensures { result.now ≡ self.now }
    {
        &self.own
    }

    /// An owner of the second plan; none where memory is short, or where it has as many owners as can be counted.
    pub(crate) fn lend(&mut self, alloc: Global) -> Option<Plan>
        ensures lent { IfSome result (λ lent. lent ≡ self.old) }
        ensures same { self.new ≡ self.old }
    {
        if self.ready.is_empty() {
            self.count_more(alloc);
        }
        self.ready.pop()
    }

    /// Counts more owners of the second plan, which is made first where there is none.
    fn count_more(&mut self, alloc: Global)
        ensures { self.new ≡ self.old }
    {
        if self.lent.is_none() {
            self.lent = plan(alloc, *self.own.sig(), self.own.n(), self.own.member()).ok();
        }
        if let Some(lent) = &self.lent {
            count_owners(lent, &mut self.ready);
        }
    }
}
