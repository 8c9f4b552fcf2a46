ghost use Rattle.std.specs.Prelude.{◌≡◌, ◌≤◌, ◌<◌, ◌↔◌, ◌∷◌, ◌++◌, [], List, length, IsTrue, IsOk, IfOk, IsOkUnless, OnOk, OnErr};
ghost use Rattle.std.specs.List.{list_any};

use crate::action::Action;
use coll_kinds::Refusal;
use smallvec::SmallVec;
use std::alloc::Global;
use std::marker::Model;

/// The actions of one member in one round, in the order Send, Copy, Combine, Recv. Up to four need
/// no memory of their own.
#[derive(Debug, Drop)]
pub struct Round {
    actions: SmallVec<Action, 4>,
}

impl Model for Round {
    ghost use Rattle.std.specs.Prelude.{◌≤◌, List};
    ghost use Rattle.coll_sched.specs.declared.action.Action.{Action};

    ghost Value = { List Action };

    ghost view = { λ r. r.actions.items };

    // The places that need no memory.
    ghost invariant = { λ r. 4 ≤ r.actions.capacity };
}

impl Round {
    ghost use Rattle.coll_sched.specs.Schedules.{IsRound, has_peer};

    /// A round without actions; it takes no memory.
    pub fn new(alloc: Global) -> Self
        ensures { result ≡ [] }
    {
        Round {
            actions: SmallVec::new(alloc),
        }
    }

    /// A round without actions that has room for this many. Up to four take no memory.
    pub fn with_capacity(alloc: Global, count: usize) -> Result<Self, Refusal>
        ensures ok { IfOk result (λ round. round ≡ []) }
        ensures refusal { IsOkUnless result Refusal.NoMemory }
        ensures inline { count ≤ 4 → IsOk result }
    {
        let actions = SmallVec::with_capacity(alloc, count)?;
        Ok(Round { actions })
    }

    /// Puts an action at the end. The first four take no memory.
    pub fn push(&mut self, action: Action) -> Result<(), Refusal>
        ensures ok { OnOk result (self.new ≡ self.old ++ action ∷ []) }
        ensures err { OnErr result (self.new ≡ self.old) }
        ensures refusal { IsOkUnless result Refusal.NoMemory }
        ensures inline { length self.old < 4 → IsOk result }
    {
        self.actions.push(action)?;
        Ok(())
    }

    /// The actions, in order.
    pub fn actions(&self) -> &[Action]
        ensures { result.now ≡ self.now }
    {
        self.actions.as_slice()
    }

    /// Whether some action is a Send or a Recv.
    pub fn has_exchange(&self) -> bool
        ensures { result ≡ list_any has_peer self.now }
    {
        self.actions().iter().any(|action| action.has_peer())
    }

    // Whether a schedule whose buffer has `size` bytes may have the round.
    pub(crate) fn is_round(&self, size: u32) -> bool
        ensures { IsTrue result ↔ IsRound size self.now }
    {
        let mut rest = self.actions();
        while let Some((action, later)) = rest.split_first() {
            if !action.fits(size) || !action.may_precede_all(later) {
                return false;
            }
            rest = later;
        }
        true
    }
}
