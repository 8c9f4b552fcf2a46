ghost use Rattle.std.specs.Prelude.{◌≡◌, ◌<◌};
ghost use Rattle.std.specs.Sync.Mutex.{mutex_guard_value};
ghost use Rattle.coll_traced.specs.Ranks.{IsIn};
ghost use Rattle.coll_shared.specs.Sleepers.{Wakes};

use crate::locked::Locked;
use coll_traced::{Entries, Ranks};
use std::sync::MutexGuard;

/// A guard of the engine's lock. It has no Drop, so code that forgets a guard doesn't compile.
/// `Combiner::release` ends a guard; `Combiner::compute_between` ends one and takes the next.
pub(crate) struct Held<'a, L: Entries> {
    pub(crate) locked: MutexGuard<'a, Locked<L>>,
    /// The ranks whose parked ports were answered or summoned under this guard.
    wake: Ranks,
}

impl<'a, L: Entries> Held<'a, L> {
    pub(super) fn new(locked: MutexGuard<'a, Locked<L>>) -> Self {
        Held {
            locked,
            wake: Ranks::NONE,
        }
    }

    /// Notes that a rank's port was answered or summoned. If it is parked, it is woken after the
    /// unlock.
    #[tactic(auto, using(crate::proofs::Sleepers::wakes_none, crate::proofs::Sleepers::wakes_one))]
    pub(super) fn wakes(&mut self, rank: u8)
        ensures traced { (mutex_guard_value self.new.locked).traced ≡ (mutex_guard_value self.old.locked).traced }
        ensures woken { rank < 64 → Wakes (mutex_guard_value self.old.locked).parked self.old.wake (mutex_guard_value self.new.locked).parked self.new.wake }
        ensures awake { rank < 64 → IsIn (mutex_guard_value self.new.locked).parked rank → ⊥ }
    {
        let parked = self.locked.parked;
        if parked.has(rank) {
            self.locked.parked = parked.without(rank);
            self.wake = self.wake.with(rank);
        }
    }

    /// Unlocks, and nothing else. Returns the ranks to wake.
    pub(super) fn unlock(self) -> Ranks
        ensures { result ≡ self.entry.wake }
    {
        let Held { locked, wake } = self;
        drop(locked);
        wake
    }
}
