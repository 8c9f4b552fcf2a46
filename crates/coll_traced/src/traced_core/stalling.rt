//! Who waits, and whether the engine is deadlocked.

ghost use Rattle.std.specs.Prelude.{◌≡◌, [], ◌↔◌, Any, IsTrue, false, slice_set, true};
ghost use Rattle.std.specs.Bool.{OnFalse, OnTrue};
ghost use Rattle.coll_traced.specs.Waits.{AreWaiting, Awake, Ended, IsMarked};
ghost use Rattle.coll_traced.specs.Stalls.{AreHeldUp, AreMet, IsStalled, WasStalled};

use crate::ranks::Ranks;
use crate::tally::Entries;
use crate::traced_core::TracedCore;
use crate::waiting::Waiting;

impl<L: Entries> TracedCore<L> {
    /// Tells whether the engine is deadlocked (stalled): no request is ready, no combination is
    /// handed out, and each port has ended or waits for a request that isn't Done. Linear in the
    /// ports.
    pub fn stall_now(&self) -> bool
        ensures { IsTrue result ↔ IsStalled self.now }
    {
        self.core.quiet() && self.waits.all_are_blocked(&self.core)
    }

    /// Tells whether a deadlock was found while the rank's port waited for what it waits for now.
    pub fn is_stalled(&self, rank: u8) -> bool
        ensures marked { IsTrue result ↔ IsMarked self.now.waits self.now.stalled rank }
        ensures told { IsTrue result → WasStalled L.setting rank }
    {
        self.waits.is_marked(rank)
    }

    /// Marks the waiting ports, if the engine is deadlocked, for as long as they wait for the same.
    /// Returns whether it is. Takes a few instructions if a request is ready or a combination is
    /// out; else it is linear in the ports, and in a deadlock linear in what they wait for.
    pub fn tell_stall(&mut self) -> bool
        ensures core { self.new.core ≡ self.old.core }
        ensures entries { self.new.entries ≡ self.old.entries }
        ensures waits { self.new.waits ≡ self.old.waits }
        ensures told { IsTrue result ↔ IsStalled self.old }
        ensures marked { OnTrue result (AreHeldUp self.new.core self.new.waits self.new.stalled) }
        ensures none { OnFalse result (self.new.stalled ≡ self.old.stalled) }
    {
        if !self.stall_now() {
            return false;
        }
        self.keeps_legal();
        self.waits.mark_waiting(&self.core);
        true
    }

    /// Tells whether a port still waits that was marked at a deadlock. Linear in the ports.
    pub fn some_is_marked(&self) -> bool
        ensures { IsTrue result ↔ Any (λ mark. mark ≡ true) self.now.stalled }
    {
        self.waits.some_is_marked()
    }

    /// Notes that a port can make calls again.
    pub fn wake(&mut self, rank: u8)
        ensures core { self.new.core ≡ self.old.core }
        ensures entries { self.new.entries ≡ self.old.entries }
        ensures waits { self.new.waits ≡ slice_set self.old.waits rank Awake }
        ensures stalled { self.new.stalled ≡ slice_set self.old.stalled rank false }
    {
        self.waits.put(rank, Waiting::Awake);
    }

    /// Notes that a port has ended and makes no more calls.
    pub fn end(&mut self, rank: u8)
        ensures core { self.new.core ≡ self.old.core }
        ensures entries { self.new.entries ≡ self.old.entries }
        ensures waits { self.new.waits ≡ slice_set self.old.waits rank Ended }
        ensures stalled { self.new.stalled ≡ slice_set self.old.stalled rank false }
    {
        self.waits.put(rank, Waiting::Ended);
    }

    /// Returns the ranks whose wait is over. Linear in the ports.
    pub fn met(&self) -> Ranks
        ensures { AreMet self.now.core self.now.waits result }
    {
        self.waits.met(&self.core)
    }

    /// Returns the ranks whose ports wait for requests.
    pub fn waiting(&self) -> Ranks
        ensures { AreWaiting self.now.waits result }
    {
        self.waits.waiting()
    }
}
