//! How one wait spins, until its thread sleeps.

use crate::clock::microseconds;
use std::hint::spin_loop;
use std::rt::Clock;

/// The spins at which a thread tries for the lock where threads share processors, as `SpinPolicy::try_mask` has them.
pub(crate) const SHARED_PROCESSOR_TRIES: u32 = 63;

/// How often a thread with a processor of its own yields before it sleeps, where yields take long. A thread that sleeps may be woken on the
/// processor of the thread that wakes it, and the two share that processor for many time slices.
const YIELDS: u32 = 16;

/// The microseconds of spins after which a thread yields where yields take long. Spins in vain for so long mean that the thread has its time
/// slices while the threads that it waits for don't have theirs. So it yields the rest of this slice, and has its next one together with them.
const OUT_OF_STEP: u64 = 500;

/// Where yields take long, the clock is read at the spins whose number has all of these bits. Only every second reading falls on a try for the
/// lock, because a thread that gets the lock by each try has to read the clock too.
const READINGS: u32 = 511;

/// The spins of a wait where long spinning was in vain.
const FEW_SPINS: u32 = 50;

/// The first spins with the lock, with a single pause after each.
const TIGHT: u32 = 20;

/// The pauses after each later spin with the lock. They take about as long as a short yield.
const PAUSES: u32 = 8;

/// How many spins take as long as a piece of work, with a pause after each.
const TIGHT_SPINS_OF_WORK: u32 = 128;

/// The same with a yield after each.
const SPINS_OF_WORK: u32 = 12;

/// How a thread waits, before it sleeps.
#[derive(Clone, Copy, Debug)]
pub struct SpinPolicy {
    /// The first spins, between which the thread only pauses.
    pub(crate) tight_spins: u32,
    /// Spins in all.
    pub(crate) spins: u32,
    /// Spins made so far.
    pub(crate) made: u32,
    /// The thread tries for the lock at the spins whose number has all of these bits.
    pub(crate) try_mask: u32,
    /// The same once the thread has had the lock and given it up, as long as the thread yields: nobody else may take the lock soon.
    pub(crate) retry_mask: u32,
    /// Spins in a row with the lock, before the thread gives the lock up.
    pub(crate) spins_with_lock: u32,
    /// Whether the thread yields between its spins.
    pub(crate) yields: bool,
    /// Where `yields` is false: how often the thread yields all the same before it sleeps.
    pub(crate) yields_left: u32,
    /// Since when the thread has spun without a yield, in microseconds of the clock; 0 before the first reading.
    pub(crate) since: u64,
    /// Whether this wait spins only shortly, because long spinning was in vain.
    pub(crate) is_short: bool,
}

/// Where each thread has a processor of its own. It seldom tries for the lock, since each try takes the lock's word out of the cache of the
/// thread that has the lock; a port that nobody serves waits for the first try.
pub(crate) const OWN_PROCESSOR: SpinPolicy = SpinPolicy {
    tight_spins: 1_000,
    spins: 2_000,
    made: 0,
    try_mask: 1_023,
    retry_mask: 1_023,
    spins_with_lock: 1_250,
    yields: true,
    yields_left: YIELDS,
    since: 0,
    is_short: false,
};

/// Where threads share processors. A port spins only shortly with the lock, because ranks that the port waits for may need its processor. It
/// tries again soon, because the other threads yield between their spins, and so would take the lock late.
pub(crate) const SHARED_PROCESSOR: SpinPolicy = SpinPolicy {
    tight_spins: 20,
    spins: 2_000,
    made: 0,
    try_mask: SHARED_PROCESSOR_TRIES,
    retry_mask: 1,
    spins_with_lock: 10,
    yields: true,
    yields_left: YIELDS,
    since: 0,
    is_short: false,
};

/// Where threads share one processor, and yields take long: nothing changes while a thread spins.
pub(crate) const ONE_PROCESSOR_CROWDED: SpinPolicy = SpinPolicy {
    tight_spins: 0,
    spins: 0,
    made: 0,
    try_mask: 0,
    retry_mask: 0,
    spins_with_lock: 0,
    yields: false,
    yields_left: YIELDS,
    since: 0,
    is_short: true,
};

impl SpinPolicy {
    /// Counts a spin, and returns its number; None where all have been made.
    pub fn next_spin(&mut self) -> Option<u32> {
        if self.is_over() {
            return None;
        }
        let spin = self.made;
        self.made = spin.saturating_add(1);
        Some(spin)
    }

    /// Whether all spins have been made.
    pub fn is_over(self) -> bool {
        self.made >= self.spins || self.yields_left == 0
    }

    /// The thread has worked for some ten microseconds, in place of the pauses of as many spins. No spin is passed over at which it tries for the
    /// lock or reads the clock.
    pub fn worked(&mut self) {
        let spins = if self.made < self.tight_spins {
            TIGHT_SPINS_OF_WORK
        } else {
            SPINS_OF_WORK
        };
        let next = self.made | (self.try_mask & READINGS);
        self.made = self.made.saturating_add(spins).min(next);
    }

    /// Spins in a row with the lock, before the thread gives the lock up.
    pub fn spins_with_lock(self) -> u32 {
        self.spins_with_lock
    }

    /// Whether the thread tries for the lock at this spin.
    pub fn tries_lock(self, spin: u32) -> bool {
        spin & self.try_mask == self.try_mask
    }

    /// The thread has had the lock, and has given it up.
    pub fn gave_up_lock(&mut self) {
        if self.yields {
            self.try_mask = self.retry_mask;
        }
    }

    /// Whether the thread yields after this spin: each time, or where yields take long, once it has spun for `OUT_OF_STEP` in vain.
    pub(crate) fn is_yield_due<C: Clock>(&mut self, clock: &C, spin: u32) -> bool {
        if self.yields || spin & READINGS != READINGS {
            return self.yields;
        }
        let now = microseconds(clock);
        if self.since == 0 {
            self.since = now;
        }
        let is_due = now.saturating_sub(self.since) >= OUT_OF_STEP;
        if is_due {
            self.since = 0;
            self.yields_left = self.yields_left.saturating_sub(1);
        }
        is_due
    }

    /// The same with few spins.
    pub(crate) fn short(self) -> Self {
        SpinPolicy {
            spins: FEW_SPINS,
            is_short: true,
            ..self
        }
    }
}

/// A pause after a spin with the lock. The thread doesn't yield, because all others may wait for the lock.
pub fn pause_with_the_lock(spin: u32) {
    let pauses = if spin < TIGHT { 1 } else { PAUSES };
    for _ in 0..pauses {
        spin_loop();
    }
}
