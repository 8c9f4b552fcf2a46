//! What a thread has found in its waits so far.

use crate::clock::microseconds;
use crate::policy::SpinPolicy;
use std::rt::Clock;
use std::sync::atomic::{AtomicU64, Ordering};
use std::thread::yield_now;

/// The number of long waits in vain, less those that helped, from which on a wait spins shortly.
const IN_VAIN: u64 = 3;

/// How many waits in a row spin shortly. The next one spins long, and finds out whether that helps again.
const SHORT_WAITS: u64 = 15;

/// A yield of more than this many microseconds gave a thread that computes a time slice. Another yield takes some microseconds.
const LONG: u64 = 500;

/// A thread's long yields take at most this part of its time, one in a hundred, apart from those that it makes because it is out of step.
const SHARE: u64 = 100;

/// The microseconds whose share a thread can save for a later yield.
const CREDIT: u64 = 1_000_000;

/// The microseconds after which a thread yields again at the latest, because the program may have been stopped during a yield.
const REPAID: u64 = 60_000_000;

/// What a thread has found in its waits. Only the thread's own port writes it.
#[derive(Drop)]
pub struct WaitHistory {
    /// How often the thread has spun long and slept all the same, less how often not.
    in_vain: AtomicU64,
    /// How many waits there were since the last one that spun long.
    short: AtomicU64,
    /// From when on the thread's long yields are within their share again, or 0 once they have been for a second.
    repaid: AtomicU64,
}

impl WaitHistory {
    pub fn new() -> Self {
        WaitHistory {
            in_vain: AtomicU64::new(0),
            short: AtomicU64::new(0),
            repaid: AtomicU64::new(0),
        }
    }

    /// Whether the wait that begins now yields. The clock is read only where a yield was long.
    pub(crate) fn yields<C: Clock>(&self, clock: &C) -> bool {
        let repaid = self.repaid.load(Ordering::Relaxed);
        if repaid == 0 {
            return true;
        }
        let now = microseconds(clock);
        if now >= repaid.saturating_add(CREDIT) {
            self.repaid.store(0, Ordering::Relaxed);
        }
        now >= repaid
    }

    /// Whether the wait that begins now spins shortly.
    pub fn is_short(&self) -> bool {
        self.in_vain.load(Ordering::Relaxed) >= IN_VAIN
            && self.short.load(Ordering::Relaxed) < SHORT_WAITS
    }

    /// Yields to other threads. Returns whether that was short, or within the share. After a short yield later waits yield again.
    pub(crate) fn timed_yield<C: Clock>(&self, clock: &C) -> bool {
        let from = microseconds(clock);
        yield_now();
        let to = microseconds(clock);
        let took = to.saturating_sub(from);
        let repaid = self.repaid.load(Ordering::Relaxed);
        let next = if took > LONG {
            repaid
                .max(from.saturating_sub(CREDIT))
                .saturating_add(took.saturating_mul(SHARE))
                .min(to.saturating_add(REPAID))
        } else {
            repaid.min(to)
        };
        if next != repaid {
            self.repaid.store(next, Ordering::Relaxed);
        }
        to >= next
    }

    /// A wait is over, in which the thread spun, or slept. Nothing is written where all is as before, because other threads read words that
    /// lie beside these.
    pub fn note(&self, policy: SpinPolicy, spun: bool, slept: bool) {
        let short = self.short.load(Ordering::Relaxed);
        if policy.is_short {
            self.short.store(short.saturating_add(1), Ordering::Relaxed);
            return;
        }
        if short > 0 {
            self.short.store(0, Ordering::Relaxed);
        }
        let in_vain = self.in_vain.load(Ordering::Relaxed);
        if slept && in_vain <= IN_VAIN {
            self.in_vain
                .store(in_vain.saturating_add(1), Ordering::Relaxed);
        }
        if spun && !slept && in_vain > 0 {
            self.in_vain
                .store(in_vain.saturating_sub(1), Ordering::Relaxed);
        }
    }
}
