//! The progress threads that have nothing to do.

use coll_spin::Linger;
use crossbeam_utils::CachePadded;
use crossbeam_utils::sync::EventCount;
use std::rt::Clock;
use std::sync::Wait;
use std::sync::atomic::{AtomicU64, Ordering};

/// Where idle progress threads wait until they are called. A thread reads `calls` while it holds
/// the engine's lock; then it misses no call for what is made ready later.
#[derive(Drop)]
pub(crate) struct Idlers {
    /// A lingering thread looks at this word, so that a call of it costs no system call.
    calls: CachePadded<AtomicU64>,
    sleeping: EventCount,
}

impl Idlers {
    pub(crate) fn new() -> Self {
        Idlers {
            calls: CachePadded::new(AtomicU64::new(0)),
            sleeping: EventCount::new(),
        }
    }

    /// Returns how often idle threads were called.
    pub(crate) fn calls(&self) -> u64 {
        self.calls.load(Ordering::SeqCst)
    }

    /// Calls all threads that linger, and one that sleeps.
    pub(crate) fn call(&self) {
        self.calls.fetch_add(1, Ordering::SeqCst);
        self.sleeping.notify_one();
    }

    /// Calls all threads.
    pub(crate) fn call_all(&self) {
        self.calls.fetch_add(1, Ordering::SeqCst);
        self.sleeping.notify_all();
    }

    /// Lingers, until there was a call after these `calls`. Returns whether there was one.
    pub(crate) fn linger<C: Clock>(&self, clock: &C, linger: Linger, calls: u64) -> bool {
        for _ in 0..u64::MAX {
            if self.calls() != calls {
                return true;
            }
            if !linger.looks_again(clock) {
                return false;
            }
        }
        false
    }

    /// Sleeps, until there is a call after these `calls`.
    pub(crate) fn sleep<R: Wait>(&self, rt: &R, calls: u64) {
        let key = self.sleeping.prepare_wait();
        if self.calls() == calls {
            key.wait(rt);
        }
    }
}
