//! Which policy a wait gets, by the numbers of threads and processors.

use crate::history::WaitHistory;
use crate::policy::{
    ONE_PROCESSOR_CROWDED, OWN_PROCESSOR, SHARED_PROCESSOR, SHARED_PROCESSOR_TRIES, SpinPolicy,
};
use std::hint::spin_loop;
use std::rt::Clock;
use std::sync::atomic::{AtomicU64, Ordering};

/// How often a thread that asks for the lock tries, with longer and longer pauses between the tries, where each thread has a processor.
const OWN_PROCESSOR_ASKS: u32 = 160;

/// The same where threads share processors.
const SHARED_PROCESSOR_ASKS: u32 = 8;

/// How many threads there are, and how many processors for them.
#[derive(Drop)]
pub struct Processors {
    threads: AtomicU64,
    processors: AtomicU64,
}

impl Processors {
    /// Threads count as sharing processors.
    pub fn new() -> Self {
        Processors {
            threads: AtomicU64::new(3),
            processors: AtomicU64::new(2),
        }
    }

    /// For this number of threads, on this number of processors.
    pub fn fit(&self, threads: usize, processors: usize) {
        self.threads.store(threads as u64, Ordering::SeqCst);
        self.processors.store(processors as u64, Ordering::SeqCst);
    }

    /// Whether each thread has a processor of its own.
    pub(crate) fn has_each_its_own(&self) -> bool {
        self.threads.load(Ordering::SeqCst) <= self.processors.load(Ordering::SeqCst)
    }

    /// How often a thread that asks for the lock tries, before it sleeps.
    pub fn asks(&self) -> u32 {
        if self.has_each_its_own() {
            OWN_PROCESSOR_ASKS
        } else {
            SHARED_PROCESSOR_ASKS
        }
    }

    /// The same policy where yields take long.
    fn crowded(&self, mut policy: SpinPolicy) -> SpinPolicy {
        if self.processors.load(Ordering::SeqCst) <= 1 {
            return ONE_PROCESSOR_CROWDED;
        }
        if !self.has_each_its_own() {
            policy.try_mask = SHARED_PROCESSOR_TRIES;
        } else if !policy.is_short {
            policy.spins = u32::MAX;
        }
        policy.yields = false;
        policy
    }

    /// How the wait that begins now spins.
    pub fn policy<C: Clock>(&self, clock: &C, history: &WaitHistory) -> SpinPolicy {
        let mut policy = if self.has_each_its_own() {
            OWN_PROCESSOR
        } else {
            SHARED_PROCESSOR
        };
        if history.is_short() {
            policy = policy.short();
        }
        if history.yields(clock) {
            policy
        } else {
            self.crowded(policy)
        }
    }

    /// A pause after a spin. Where long yields have had their share, the wait goes on with few.
    pub fn pause<C: Clock>(
        &self,
        clock: &C,
        history: &WaitHistory,
        policy: &mut SpinPolicy,
        spin: u32,
    ) {
        if spin < policy.tight_spins || !policy.is_yield_due(clock, spin) {
            spin_loop();
        } else if !history.timed_yield(clock) {
            *policy = self.crowded(*policy);
        }
    }
}
