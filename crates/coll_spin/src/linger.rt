//! How long a progress thread looks for work before it sleeps.

use crate::clock::microseconds;
use crate::processors::Processors;
use std::hint::spin_loop;
use std::rt::Clock;

/// The microseconds for which an idle progress thread looks for work. Ranks that post anew each
/// millisecond find it awake. A thread that sleeps is woken by a system call of the rank that posts,
/// and begins some 20 microseconds later.
const LINGER: u64 = 1_000;

/// The pauses between two looks: each look may take the cache line away from the thread that calls.
const PAUSES: u32 = 16;

/// How an idle progress thread looks for work.
#[derive(Clone, Copy, Debug)]
pub struct Linger {
    /// Until when it looks, in microseconds of the clock.
    until: u64,
}

impl Processors {
    /// How a progress thread looks for work that is idle from now on. It doesn't look where threads
    /// share processors, because a rank may need its processor.
    pub fn linger<C: Clock>(&self, clock: &C) -> Linger {
        let until = if self.has_each_its_own() {
            microseconds(clock).saturating_add(LINGER)
        } else {
            0
        };
        Linger { until }
    }
}

impl Linger {
    /// Pauses, unless the thread is to sleep now. Returns whether it is to look again.
    pub fn looks_again<C: Clock>(self, clock: &C) -> bool {
        if microseconds(clock) >= self.until {
            return false;
        }
        for _ in 0..PAUSES {
            spin_loop();
        }
        true
    }
}
