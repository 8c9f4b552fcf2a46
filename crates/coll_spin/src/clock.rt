//! The clock in microseconds.

use std::rt::Clock;

/// The microseconds of the monotonic clock, or 0 where the clock can't be read.
pub(crate) fn microseconds<C: Clock>(clock: &C) -> u64 {
    match clock.monotonic() {
        Ok(time) => time
            .as_secs()
            .saturating_mul(1_000_000)
            .saturating_add(u64::from(time.subsec_micros())),
        Err(_) => 0,
    }
}
