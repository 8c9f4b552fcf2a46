//! How a rank computes between a post and its wait.

use std::alloc::{AllocError, Global};

/// The rows of words that a rank computes on: 256 KiB in all, which the second cache of a processor holds.
const ROWS: usize = 256;

/// The words of a row. A chunk of work is one row, which takes a fraction of a microsecond.
const WORDS: usize = 128;

/// By what the length of a computation is counted.
#[derive(Clone, Copy, Debug, PartialEq, Eq)]
pub enum Measured {
    /// By the clock, in nanoseconds: other threads can't make it longer.
    Clock,
    /// By chunks of work on the rank's own words, which take longer if another thread has the rank's processor or caches.
    Work,
}

/// How long a rank computes.
#[derive(Clone, Copy, Debug)]
pub struct Computing {
    pub measured: Measured,
    /// Nanoseconds, or chunks.
    pub length: u64,
    /// The same between two tests of the request; 0: the rank doesn't test.
    pub between_tests: u64,
}

impl Computing {
    /// Of so many nanoseconds, or of as many chunks as take so long.
    pub fn lasting(measured: Measured, nanoseconds: u64, between_tests: u64, chunk: u64) -> Self {
        let unit = match measured {
            Measured::Clock => 1,
            Measured::Work => chunk.max(1),
        };
        Computing {
            measured,
            length: nanoseconds.checked_div(unit).unwrap_or(0),
            between_tests: if between_tests > 0 {
                between_tests.checked_div(unit).unwrap_or(0).max(1)
            } else {
                0
            },
        }
    }
}

/// The words that a rank computes on.
#[derive(Drop)]
pub struct OwnWords {
    rows: Vec<Vec<u64>>,
    next: usize,
}

impl OwnWords {
    pub fn new(alloc: Global) -> Result<Self, AllocError> {
        let mut rows = Vec::with_capacity(alloc, ROWS)?;
        for _row in 0..ROWS {
            rows.push(vec![in alloc; 1; WORDS]?)?;
        }
        Ok(OwnWords { rows, next: 0 })
    }

    /// Computes one chunk: each word depends on the word before.
    pub fn compute(&mut self) {
        if let Some(row) = self.rows.get_mut(self.next) {
            let mut carried = 1u64;
            for word in row.iter_mut() {
                carried = carried
                    .wrapping_mul(6_364_136_223_846_793_005)
                    .wrapping_add(*word);
                *word = carried;
            }
        }
        let after = self.next.wrapping_add(1);
        self.next = if after < ROWS { after } else { 0 };
    }
}
