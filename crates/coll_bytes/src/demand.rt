use std::hint::spin_loop;
use std::sync::atomic::{AtomicU64, Ordering};

/// Shorter vectors aren't prepared, because their pages take less time than the threads lose by it.
const LEAST_PREPARED: usize = 65_536;

/// How many written vectors there are to be of the length that was taken last.
const MOST_PREPARED: usize = 4;

/// The bytes that these vectors may have together.
const MOST_PREPARED_BYTES: usize = 33_554_432;

/// This bit says that no thread is to go on with a vector, because one is about to be taken.
const HELD: u64 = 1 << 32;

/// The pauses in which a thread waits for a vector that another one prepares: the time of a piece.
const PAUSES: u32 = 256;

/// How many vectors are to be prepared, all of the length that was taken last. Each thread prepares
/// another one.
#[derive(Drop)]
pub(crate) struct Demand {
    len: AtomicU64,
    lacking: AtomicU64,
    /// How many vectors are in the hands of threads that prepare them.
    away: AtomicU64,
}

/// Tells whether vectors of that length are prepared.
pub(crate) fn is_prepared(len: usize) -> bool {
    (LEAST_PREPARED..=MOST_PREPARED_BYTES).contains(&len)
}

// Returns how many written vectors of that length there are to be.
fn wanted(len: usize) -> u64 {
    if !is_prepared(len) || len == 0 {
        return 0;
    }
    MOST_PREPARED.min(MOST_PREPARED_BYTES / len) as u64
}

impl Demand {
    pub(crate) fn none() -> Demand {
        Demand {
            len: AtomicU64::new(0),
            lacking: AtomicU64::new(0),
            away: AtomicU64::new(0),
        }
    }

    /// Notes that a vector of that length was taken, and how many written ones are left.
    pub(crate) fn note(&self, len: usize, written: u64) {
        let there = written.saturating_add(self.away.load(Ordering::SeqCst));
        let lacking = wanted(len).saturating_sub(there);
        // The threads that wait read the word all the time.
        if lacking == 0 && self.lacking.load(Ordering::Relaxed) == 0 {
            return;
        }
        self.len.store(len as u64, Ordering::SeqCst);
        self.lacking.store(lacking, Ordering::SeqCst);
    }

    /// Takes one of the vectors upon the calling thread, and returns their length. Only reads where
    /// none is lacking.
    #[inline(always)]
    pub(crate) fn claim(&self) -> Option<usize> {
        let lacking = self.lacking.load(Ordering::Relaxed);
        if !(1..HELD).contains(&lacking) {
            return None;
        }
        self.claim_of(lacking)
    }

    #[inline(never)]
    fn claim_of(&self, lacking: u64) -> Option<usize> {
        let rest = lacking.saturating_sub(1);
        self.lacking
            .compare_exchange(lacking, rest, Ordering::SeqCst, Ordering::SeqCst)
            .ok()?;
        self.away.fetch_add(1, Ordering::SeqCst);
        Some(self.len.load(Ordering::SeqCst) as usize)
    }

    /// Notes that a claimed vector lies beside the others again, and whether it is still lacking.
    pub(crate) fn give_back(&self, is_lacking: bool) {
        if is_lacking {
            self.lacking.fetch_add(1, Ordering::SeqCst);
        }
        self.away.fetch_sub(1, Ordering::SeqCst);
    }

    /// If vectors of that length are being prepared, waits until one of them lies beside the others
    /// again, for the time of a piece at the most. Until the next `note` none is claimed.
    pub(crate) fn hold(&self, len: usize) {
        let away = self.away.load(Ordering::SeqCst);
        if away == 0 || self.len.load(Ordering::SeqCst) != len as u64 {
            return;
        }
        self.lacking.fetch_or(HELD, Ordering::SeqCst);
        for _pause in 0..PAUSES {
            if self.away.load(Ordering::SeqCst) < away {
                return;
            }
            spin_loop();
        }
    }
}
