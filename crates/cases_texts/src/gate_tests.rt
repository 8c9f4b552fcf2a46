//! A text run by threads whose first two combinations are held until a third one was computed, so that ranks and progress
//! threads work at the same time. The gate sees each combination, by its number, though all of them are short.

use coll_run::run_job;
use coll_shared::Gate;
use std::sync::atomic::{AtomicU64, Ordering};
use std::sync::{Condvar, Mutex, Wait};
use std::test::Fail;
use std::time::{Clock, Duration};

/// How many times a held piece looks, and how long it waits at most between two looks.
const LOOKS: u32 = 500;

const LOOK_IN_MILLIS: u64 = 10;

const THREE_SUMS: (&str, &str) = (
    "ranks 2\nrank 0\npost 0 allreduce sum i32 1 : 1\npost 0 allreduce sum i32 1 : 10\n\
     post 0 allreduce sum i32 1 : 100\nrank 1\npost 0 allreduce sum i32 1 : 2\n\
     post 0 allreduce sum i32 1 : 20\npost 0 allreduce sum i32 1 : 200\n",
    "rank 0 req 0 start 0 : 3\nrank 0 req 1 start 0 : 30\nrank 0 req 2 start 0 : 300\n\
     rank 1 req 0 start 0 : 3\nrank 1 req 1 start 0 : 30\nrank 1 req 2 start 0 : 300\n",
);

/// The bits of the six pieces of these sums: each rank combines once for each sum.
const SIX: u64 = 63;

/// The pieces that a gate saw, a bit for each of the first 64.
#[derive(Drop)]
struct Seen {
    begun: u64,
    ended: u64,
    /// How many times the gate was called.
    calls: u64,
}

/// Holds pieces 0 and 1 until piece 2 has ended, for a bounded time.
#[derive(Drop)]
struct HeldPieces<'r, R> {
    rt: &'r R,
    seen: Mutex<Seen>,
    /// Some piece has ended.
    changed: Condvar,
    /// The number of pieces that were held in vain.
    missed: AtomicU64,
}

/// The bit of a piece; none if its number is too great.
fn bit(piece: u64) -> u64 {
    if piece < 64 {
        1u64.wrapping_shl(piece as u32)
    } else {
        0
    }
}

impl Seen {
    fn begin(&mut self, piece: u64) {
        self.begun |= bit(piece);
        self.calls = self.calls.wrapping_add(1);
    }

    fn end(&mut self, piece: u64) {
        self.ended |= bit(piece);
        self.calls = self.calls.wrapping_add(1);
    }

    fn has_ended(&self, piece: u64) -> bool {
        self.ended & bit(piece) != 0
    }

    /// Whether the gate was called for each of the six pieces, once before and once after it.
    fn is_each_once(&self) -> bool {
        self.begun == SIX && self.ended == SIX && self.calls == 12
    }
}

impl<R: Wait + Clock> Gate for HeldPieces<'_, R> {
    fn before(&self, piece: u64) {
        let mut seen = self.seen.lock(self.rt);
        seen.begin(piece);
        if piece >= 2 {
            return;
        }
        for _look in 0..LOOKS {
            if seen.has_ended(2) {
                return;
            }
            let wait = Duration::from_millis(LOOK_IN_MILLIS);
            seen = self.changed.wait_timeout(self.rt, seen, wait).0;
        }
        self.missed.fetch_add(1, Ordering::SeqCst);
    }

    fn after(&self, piece: u64) {
        let mut seen = self.seen.lock(self.rt);
        seen.end(piece);
        self.changed.notify_all();
    }
}

#[test]
fn three_sums_at_one_time(rt: HostRuntime) -> Result<(), Fail> {
    let (text, wanted) = THREE_SUMS;
    let gate = HeldPieces {
        rt: &rt,
        seen: Mutex::new(Seen {
            begun: 0,
            ended: 0,
            calls: 0,
        }),
        changed: Condvar::new(),
        missed: AtomicU64::new(0),
    };
    let (lines, _) = run_job(&rt, rt.alloc(), text.as_bytes(), 2, &gate)?;
    assert!(rt; lines.as_slice() == wanted.as_bytes());
    assert!(rt; gate.missed.load(Ordering::SeqCst) == 0);
    let seen = gate.seen.lock(&rt);
    assert!(rt; seen.is_each_once());
    Ok(())
}
