use std::sync::{Condvar, Mutex, Wait};

#[derive(Clone, Copy, Debug, PartialEq, Eq)]
enum Signal {
    Hold,
    Go,
    Leave,
}

/// Holds threads back until it is known whether all of them could be started.
#[derive(Drop)]
pub(super) struct Start {
    signal: Mutex<Signal>,
    given: Condvar,
}

impl Start {
    /// Makes a barrier that holds threads back.
    pub(super) fn new() -> Start {
        Start {
            signal: Mutex::new(Signal::Hold),
            given: Condvar::new(),
        }
    }

    /// Lets the threads begin, or lets them end at once.
    pub(super) fn give<R: Wait>(&self, rt: &R, all_started: bool) {
        let signal = if all_started {
            Signal::Go
        } else {
            Signal::Leave
        };
        *self.signal.lock(rt) = signal;
        self.given.notify_all();
    }

    /// Waits until it is known. Returns whether all threads were started.
    pub(super) fn wait<R: Wait>(&self, rt: &R) -> bool {
        let mut signal = self.signal.lock(rt);
        for _ in rt.forever() {
            match *signal {
                Signal::Hold => signal = self.given.wait(rt, signal),
                Signal::Go => return true,
                Signal::Leave => return false,
            }
        }
        unreachable!()
    }
}
