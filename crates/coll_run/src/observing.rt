//! Observers of a run, to which the threads of the ranks report.

use std::rt::Clock;
use std::time::Instant;

/// Gets reports of how far a run has come, from the threads of its ranks; each thread goes on when the call returns.
pub trait Watch {
    /// A run begins, of this number of ranks, which have this number of posts and starts together.
    fn begin(&self, ranks: u8, starts: usize);

    /// A rank got the outcomes of `count` of its posts and starts.
    fn completed(&self, count: usize);

    /// A rank carried out its last command, or one that was refused.
    fn ended(&self);
}

/// A watch that does nothing.
#[derive(Clone, Copy, Debug)]
pub struct NoWatch;

impl Watch for NoWatch {
    fn begin(&self, _ranks: u8, _starts: usize) {}

    fn completed(&self, _count: usize) {}

    fn ended(&self) {}
}

/// Gets reports of the commands from the threads of the ranks, and gives them the time.
pub(crate) trait Observer {
    /// The nanoseconds since the beginning of the run; None if no times are to be noted.
    fn now(&self) -> Option<u64>;

    /// See [`Watch::completed`].
    fn completed(&self, count: usize);

    /// See [`Watch::ended`].
    fn ended(&self);
}

/// The observer of a run that nobody watches.
pub(crate) struct NoObserver;

impl Observer for NoObserver {
    fn now(&self) -> Option<u64> {
        None
    }

    fn completed(&self, _count: usize) {}

    fn ended(&self) {}
}

/// Gives the time by a clock, and passes the reports on to a watch. If the clock can't be read, the time is 0.
#[derive(Drop)]
pub(crate) struct Recorder<'c, C: Clock, W: Watch> {
    clock: &'c C,
    start: Option<Instant>,
    watch: &'c W,
}

impl<'c, C: Clock, W: Watch> Recorder<'c, C, W> {
    /// The recorder of a run that begins now.
    pub(crate) fn begin(clock: &'c C, watch: &'c W) -> Recorder<'c, C, W> {
        Recorder {
            clock,
            start: Instant::now(clock).ok(),
            watch,
        }
    }

    fn passed(&self) -> Option<u64> {
        let now = Instant::now(self.clock).ok()?;
        let passed = now.checked_duration_since(self.start?)?;
        u64::try_from(passed.as_nanos()).ok()
    }
}

impl<C: Clock, W: Watch> Observer for Recorder<'_, C, W> {
    fn now(&self) -> Option<u64> {
        Some(self.passed().unwrap_or(0))
    }

    fn completed(&self, count: usize) {
        self.watch.completed(count);
    }

    fn ended(&self) {
        self.watch.ended();
    }
}
