use coll_traced::{Entries, TracedCore};

/// What looks at an engine under its lock.
pub trait Inspect<L: Entries> {
    /// Called once, while no other thread has the lock.
    fn inspect(&mut self, traced: &TracedCore<L>);
}
