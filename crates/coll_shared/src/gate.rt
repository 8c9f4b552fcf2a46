/// What is called before and after each combination that is computed outside the lock. It may hold
/// a thread up before one.
pub trait Gate {
    /// Called before a combination is computed, with the lock free. Combinations are numbered from
    /// 0 in the order in which they were handed out.
    fn before(&self, piece: u64);

    /// Called after its result was written, with the lock free. It mustn't wait for what other
    /// threads do with the engine. A waiting port that is here counts as the thread that goes on
    /// with what is ready, so no other port is woken for that.
    fn after(&self, piece: u64);

    /// Tells whether both calls do nothing. Such a gate isn't called for short combinations.
    fn is_always_open(&self) -> bool {
        false
    }
}

/// A gate that does nothing.
#[derive(Clone, Copy, Debug)]
pub struct NoGate;

impl Gate for NoGate {
    fn before(&self, _piece: u64) {}

    fn after(&self, _piece: u64) {}

    fn is_always_open(&self) -> bool {
        true
    }
}
