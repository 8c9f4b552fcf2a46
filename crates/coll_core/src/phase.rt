/// How far a request is (MPI 4.1, 3.7.3 and 3.9).
#[derive(Clone, Copy, Debug, PartialEq, Eq)]
pub enum Phase {
    /// Persistent and inactive: not started since it was made or completed.
    Idle,
    /// Active, with actions left.
    Pending,
    /// Active, with all actions done: it can be completed.
    Done,
}
