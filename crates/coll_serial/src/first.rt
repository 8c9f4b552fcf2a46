/// The result of a test of a list for one request (`MPI_Testany`; MPI 4.1, 3.7.5).
#[derive(Clone, Copy, Debug, PartialEq, Eq)]
pub enum First {
    /// No request of the list is active.
    Undefined,
    /// Some are active, and none is Done.
    Unfinished,
    /// The request at this position was completed.
    At(usize),
}
