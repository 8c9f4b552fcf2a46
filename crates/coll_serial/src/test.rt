/// The result of a test of one request (`MPI_Test`; MPI 4.1, 3.7.3).
#[derive(Clone, Copy, Debug, PartialEq, Eq)]
pub enum Test {
    /// The request is null or Idle: MPI's flag is true, and there is no outcome.
    Inactive,
    /// It isn't Done: MPI's flag is false.
    Pending,
    /// It was completed, and its outcome has this many bytes.
    Completed(usize),
}
