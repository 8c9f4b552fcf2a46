ghost use Rattle.std.specs.Prelude.{◌≡◌, false, not};
ghost use Rattle.coll_serial.specs.Tests.{is_taken, is_untaken};

use coll_core::Outcome;

/// The result of a test of one request whose outcome is handed out.
#[derive(Debug, Drop)]
pub enum Taken {
    /// The request is null or Idle: MPI's flag is true, and there is no outcome.
    Inactive,
    /// It isn't Done: MPI's flag is false.
    Pending,
    /// It was completed, with this outcome.
    Completed(Outcome),
}

impl Taken {
    /// By MPI's flag.
    pub(crate) fn without_outcome(flag: bool) -> Taken
        ensures flag { is_untaken result ≡ not flag }
        ensures outcome { is_taken result ≡ false }
    {
        if flag {
            Taken::Inactive
        } else {
            Taken::Pending
        }
    }
}
