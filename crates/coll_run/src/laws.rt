//! Laws of all runs of a job. A call of these functions does nothing; the contract is the law.

ghost use Rattle.coll_run.specs.Laws.{CommandsAsk, RunsMean, RunsTell};
ghost use Rattle.coll_run.specs.AttestedRows.{RowIsRun};

/// The requests for which a rank's commands ask are those that its lines make, each with its communicator, signature and
/// starts, in the order of the lines. So a request's place is its index among the rank's requests on the same communicator.
pub fn commands_ask()
    ensures { CommandsAsk }
{}

/// A run hands out each outcome for which the job asks once, with the value that the text fixes, and no other.
pub fn runs_tell()
    ensures { RunsTell }
{}

/// The lines that a run's report gives are those that the text means.
pub fn runs_mean()
    ensures { RunsMean }
{}

/// The trace of the test vector is that of a run, so the premises of the laws can be met.
pub fn row_is_run()
    ensures { RowIsRun }
{}
