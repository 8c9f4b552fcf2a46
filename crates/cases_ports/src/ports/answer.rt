use crate::ports::noted::{OutcomeBytes, Outcomes};
use coll_kinds::Refusal;

/// The answer to a call of a row.
#[derive(Clone, Copy, Debug, PartialEq)]
pub enum PortAnswer {
    /// The call was accepted, and returned nothing.
    Accepted,
    Refused(Refusal),
    /// The flag of a test of one request or of all, and what was completed. For a wait for all the flag is true.
    Flag(bool, Outcomes),
    /// The answers to a call for one request of a list: no request is active, none is Done yet, or this one was completed.
    Undefined,
    Unfinished,
    At(usize, OutcomeBytes),
    /// How many requests of a list were completed, and which; None if no request is active.
    Count(Option<usize>, Outcomes),
    /// The outcome of a wait for one request.
    Outcome(OutcomeBytes),
    NoOutcome,
    IsNull(bool),
    Left(usize),
    /// A port's rank, and the number of entries that it made.
    Made(u8, u64),
    /// The rank of a port that has ended, and the number of entries that it made.
    Ended(u8, u64),
    /// The number of combinations that a progress thread wrote.
    Worked(u64),
}
