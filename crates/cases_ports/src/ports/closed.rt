use coll_core::Outcome;
use coll_kinds::Refusal;
use coll_report::Report;

/// The result of the closing of an engine.
#[derive(Drop)]
pub struct Closed {
    /// The outcomes of the waits for one request before.
    pub outcomes: Vec<Outcome>,
    /// The report; or the refusal, with the number of ports' ends that were handed back.
    pub report: Result<Report, (Refusal, usize)>,
}
