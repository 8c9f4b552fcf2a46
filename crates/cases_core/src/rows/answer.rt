use crate::rows::values::UpToThree;
use coll_core::{About, Outcome, Phase, Work};
use coll_kinds::Refusal;

/// The answer to a call of a row.
#[derive(Clone, Copy, Debug, PartialEq)]
pub enum CoreAnswer {
    /// The call was accepted, and returned nothing.
    Accepted,
    Refused(Refusal),
    /// The call was refused, and this number of bytes came back.
    Back(Refusal, usize),
    Phase(Phase),
    About(Option<About>),
    /// The request to complete isn't Done.
    Unfinished,
    /// An outcome's place, its start and its values.
    Outcome(u32, u32, UpToThree),
    /// This number of bytes is lent.
    Lent(u64),
    Quiet(bool),
    /// No request was ready.
    Still,
    /// One action was done.
    Moved,
    /// One action was done, a request's last.
    Finished,
    /// A combination of these operands was handed out.
    Out(UpToThree, UpToThree),
    /// This number of actions was done.
    Settled(u64),
    /// No combination is held, none was handed out, or another engine's has another ticket.
    NoWork,
}

impl CoreAnswer {
    pub fn of_outcome(outcome: &Outcome) -> CoreAnswer {
        CoreAnswer::Outcome(
            outcome.place,
            outcome.start,
            UpToThree::of(outcome.bytes.as_slice()),
        )
    }

    pub fn of_work(work: &Work) -> CoreAnswer {
        CoreAnswer::Out(UpToThree::of(work.left()), UpToThree::of(work.right()))
    }

    /// The answer to a call that returns nothing.
    pub fn of_call(outcome: Result<(), Refusal>) -> CoreAnswer {
        match outcome {
            Ok(()) => CoreAnswer::Accepted,
            Err(why) => CoreAnswer::Refused(why),
        }
    }
}
