/// A move of a schedule.
#[derive(Clone, Copy, Debug, PartialEq, Eq)]
pub enum Move {
    /// A rank carries its next line out. At a `waitany` with an active request it takes the request of that number.
    Line { rank: u8, takes: Option<u32> },
    /// The engine carries out the first action that is ready, a combination with what it computes.
    Step,
    /// The engine makes steps until none is ready.
    Settle,
}
