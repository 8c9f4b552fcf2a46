use coll_kinds::Refusal;

/// Where the starts of a list stopped.
#[derive(Clone, Copy, Debug, PartialEq, Eq)]
pub struct Stopped {
    /// The position of the request whose start was refused; those before it were started.
    pub at: usize,
    pub why: Refusal,
}
