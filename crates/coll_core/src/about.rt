use coll_kinds::Mode;

/// What a ticket's request is.
#[derive(Clone, Copy, Debug, PartialEq, Eq)]
pub struct About {
    /// The world rank that owns the request.
    pub rank: u8,
    pub comm: u32,
    /// The request's index in its member's posting list on the communicator.
    pub place: u32,
    pub mode: Mode,
    /// How often the request was started.
    pub starts: u32,
}
