/// A combination or a copy that a member does in its own buffer.
#[derive(Clone, Copy, Debug, PartialEq, Eq)]
pub struct Mark {
    /// The round, from 0 on.
    pub round: usize,
    /// The member's number.
    pub member: u8,
    /// How many bytes it writes.
    pub len: u32,
}
