/// A message from one member to another.
#[derive(Clone, Copy, Debug, PartialEq, Eq)]
pub struct Arrow {
    /// The round, from 0 on, in which it is sent and received.
    pub round: usize,
    /// The sender's member number.
    pub sender: u8,
    /// The receiver's member number.
    pub receiver: u8,
    /// Its bytes.
    pub len: u32,
}
