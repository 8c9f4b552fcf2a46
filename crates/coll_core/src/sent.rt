use coll_match::Key;

/// The path of the message that was just sent.
#[derive(Clone, Copy, Debug, PartialEq, Eq)]
pub(crate) struct Sent {
    pub(crate) key: Key,
    /// The member numbers of the sender and the receiver.
    pub(crate) from: u8,
    pub(crate) to: u8,
    pub(crate) round: usize,
}
