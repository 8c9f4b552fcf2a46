/// The envelope of a message, but for its sender: its receiver, by member number, and its round.
#[derive(Clone, Copy, Debug, PartialEq, Eq)]
pub(crate) struct Envelope {
    pub(crate) to: u8,
    pub(crate) round: usize,
}
