/// How many rounds, exchanges, messages, bytes and combinations a drawing has.
#[derive(Clone, Copy, Debug, PartialEq, Eq)]
pub struct DrawingTotals {
    pub rounds: usize,
    /// The rounds in which some member sends or receives.
    pub exchanges: usize,
    pub messages: usize,
    /// The bytes of all messages.
    pub bytes: u128,
    pub combinations: usize,
}
