/// Names one request: the slot that it was given, and which of that slot's requests it is. A slot's first request
/// has generation 1.
#[derive(Clone, Copy, Debug, PartialEq, Eq)]
pub struct Ticket {
    pub slot: u32,
    pub generation: u32,
}
