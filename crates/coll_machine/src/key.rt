/// One collective: a start of a place of a communicator's posting lists.
#[derive(Clone, Copy, Debug, PartialEq, Eq, Hash)]
pub struct Key {
    pub comm: u32,
    /// The index in each member's posting list on the communicator.
    pub place: u32,
    /// How many times it was started before; 0 for a collective that is started once.
    pub start: u32,
}
