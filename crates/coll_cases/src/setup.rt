use coll_verdict::{Library, Stood, View};

/// The library of which a verdict speaks, and the members of each communicator.
#[derive(Clone, Copy)]
pub(crate) struct Setup<'c> {
    pub(crate) library: &'c Library,
    pub(crate) groups: &'c [Vec<u8>],
}
