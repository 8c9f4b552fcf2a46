//! What is known of all ranks, by which a rank's next command is judged.

use crate::known::KnownRequest;
use crate::library::Library;
use crate::stood::Stood;

/// All ranks at their stands, their communicators' members, and the library that the verdict speaks of.
#[derive(Clone, Copy)]
pub struct View<'v> {
    pub library: &'v Library,
    pub ranks: &'v [Stood],
    pub groups: &'v [Vec<u8>],
}

/// A rank's request among the members of its communicator.
#[derive(Clone, Copy)]
pub(crate) struct GroupRequest<'v> {
    pub(crate) ranks: &'v [Stood],
    pub(crate) group: &'v [u8],
    pub(crate) own: &'v KnownRequest,
}
