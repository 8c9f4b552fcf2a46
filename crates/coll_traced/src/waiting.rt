ghost use Rattle.std.specs.Prelude.{◌↔◌, [], IsTrue};
ghost use Rattle.coll_traced.specs.Waits.{IsForSome, wait_of};

use coll_kinds::Ticket;

/// How a port waits.
#[derive(Clone, Copy, Debug)]
pub(crate) enum Waiting {
    /// Not at all: it can make calls.
    Awake,
    /// Until the rank's request is Done.
    ForOne { rank: u8, ticket: Ticket },
    /// Until one of the rank's requests in the list beside is Done.
    ForAny { rank: u8 },
    /// It has ended.
    Ended,
}

impl Waiting {
    /// Tells whether the port waits for a request.
    pub(crate) fn is_for_some(self) -> bool
        ensures { IsTrue result ↔ IsForSome (wait_of self []) }
    {
        matches!(self, Waiting::ForOne { .. } | Waiting::ForAny { .. })
    }
}
