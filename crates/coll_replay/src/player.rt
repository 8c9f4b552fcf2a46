ghost use Rattle.std.specs.Prelude.{◌≡◌, IsTrue};
ghost use Rattle.coll_core.specs.Cores.{seen};
ghost use Rattle.coll_replay.specs.Playing.{held_at, holding};
ghost use Rattle.coll_verdict.specs.Standings.{holding_at, kept};

use coll_core::Core;
use coll_kinds::Ticket;

/// How far a rank has come, and what it holds.
#[derive(Debug, Drop)]
pub(crate) struct Player {
    /// How many of its lines it has carried out.
    pub(crate) at: usize,
    /// For each request that it has made, its ticket; None if the request is null.
    pub(crate) held: Vec<Option<Ticket>>,
}

/// What is held of the request of that number.
pub(crate) fn held_at(held: &[Option<Ticket>], q: usize) -> Option<Ticket>
    ensures { result ≡ held_at held.now q }
{
    match held.get(q) {
        Some(ticket) => *ticket,
        None => None,
    }
}

/// The ticket, if it still names a request.
pub(crate) fn kept(core: &Core, ticket: Ticket) -> Option<Ticket>
    ensures { result ≡ kept (seen core.now).state ticket }
{
    match core.about(ticket) {
        Some(_) => Some(ticket),
        None => None,
    }
}

/// Holds something else of a request. Whether there is such a request.
pub(crate) fn hold(held: &mut [Option<Ticket>], q: usize, what: Option<Ticket>) -> bool
    ensures { IsTrue result → holding held.new ≡ holding_at (holding held.old) q what }
{
    if q < held.len() {
        held[q] = what;
        true
    } else {
        false
    }
}
