//! Whether a list names no ticket twice.

ghost use Rattle.std.specs.Prelude.{◌≡◌, ◌↔◌, ℕ, IsTrue, Some, slice_get};
ghost use Rattle.coll_complete.specs.Requests.{AreDistinct};

use crate::request::Request;
use coll_kinds::Ticket;

/// Whether a ticket stands in a list.
fn stands_in(ticket: Ticket, requests: &[Request]) -> bool
    ensures { IsTrue result ↔ ((k : ℕ) × (slice_get requests.now k ≡ Some (Some ticket))) }
{
    for request in requests {
        if request.ticket() == Some(ticket) {
            return true;
        }
    }
    false
}

/// Tells whether no ticket stands at two positions of a list, which is a precondition of tests of
/// lists. Quadratic in the list.
pub fn are_distinct(requests: &[Request]) -> bool
    ensures { IsTrue result ↔ AreDistinct requests.now }
{
    for (position, request) in requests.iter().enumerate() {
        if let Some(ticket) = request.ticket() {
            if stands_in(ticket, &requests[position + 1..]) {
                return false;
            }
        }
    }
    true
}
