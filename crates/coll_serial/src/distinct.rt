//! Whether a list names a request twice.

ghost use Rattle.std.specs.Prelude.{◌≡◌, ◌↔◌, ℕ, IsTrue, Some, slice_get};
ghost use Rattle.coll_complete.specs.Requests.{AreDistinct};
ghost use Rattle.coll_serial.specs.Parts.{ticket_of, tickets_of};

use crate::part::Part;
use coll_kinds::Ticket;

/// Tells whether a part names the ticket's request.
fn names(part: &Part, ticket: Ticket) -> bool
    ensures { IsTrue result ↔ (ticket_of part.now ≡ Some ticket) }
{
    part.request().ticket() == Some(ticket)
}

/// Tells whether a ticket stands in a list.
fn stands_in(ticket: Ticket, parts: &[Part]) -> bool
    ensures { IsTrue result ↔ ((k : ℕ) × (slice_get (tickets_of parts.now) k ≡ Some (Some ticket))) }
{
    for part in parts {
        if names(part, ticket) {
            return true;
        }
    }
    false
}

/// Tells whether no request stands at two positions of a list, which is a precondition of tests of
/// lists. Quadratic in the list.
pub fn are_distinct(parts: &[Part]) -> bool
    ensures { IsTrue result ↔ AreDistinct (tickets_of parts.now) }
{
    for (position, part) in parts.iter().enumerate() {
        if let Some(ticket) = part.request().ticket() {
            if stands_in(ticket, &parts[position + 1..]) {
                return false;
            }
        }
    }
    true
}
