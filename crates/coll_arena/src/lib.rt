//! Requests by ticket: a fixed number of slots, each of which lies on exactly one list.
//!
//! | Module | Has |
//! |---|---|
//! | `list_name` | `ListName`, the lists and their numbers |
//! | `tickets` | `Tickets`, a walk over a list's tickets in either direction |
//! | `arena` | `Arena`, the slots on their lists |
//! | `laws` | what holds of every arena |
#![tactic(auto)]

mod arena;
pub mod laws;
mod list_name;
mod tickets;

pub use arena::Arena;
pub use coll_kinds::Ticket;
pub use list_name::ListName;
pub use tickets::Tickets;
