//! What members give to their collectives, and the messages in transit between them.
//!
//! A collective of a communicator is named by its place in the posting lists and the number of its start; here it is
//! called an instance. What a member gave to an instance outlives that member's request, since the others may read it
//! later: it stays until every member has given and left.
//!
//! | Module | Has |
//! |---|---|
//! | `envelope` | `Envelope`, the receiver and the round of a message |
//! | `message` | `Message`, whose bytes lie in one piece or in several |
//! | `mailbox` | `Mailbox`, the messages of one member |
//! | `combined_row` | `Combination`, of neighbouring members' rows, and the cell for its result |
//! | `result_cell` | `ResultCell`, in which the result of a combination is shared |
//! | `expected` | the rule for what may lie in a result cell |
//! | `instance` | `Instance`, what stands of one |
//! | `matches` | `Matches`, all that stand |
#![tactic(auto)]

mod combined_row;
mod envelope;
mod expected;
mod instance;
mod mailbox;
mod matches;
mod message;
mod result_cell;

pub use coll_machine::Key;
pub use combined_row::Combination;
pub use matches::Matches;
pub use message::{Message, MessageParts};
pub use result_cell::ResultCell;
