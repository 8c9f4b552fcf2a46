//! The trace of an engine as data, what a legal trace of a script says, and what it says once the engine is closed.
//!
//! | Module | Has |
//! |---|---|
//! | `entry` | `Entry`, an accepted call |
//! | `span` | `Span`, which call made an entry, and when |
//! | `posts` | `Posts`, a walk along a rank's posts, initialisations and starts |
//! | `command` | `Command`, what a rank has to do |
//! | `comparison` | `Comparison`, of a rank's entries with its commands |
//! | `report` | `Report`, the trace of a closed engine |
//! | `laws` | what holds of every legal trace of a script, and of every closed engine |
#![tactic(auto)]

mod command;
mod comparison;
mod entry;
pub mod laws;
mod posts;
mod report;
mod span;

pub use command::Command;
pub use comparison::{Comparison, follows};
pub use entry::Entry;
pub use posts::Posts;
pub use report::{Report, count_entries};
pub use span::Span;
