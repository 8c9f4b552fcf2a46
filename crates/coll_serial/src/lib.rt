//! One engine for all ranks of a process, for one caller at a time: it makes the plans of what is
//! posted, and completes into the caller's memory. Threads that share it put a lock round it.
//!
//! | Module | Has |
//! |---|---|
//! | `combination` | `Combination`: a combination that is computed outside the engine |
//! | `test` | `Test`: the result of a test of one request |
//! | `taken` | `Taken`: the same result with the outcome itself |
//! | `part` | `Part`: a request of a list with its span of the list's memory |
//! | `distinct` | `are_distinct`: the precondition of tests of lists |
//! | `first` | `First`: the result of a test of a list for one request |
//! | `stopped` | `Stopped`: where the starts of a list stopped |
//! | `threads` | which values may go from one thread to another |
//! | `engine` | `Engine`, with its calls by what they do |
//!
//! ```
//! let sum = Signature::allreduce(Op::Sum, Datatype::U8, 1);
//! let mut request = engine.post(0, 0, sum, &[7])?;
//! engine.settle()?;
//! let mut value = [0; 1];
//! let test = engine.test(0, &mut request, &mut value)?;
//! ```
#![tactic(auto)]

mod combination;
mod distinct;
mod engine;
mod first;
mod part;
mod stopped;
mod taken;
mod test;
pub mod threads;

pub use coll_complete::Request;
pub use coll_core::{About, Config, Contribution, Phase};
pub use coll_kinds::{Datatype, Kind, Mode, Op, Refusal, Signature, Ticket};
pub use combination::{Combination, Stage};
pub use distinct::are_distinct;
pub use engine::Engine;
pub use first::First;
pub use part::Part;
pub use stopped::Stopped;
pub use taken::Taken;
pub use test::Test;
