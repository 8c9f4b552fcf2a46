//! The state under an engine's lock: the core, the trace of the calls that it accepted, and what
//! each port waits for. Nothing here knows a thread. Each accepted call that callers can see
//! appends an entry.
//!
//! | Module | Has |
//! |---|---|
//! | `traced_core` | `TracedCore`: the core with its trace, and the calls on both; `Completed`: a request that was completed for a port |
//! | `tally` | `Tally`: how many entries are one rank's; `Entries`: the ledger of entries |
//! | `trace` | `Trace`: the entries so far, with room for those still to come; `Receipt`, `Receipts`, `Appended`: what a call appended |
//! | `operation` | `Operation`: a post or a start that one thread leaves to another |
//! | `post_operation` | `PostOperation`: such a post; `posted_in` recognizes its entry |
//! | `start_operation` | `StartOperation`: such a start; `started_in` recognizes its entry |
//! | `awaited` | `Awaited`: what a port waits for |
//! | `waiting` | `Waiting`: how a port waits |
//! | `port_wait` | `PortWait`: what one port waits for, with memory for a list |
//! | `waits` | `Waits`: what all ports wait for |
//! | `ranks` | `Ranks`: a set of ranks |
//! | `prepared` | `Prepared`: the memory of a post, taken before the lock |
//! | `recent` | `Recent`: long bytes that later entries may share |
//! | `copied_config` | a copy of a configuration |
//! | `laws` | the records of a port's answers aren't true of everything |
//! | `balance` | what a trace says of its ranks when the engine is to be closed |
//! | `spent` | `Spent`: what is left of a finished port |
//! | `replacement` | `Replacement`: the empty core that takes an engine's place at its close |
#![tactic(auto)]

mod awaited;
mod balance;
mod copied_config;
pub mod laws;
mod operation;
mod port_wait;
mod post_operation;
mod prepared;
mod ranks;
mod recent;
mod replacement;
mod spent;
mod start_operation;
mod tally;
mod trace;
mod traced_core;
mod waiting;
mod waits;

pub use awaited::Awaited;
pub use coll_core::copied_groups;
pub use operation::Operation;
pub use post_operation::posted_in;
pub use prepared::Prepared;
pub use ranks::Ranks;
pub use replacement::Replacement;
pub use spent::Spent;
pub use start_operation::started_in;
pub use tally::{Entries, Tally, ledger_for};
pub use trace::{Appended, Receipt, Receipts};
pub use traced_core::{Completed, TracedCore};
