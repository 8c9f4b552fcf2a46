//! One engine for many threads, by flat combining (Hendler, Incze, Shavit, Tzafrir, SPAA 2010). The
//! thread that holds the engine's lock carries out what all ports published, so that few threads
//! wait for the lock itself.
//!
//! | Module | Has |
//! |---|---|
//! | `rank_programs` | `run_ranks`: opens an engine, runs a `RankProgram` for each rank, and closes it |
//! | `engine` | `Engine`; `open`: makes one with its ports; `roomy`: a configuration with much room |
//! | `port` | `Port`: a rank's way into the engine |
//! | `closing` | `close`: ends an engine and makes its report |
//! | `rank_threads` | `run_rank_threads`: runs a task for each rank in a thread of its own |
//! | `gate` | `Gate`: is called before and after a combination, and may hold a thread up before it |
//! | `inspect` | `Inspect`: looks at an engine under its lock |
//! | `record` | `PublicationRecord`: where a port publishes its call |
//! | `publication` | `Publication`: what lies there, an operation, a wait, or the answer |
//! | `combiner` | `Combiner`: the lock and the records, and what the lock's holder does for all |
//! | `combiner::held` | `Held`: the lock's guard, which can't be dropped |
//! | `locked` | `Locked`: what the lock guards |
//! | `idlers` | `Idlers`: where progress threads with nothing to do linger and sleep |
//! | `calls` | a port's calls on the guarded state, in contracts that still hold once the lock is free |
//! | `publishing` | posts and starts, which the combiner makes if the lock isn't free |
//! | `waiter` | waits: spin on the record, take the lock, park |
//! | `turn` | what a waiting port, a test and a progress thread do with the lock |
//!
//! ```
//! let sum = Signature::allreduce(Op::Sum, Datatype::I32, 1);
//! let plan = port.ready_plan(0, &sum)?;
//! let offer = Offer::of_i32s(alloc, plan, &[number])?;
//! let (mut request, _receipt) = match port.post(rt, 0, offer) {
//!     Ok(posted) => posted,
//!     Err(refused) => return Err(refused.why),
//! };
//! let (outcome, _receipts) = port.wait(rt, &NoGate, &mut request)?;
//! ```
#![tactic(auto)]

mod calls;
mod closing;
mod combiner;
mod engine;
mod gate;
mod idlers;
mod inspect;
mod locked;
mod port;
mod publication;
mod publishing;
mod rank_programs;
mod rank_threads;
mod record;
mod turn;
mod waiter;

pub use closing::close;
pub use engine::{Engine, open, roomy};
pub use gate::{Gate, NoGate};
pub use inspect::Inspect;
pub use port::Port;
pub use rank_programs::{RankProgram, run_ranks};
pub use rank_threads::{Ends, RankTask, run_rank_threads};
