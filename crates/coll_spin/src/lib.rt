//! How a thread waits before it sleeps: how often it spins, when it tries for a lock, and when it yields its processor.
//!
//! Nothing of it is promised by a contract, since none says when a thread goes on. `tests/spin` and the liveness programs test it,
//! and `bench/RESULTS.md`, "Waiting", has the measurements behind each number.
//!
//! | Module | Has |
//! |---|---|
//! | `policy` | `SpinPolicy`, how one wait spins |
//! | `linger` | `Linger`, how long an idle progress thread looks for work |
//! | `history` | `WaitHistory`, what a thread has found in its waits |
//! | `processors` | `Processors`, which policy a wait gets, by the numbers of threads and processors |
//! | `clock` | the monotonic clock in microseconds |
#![tactic(auto)]

mod clock;
mod history;
mod linger;
mod policy;
mod processors;

pub use history::WaitHistory;
pub use linger::Linger;
pub use policy::{SpinPolicy, pause_with_the_lock};
pub use processors::Processors;
