//! What is proved of deadlock on this engine: a job deadlocks here only where `coll_verdict` says that runs may.
//!
//! `coll_verdict` states what all runs of a job come to with a library of which it is known for whom its requests wait. The laws of
//! `engine` say that the core of this engine is such a library, for `hears_here` of `coll_plans`: whom a member hears by the end of its
//! schedule. The laws of `ports` say the same of the engine that ranks share: where nothing can go on, and each rank's port is blocked in
//! the line of a job, the job's run stalls in the words of `coll_verdict`. So there is no such state where no run stalls.
//!
//! | Module | Has |
//! |---|---|
//! | `engine` | the laws of the core |
//! | `ports` | the laws of what lies under the lock that ports share |
//!
//! | In `specs/` | Has |
//! |---|---|
//! | `Heard` | whatever has heard is Done; nothing is Done that hasn't |
//! | `Runs` | a run of a job that an engine shows |
//! | `CoreCalls` | what each call of the core is in it, by its contract's clauses |
//! | `CoreLaws` | what calls and steps are in it, and where it stalls |
//! | `CoreRows` | test vectors, of which the definitions are false |
//! | `Lines` | ports in the lines of a job |
//! | `WaitCalls` | the calls by which ranks wait |
//! | `Locks` | what lies under the lock, from one call to the next |
//! | `PortLaws` | what a stalled engine shows |
//! | `PortRows` | test vectors |
#![tactic(auto)]

pub mod engine;
pub mod ports;
