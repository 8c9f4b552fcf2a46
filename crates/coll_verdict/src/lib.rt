//! Deadlock in every run of a job, or in none, with every library: theorems about all runs, and
//! checkers of their certificates.
//!
//! A run of a job is made of steps of `coll_machine`'s machine. A rank carries its next command
//! out, or the library makes a request Done, which it may do as soon as all members have given on
//! whose contributions the request's value rests.
//!
//! The certificate that no run ends is a frontier: for each rank a number of commands, its stand.
//! No rank that has come to its stand can go on while no other rank is beyond its own. A search for
//! stands needs no proof, because [`always_stalls`] checks them. The certificate that no run
//! deadlocks is an order of ranks in which each carries its commands out and none waits;
//! [`never_stalls`] checks it.
//!
//! | Module | Has |
//! |---|---|
//! | `known` | [`KnownRequest`]: what the commands of a rank say of a request |
//! | `library` | [`Library`]: what is known of a library's calls |
//! | `stood` | [`Stood`]: a rank at its stand |
//! | `view` | [`View`]: what is known of all ranks, by which a rank's next command is judged |
//! | `checking` | whether ranks at their stands can go on |
//! | `order` | ranks that carry their commands out, each when it can |
//! | `giving` | whether all members have something to give |
//! | `verdict` | [`always_stalls`], [`never_stalls`]; for one library [`always_stalls_by`], [`never_stalls_by`] |
//! | `laws` | theorems about all jobs |
//!
//! | In `specs/` | Has |
//! |---|---|
//! | `Standings` | what a job has come to, its steps, and what runs reach |
//! | `Stalls` | no run of a job ends; no run deadlocks |
//! | `Waiting` | the same with one library |
//! | `Sketches`, `Stands` | what commands say of requests; stands that no run goes beyond |
//! | `Passes` | an order in which no rank waits |
//! | `Lasts` | runs that can't go on |
//! | `Checking`, `Code` | the checker's tests; what its functions owe to the definitions |
//! | `Laws`, `Rows` | the theorems; test vectors |
#![tactic(auto)]

mod checking;
mod giving;
mod known;
pub mod laws;
mod library;
mod order;
mod stood;
mod verdict;
mod view;

pub use checking::{all_stay, stays};
pub use known::{KnownRequest, known_requests};
pub use library::{HeardRows, Library};
pub use order::{are_apart, are_at_beginnings, are_at_ends, can_go_on, go_on, pass};
pub use stood::{Stood, stand_all};
pub use verdict::{always_stalls, always_stalls_by, never_stalls, never_stalls_by};
pub use view::View;
