//! No run of a job deadlocks, by cases of what calls complete whose effect depends on time.
//!
//! `coll_verdict` shows that no run deadlocks by an order in which no rank waits, whatever a `waitany`, `waitsome` or `test` completes.
//! Where no such order is found, one of these calls is fixed: each run in which its rank passed it is a run of a job that waits, in its
//! place, for what it completed. If no run of each such job deadlocks, or its rank never passes that wait, none of the job does.
//!
//! | Module | Has |
//! |---|---|
//! | `setup` | `Setup`, the library and the communicators of a job |
//! | `going` | how far ranks surely come, and how far they may come |
//! | `outcomes` | what a call may complete |
//! | `split` | `Split`, the call that is fixed next |
//! | `putting` | another command in the place of one |
//! | `cases` | [`never_stalls_by_cases`] |
//!
//! | In `specs/` | Has |
//! |---|---|
//! | `Outcomes` | what a call may complete; the job in which it completes exactly that |
//! | `Code` | what the functions owe to the definitions |
#![tactic(auto)]

mod cases;
mod going;
mod outcomes;
mod putting;
mod setup;
mod split;

pub use cases::never_stalls_by_cases;
