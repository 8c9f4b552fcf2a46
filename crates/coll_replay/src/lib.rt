//! Replays a schedule of a job on the proved core, one call after the other, and says what its run came to.
//!
//! A *schedule* is a list of moves: a rank carries its next line out, a waitany taking a certain request; or the engine makes a
//! step. Whoever finds a schedule is trusted with nothing: what is proved of the job rests on the replay.
//!
//! | Module | Has |
//! |---|---|
//! | `schedule` | `Move` |
//! | `player` | `Player`: how far a rank has come, and what it holds |
//! | `completing` | the requests that a completion call completes |
//! | `carrying` | each command as calls on a core |
//! | `replaying` | a whole schedule: `stalls_by`, `ends_by` |
//! | `trial` | `Trial`, with which a schedule is made |
//! | `laws` | what witnesses mean for all runs; worked rows |
//! | `standing` | whether no rank can go on, and whether all are at their ends |
#![tactic(auto)]

mod carrying;
mod completing;
pub mod laws;
mod player;
mod replaying;
mod schedule;
mod standing;
mod trial;

pub use replaying::{ends_by, stalls_by};
pub use schedule::Move;
pub use trial::Trial;
