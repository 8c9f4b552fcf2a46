//! Runs a job text by threads: a thread for each rank and the progress threads share one engine, and the lines are read from
//! the report of the closed engine.
//!
//! The threads of a run have no proof obligation: what they posted is compared with the text, and what they got is read from
//! the report. If the comparison holds, the lines are proved to be the text's meaning.
//!
//! | Module | Has |
//! |---|---|
//! | `threaded` | `threaded_job`, from a reader to a writer by a run |
//! | `running` | `run_job`, from a text to its lines and the report of its run, and `recorded_job`, which also gives the times of the calls |
//! | `rank` | what the thread of a rank does, and how it ends |
//! | `caller` | `Caller`, a rank's port and its requests, and what each command does with them |
//! | `observing` | `Watch`, to which the threads report how far a run is; the clock of the ranks' threads |
//! | `spans` | which call made each entry of the trace, and when |
//! | `ends` | which fault of the threads is reported |
//! | `attested` | `attested_lines`, the lines of a report |
//! | `following` | the comparison of a report with a script |
//! | `index` | the completions of a report, by rank, communicator, place and start |
//! | `printing` | the lines of a rank, from these completions |
//! | `laws` | laws of all runs |
#![tactic(auto)]

mod attested;
mod caller;
mod ends;
mod following;
mod index;
pub mod laws;
mod observing;
mod printing;
mod rank;
mod running;
mod spans;
mod threaded;

pub use attested::attested_lines;
pub use observing::{NoWatch, Watch};
pub use running::{Recording, recorded_job, run_job};
pub use threaded::threaded_job;
