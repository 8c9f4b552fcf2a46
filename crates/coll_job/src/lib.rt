//! The program `colljob` without its `main`: from words and streams to an exit status, so that all of it can be tested. `plain`
//! computes a job's values directly; `run` runs the text by threads over one shared engine (`coll_run`), with the same lines;
//! `explain` reports whether its runs stall; `check` reports all its faults. The text comes from a file or from standard input.
//! `draw` draws the schedules of a collective.
//!
//! | Module | Has |
//! |---|---|
//! | `machine` | `main_of`, which takes words and streams from the machine |
//! | `task`, `words`, `draw_words` | `Task`, what the words of the command line ask for, and how they are read |
//! | `tasks` | `run`, which does what the words ask for |
//! | `answering` | writes what a task asks for of a text |
//! | `host` | `Host`, the machine, and whether its files fail |
//! | `opening`, `keeping` | opens the file that the words name; writes a file whole or not at all |
//! | `signature`, `drawing` | reads the words of a signature; draws its schedules |
//! | `views`, `viewing` | the words for files on what a run did; writes these files |
//! | `pages` | pages for a browser, of runs and explanations |
//! | `carrying_out` | runs a text by threads, and writes what is reported of the run |
//! | `stalls` | writes the files on a run that deadlocks |
//! | `screen`, `progress` | the screen of the user; shows how far a long run is |
#![tactic(auto)]

mod answering;
mod carrying_out;
mod draw_words;
mod drawing;
mod host;
mod keeping;
mod machine;
mod opening;
mod pages;
mod progress;
mod screen;
mod signature;
mod stalls;
mod task;
mod tasks;
mod viewing;
mod views;
mod words;

pub use coll_run::run_job;
pub use coll_script::{JobFault, plain_job, read_text};
pub use drawing::{DrawForm, DrawingTask};
pub use host::Host;
pub use machine::main_of;
pub use progress::ProgressLine;
pub use screen::{Colors, NoScreen, Screen};
pub use task::{Explaining, RunOptions, Task, Way};
pub use tasks::{do_parsed, do_task, run, run_on};
pub use views::{OutcomeForm, Views};
