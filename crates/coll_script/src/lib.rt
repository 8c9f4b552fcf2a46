//! Job texts: what the ranks of a job post and start, as lines of words, and the values that they get.
//!
//! A text has either a fault, the first rule that it breaks, or a meaning, its output lines. Both are defined in
//! `specs/Meaning.antt` as functions of the bytes. [`Script::read`] returns the fault, or the script of a text without one, and
//! [`Script::plain_lines`] returns its lines. `coll_parser` reads the lines of a text; this crate has what is judged after the
//! last line, and the values of the job.
//!
//! | Module | Has |
//! |---|---|
//! | `postings` | the posting lists of communicators |
//! | `first`, `matching` | whether the requests at each place belong together |
//! | `script` | `Script`, the history of a text in which the requests of all ranks belong together |
//! | `sizes` | `Sizes`, the size of an engine for the job |
//! | `values`, `evaluation` | `MemberValues` of all members at a start, and those of a whole job |
//! | `laws` | laws of all texts |
//! | `outcome`, `rank_lines` | the lines of an outcome, a request and a rank |
//! | `counted` | `CountedReader`, a reader that counts its reads, and remembers whether one failed |
//! | `witnessed` | `Witnessed`, a writer that remembers whether a write failed |
//! | `shown` | how a byte of a line is shown |
//! | `fault` | `JobFault`, why there is no answer, with its line and exit status |
//! | `report_fault` | `ReportFault`, why what a run did isn't printed |
//! | `plain` | `read_text`, `plain_job` and `write_lines`, from a reader to a writer without an engine |
#![tactic(auto)]

mod counted;
mod evaluation;
mod fault;
mod first;
pub mod laws;
mod matching;
mod outcome;
mod plain;
mod postings;
mod rank_lines;
mod report_fault;
mod script;
mod shown;
mod sizes;
mod values;
mod witnessed;

pub use coll_parser::{Cause, Command, Fault, GivenBytes, History, Named, ScriptFault};
pub use counted::CountedReader;
pub use fault::JobFault;
pub use outcome::print_outcome;
pub use plain::{plain_job, read_text, write_lines};
pub use report_fault::ReportFault;
pub use script::Script;
pub use shown::shown_as;
pub use sizes::Sizes;
pub use witnessed::Witnessed;
