//! Why a job text deadlocks: which rank waits in which line for which, in every run, in those of this engine alone, or perhaps.
//!
//! A job is gone through without an engine. Each rank goes on while it can, until none can. This is done for several readings
//! of which members a completion waits for, and of what a call completes if that depends on time. The readings in which all
//! ranks come to their ends give the verdict.
//!
//! | Module | Has |
//! |---|---|
//! | `members` | `Members`, a set of members or ranks |
//! | `waiting` | `WaitsFor`, the members for which the completion of a collective waits; `Reading`, the same with the tables of a job |
//! | `collectives` | `Collective`, of which a job has each once |
//! | `hearing`, `engine_tables` | from which members the schedule of each member hears; the same of all collectives of a job |
//! | `step`, `section`, `place`, `job` | `Job`, the commands and requests of the ranks of a script |
//! | `course` | `Course`, how far the ranks come |
//! | `verdict` | `Verdict`, whether runs deadlock, and its exit status |
//! | `circle`, `standstill` | `Standstill`, which rank waits for which if no rank can go on |
//! | `stuck`, `pending`, `lack` | `Stuck`, a rank that waits; `Pending`, a request that it waits for; `Lack`, a member that the request lacks |
//! | `facts` | what of a script a standstill is compared with |
//! | `ring` | the fewest ranks that wait for one another |
//! | `cure` | `Move`, a line that is moved so that the text never deadlocks |
//! | `cured_text` | a text with one line moved |
//! | `explanation` | `Explanation`, all of this of one text |
//! | `text_form` | an explanation as lines for a reader |
//! | `json_form`, `dot_form` | an explanation as JSON, and as a graph |
//! | `explaining` | `explain_job`, from a reader to a writer |
#![tactic(auto)]

mod circle;
mod collectives;
mod course;
mod cure;
mod cured_text;
mod dot_form;
mod engine_tables;
mod explaining;
mod explanation;
mod facts;
mod hearing;
mod job;
mod json_form;
mod lack;
mod members;
mod pending;
mod place;
mod ring;
mod section;
mod standstill;
mod step;
mod stuck;
mod text_form;
mod verdict;
mod waiting;

pub use collectives::Collective;
pub use course::{Choice, Course};
pub use cure::Move;
pub use engine_tables::tables_of;
pub use explaining::{ExplainOptions, ExplainedText, Form, explain_as, explain_job, explain_text};
pub use explanation::{Explanation, ShownStall};
pub use job::Job;
pub use lack::Lack;
pub use members::Members;
pub use pending::Pending;
pub use place::{Peer, Place};
pub use section::RankSection;
pub use standstill::Standstill;
pub use step::{Act, Completes, Step};
pub use stuck::Stuck;
pub use verdict::Verdict;
pub use waiting::{Reading, WaitsFor};
