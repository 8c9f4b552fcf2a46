//! Runs of a text that deadlock though others may end: found by a search, replayed on the engine's core, and explained.
//!
//! Where a text has a `waitany`, a `waitsome` or a `test`, `coll_diagnosis` may show neither that every run deadlocks nor that none
//! does. Here a search over what such calls complete looks for a run that deadlocks, and for one that ends. The search is trusted
//! with nothing: `coll_replay` replays both runs, and its contract gives the finding.
//!
//! | Module | Has |
//! |---|---|
//! | `finding` | `Finding`, what replayed runs show |
//! | `pick` | `Pick`, what a call completes whose effect depends on time |
//! | `search` | `Search`, over such picks |
//! | `rehearsal` | `rehearse`, a schedule on the core that makes such picks |
//! | `runs` | `Runs`, what the search found |
//! | `replayed` | the finding, by a replay |
//! | `picked_text` | the text of one run: each such call waits for what it completes there |
//! | `run_form` | runs as lines for a reader, and as JSON |
//! | `by_cases` | that no run deadlocks, by cases |
//! | `explaining` | `explain_text` |
#![tactic(auto)]

mod by_cases;
mod explaining;
mod finding;
mod pick;
mod picked_text;
mod rehearsal;
mod replayed;
mod run_form;
mod runs;
mod search;

pub use explaining::{DEPTH, explain_text};
pub use finding::Finding;
