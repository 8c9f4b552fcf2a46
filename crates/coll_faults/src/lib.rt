//! Finds all faults of a job text at once: where each stands, what is known of it, and what may be meant.
//!
//! The first fault is that of [`coll_script::Script::read`]. Its line is then mended, so that the text can be read past it, and
//! the next fault is the first one of the mended text. A suggestion is made only if the lines of the changed text, up to the
//! one for which it is made, were read and have no fault.
//!
//! | Module | Has |
//! |---|---|
//! | `words`, `patch`, `draft` | words of lines; `Patch`, lines in place of one; `MendedText`, a text with patches |
//! | `accepting` | whether lines have a fault |
//! | `scene`, `site` | what the lines before a faulty one have said; `Site`, the faulty line after them |
//! | `vocabulary` | the words of the format, and what other words may be meant to be |
//! | `remark` | `Remark`, what is known of a faulty line |
//! | `signature_faults`, `value_faults`, `request_faults`, `line_faults` | remarks by the rule that is broken |
//! | `suggestion`, `trying` | `Suggestion`, a change that was tried; how proposals for a line are tried |
//! | `mending` | what stands in place of a faulty line while those after it are judged |
//! | `member_requests`, `difference`, `place_faults` | requests at one place that don't belong together |
//! | `finding`, `examining`, `faults` | `Faults`, all that is found in one text |
#![tactic(auto)]

mod accepting;
mod difference;
mod draft;
mod examining;
mod faults;
mod finding;
mod line_faults;
mod member_requests;
mod mending;
mod patch;
mod place_faults;
mod remark;
mod request_faults;
mod scene;
mod signature_faults;
mod site;
mod suggestion;
mod trying;
mod value_faults;
mod vocabulary;
mod words;

pub use difference::Difference;
pub use faults::{Faults, MOST_FAULTS};
pub use finding::{Detail, Finding, Marked};
pub use patch::Patch;
pub use place_faults::{Mismatch, MissingPlace, MissingStart, PlaceFault, PlacedRequest};
pub use suggestion::Suggestion;
pub use words::shown;
