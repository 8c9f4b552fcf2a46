//! Checks a job text: reports its faults to a reader, as lines or as JSON, or, if it has none, whether its runs deadlock.
//!
//! | Module | Has |
//! |---|---|
//! | `cause` | `words_of`, the words of a cause |
//! | `text_form` | what is known of a fault as lines for a reader |
//! | `objects`, `json_form` | the same as JSON |
//! | `apart` | `is_apart`, whether a text says that it isn't all of its program |
//! | `reporting` | the reports of all faults, and their number |
//! | `checking` | `check_job`, from a reader to writers |
#![tactic(auto)]

mod apart;
mod cause;
mod checking;
mod json_form;
mod objects;
mod reporting;
mod text_form;

pub use apart::{apart_line, is_apart};
pub use checking::{CheckForm, check_job};
