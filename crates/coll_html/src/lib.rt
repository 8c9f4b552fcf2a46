//! The page on a run or on an explanation: one HTML file that opens in any browser without a network.
//!
//! | Module | Has |
//! |---|---|
//! | `fixed` | the fixed part of the page, before and after the data |
//! | `quoting` | texts as strings of JSON that can't end a script |
//! | `page` | `page_text`, the page |
#![tactic(auto)]

mod fixed;
mod page;
mod quoting;

pub use fixed::{FIXED_BEGIN, FIXED_END};
pub use page::{PageTexts, page_text};
