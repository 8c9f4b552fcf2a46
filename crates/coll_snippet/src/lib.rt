//! Diagnostics as they are printed: lines of a text with marks below their words, labels, notes and help.
//!
//! | Module | Has |
//! |---|---|
//! | `source` | `Source`, the lines of a text |
//! | `excerpt` | `Excerpt`, a line as it is shown, with the columns of its marks |
//! | `page` | `Page`, the lines for a reader; `Paint`, their colours |
//! | `ranges` | `push_ranks`, ranks as ranges |
//! | `line_feeds` | `has_line_feed`, whether bytes are one line |
#![tactic(auto)]

mod excerpt;
mod line_feeds;
mod page;
mod ranges;
mod source;

pub use excerpt::Excerpt;
pub use line_feeds::has_line_feed;
pub use page::{Page, Paint};
pub use ranges::push_ranks;
pub use source::Source;
