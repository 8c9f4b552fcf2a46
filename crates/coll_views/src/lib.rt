//! Shows what a run did: the entries of its report as lines, tables, outcomes as JSON, a timeline and a picture.
//!
//! Each text is made from the entries, and from the line and the times of the call that made each entry, and from nothing else.
//!
//! | Module | Has |
//! |---|---|
//! | `work` | `MessageCounts`, what a member sends and combines by its schedule |
//! | `request` | `TracedRequest`, what a trace says about a request, `NumberedRequest`, one with its number, and `RankRequests`, those of each rank |
//! | `start_lines` | `StartLine`, a post or a start with its line, and those of a rank |
//! | `elements`, `words` | elements and signatures as text |
//! | `trace` | `trace_text`, a line for each entry |
//! | `outcomes` | `outcomes_json`, a line for each completion |
//! | `row` | `TableRow`, what an entry adds to a table |
//! | `totals` | `Totals`, the sums of rows |
//! | `cell` | the columns of a table's numbers |
//! | `tables` | `tables_text`, by rank and by collective |
//! | `lanes` | the lanes in which bars are drawn |
//! | `timeline` | `timeline_json`, in the format of trace events |
//! | `picture` | `picture_text`, a column for each rank |
#![tactic(auto)]

mod cell;
mod elements;
mod lanes;
mod outcomes;
mod picture;
mod request;
mod row;
mod start_lines;
mod tables;
mod timeline;
mod totals;
mod trace;
mod words;
mod work;

pub use outcomes::outcomes_json;
pub use picture::picture_text;
pub use request::{NumberedRequest, RankRequests, TracedRequest};
pub use row::{TableRow, rows_of};
pub use tables::tables_text;
pub use timeline::timeline_json;
pub use totals::{Totals, totals_of};
pub use trace::trace_text;
pub use work::MessageCounts;
