//! Lists of nodes by index: each of a fixed number of nodes stands on exactly one of a fixed number of lists, and
//! moves to the front or to the back of another in constant time.
//!
//! | Module | Has |
//! |---|---|
//! | `links` | `Links`, the lists |
//! | `nodes` | `Nodes`, a walk over a list's nodes in either direction |
//! | `columns` | `Columns`, the index columns under them |
//! | `laws` | laws that hold of every layout and of every move |
#![tactic(auto)]

mod columns;
pub mod laws;
mod links;
mod nodes;

pub use columns::Columns;
pub use links::Links;
pub use nodes::Nodes;
