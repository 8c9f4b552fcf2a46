//! Operations on rows of elements, and the value of a collective computed directly from what all
//! members gave.
//!
//! | Module | Has |
//! |---|---|
//! | `elements` | two elements, combined on their bits |
//! | `rows` | `combine`, two rows place by place, and `are_same`, whether they are equal |
//! | `value` | `plain_value`, a collective's value at a member |
//! | `values` | `plain_values`, the values of all members |
//! | `laws` | associativity, and that a value reads the needed members alone |
#![tactic(auto)]

mod elements;
pub mod laws;
mod rows;
mod value;
mod values;

pub use rows::{are_same, combine, combine_into};
pub use value::plain_value;
pub use values::plain_values;
