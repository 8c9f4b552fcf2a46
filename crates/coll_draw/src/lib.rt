//! Drawings of collectives: which member sends what to which member in which round, and where it combines and copies.
//!
//! A [`Drawing`] shows the schedules of all members of a plan's family: [`Drawing::arrows`] are its messages,
//! [`Drawing::combinations`] and [`Drawing::copies`] what members do in their own buffers, and [`Drawing::totals`] counts
//! them. [`text_lines`] writes it as lines for a terminal, [`svg_picture`] as a vector picture that can be printed.
//!
//! | Module | Has |
//! |---|---|
//! | `step` | `DrawnAction`, an action with its round and its member |
//! | `arrow`, `mark` | `Arrow`, a message; `Mark`, what a member does by itself |
//! | `plans` | all members' plans, and their steps |
//! | `drawing` | `Drawing`, what is drawn of one collective |
//! | `totals` | `DrawingTotals`, how many rounds, messages, bytes and combinations there are |
//! | `laws` | that each arrow is a message which is sent and received |
//! | `line`, `layout` | where the arrows of a round lie, so that none covers another |
//! | `geometry` | where the parts of a picture lie |
//! | `summary` | what both forms say in words |
//! | `text_form`, `svg_form` | a drawing as text, and as a picture |
#![tactic(auto)]

mod arrow;
mod drawing;
mod geometry;
pub mod laws;
mod layout;
mod line;
mod mark;
mod plans;
mod step;
mod summary;
mod svg_form;
mod text_form;
mod totals;

pub use arrow::Arrow;
pub use drawing::Drawing;
pub use mark::Mark;
pub use step::DrawnAction;
pub use svg_form::svg_picture;
pub use text_form::text_lines;
pub use totals::DrawingTotals;
