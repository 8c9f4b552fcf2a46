//! Schedules and plans as rows.
//!
//! | Module | Has |
//! |---|---|
//! | `schedules` | which schedules of one member are accepted |
//! | `rounds` | the rounds of a barrier |
//! | `exchanges` | the most exchanges of a member's plan |
//! | `trees` | the most exchanges of the binomial trees |

pub mod exchanges;
pub mod rounds;
pub mod schedules;
pub mod trees;
