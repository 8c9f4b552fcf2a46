//! Schedules of bcast and reduce by binomial trees, for 1 to 64 members and every root, and of an allreduce by both.
//!
//! | Module | Has |
//! |---|---|
//! | `binomial_tree_bcast` | `bcast`: a binomial tree from the root to all |
//! | `binomial_tree_bcast_rounds` | `BcastTree`, its rounds |
//! | `binomial_tree_bcast_step` | `BcastStep`, what a member does in a step of it |
//! | `binomial_tree_reduce` | `reduce`: a binomial tree from all to member 0, and a hop to the root |
//! | `binomial_tree_reduce_rounds` | `ReduceTree`, the rounds of the tree |
//! | `binomial_tree_reduce_step` | `ReduceStep`, what a member does in a step of it |
//! | `reduce_then_bcast` | `allreduce`: one tree after the other; `plan` of `coll_plans` doesn't use it |
//! | `numbering` | members counted round from the root |
//! | `depth` | how many steps a tree takes |
//! | `rounds` | rounds of one action, and the first block of a buffer |
#![tactic(auto)]

mod binomial_tree_bcast;
mod binomial_tree_bcast_rounds;
mod binomial_tree_bcast_step;
mod binomial_tree_reduce;
mod binomial_tree_reduce_rounds;
mod binomial_tree_reduce_step;
mod depth;
mod numbering;
mod reduce_then_bcast;
mod rounds;

pub use binomial_tree_bcast::bcast;
pub use binomial_tree_reduce::reduce;
pub use depth::depth_of;
pub use numbering::{from_root, member_at};
pub use reduce_then_bcast::allreduce;
