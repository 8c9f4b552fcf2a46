//! Plans of all collectives, for 1 to 64 members and every root, and the builders of schedules of the barrier, of
//! the allreduce, of the allgather, of long bcasts, of the scans and of the direct collectives.
//!
//! A file's name begins with its algorithm's. The bcast and the reduce by a binomial tree are in `coll_trees`.
//!
//! | Module | Has |
//! |---|---|
//! | `planning` | `plan`, one member's plan of any collective |
//! | `planned` | `Plan`, what `plan` answers |
//! | `joined_rows` | which members' rows a combination of an allreduce joins |
//! | `laws` | what is known of every plan's family, as a contract |
//! | `dissemination_barrier` | `barrier` |
//! | `recursive_doubling_allreduce` | `allreduce` |
//! | `recursive_doubling_rounds` | `RecursiveDoubling`, its rounds: the fold, the exchanges, and the result for the odd members |
//! | `recursive_doubling_fold` | `FoldPart`, which members fold, and which act for two |
//! | `recursive_doubling_hypercube` | `Hypercube`, which members exchange in a step |
//! | `bruck_allgather` | `allgather`, by the algorithm of J. Bruck et al. |
//! | `bruck_rounds` | `Bruck`, its rounds |
//! | `chain_pipelined_bcast` | `chain_bcast`, of a long block in segments |
//! | `chain_rounds` | `Chain`, its rounds |
//! | `prefix_doubling_scan` | `scan` |
//! | `prefix_doubling_exscan` | `exscan` |
//! | `prefix_doubling_rounds` | `PrefixDoubling`, the rounds of the two |
//! | `direct_gather` | `gather` |
//! | `direct_scatter` | `scatter` |
//! | `direct_alltoall` | `alltoall` |
//! | `direct_rsblock` | `rsblock`: an alltoall, and then the blocks are combined |
//! | `direct_allgatherv` | `allgatherv` |
//! | `direct_exchange` | `Exchange`, the one round of a direct exchange |
//! | `direct_row_exchange` | the same of rows that differ in length |
//! | `direct_pattern` | `Pattern`, which members have bytes for which others |
//! | `direct_blocks` | `Blocks`, where a member's blocks lie |
//! | `layout` | the bytes of blocks and buffers, and a list of one round |
//!
//! ```
//! let plan = plan(alloc, Signature::barrier(), 8, 3)?;
//! println!(rt; "member 3 of 8 takes part in {} exchanges", plan.schedule().exchanges())?;
//! ```
#![tactic(auto)]

mod bruck_allgather;
mod bruck_rounds;
mod chain_pipelined_bcast;
mod chain_rounds;
mod direct_allgatherv;
mod direct_alltoall;
mod direct_blocks;
mod direct_exchange;
mod direct_gather;
mod direct_pattern;
mod direct_row_exchange;
mod direct_rsblock;
mod direct_scatter;
mod dissemination_barrier;
mod joined_rows;
pub mod laws;
mod layout;
mod planned;
mod planning;
mod prefix_doubling_exscan;
mod prefix_doubling_rounds;
mod prefix_doubling_scan;
mod recursive_doubling_allreduce;
mod recursive_doubling_fold;
mod recursive_doubling_hypercube;
mod recursive_doubling_rounds;

pub use bruck_allgather::allgather;
pub use chain_pipelined_bcast::chain_bcast;
pub use direct_allgatherv::allgatherv;
pub use direct_alltoall::alltoall;
pub use direct_gather::gather;
pub use direct_rsblock::rsblock;
pub use direct_scatter::scatter;
pub use dissemination_barrier::barrier;
pub use joined_rows::Neighbours;
pub use planned::Plan;
pub use planning::plan;
pub use prefix_doubling_exscan::exscan;
pub use prefix_doubling_scan::scan;
pub use recursive_doubling_allreduce::allreduce;
