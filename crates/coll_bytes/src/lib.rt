//! Immutable bytes with several owners, and the buffer of a schedule that is made of such bytes. A
//! write takes an owner in, a read gives one out, and neither copies a long row.
//!
//! | Module | Has |
//! |---|---|
//! | `bytes` | `Bytes`: up to `FEW` bytes in place, or a part of a block on the heap |
//! | `blocks` | `Blocks`: vectors that are used again; `Block`, of several owners |
//! | `shelf` | `Shelf`: the vectors that nobody uses now |
//! | `demand` | `Demand`: which vectors are to be prepared |
//! | `shell` | `Shell`: the count of owners of a block whose bytes are put together later |
//! | `segments` | `Segments`: a schedule's buffer |
//! | `segment` | one write into a buffer, and how a region lies beside it |
//! | `composed` | a region whose bytes lie in several segments, put together |
#![tactic(auto)]

mod blocks;
mod bytes;
mod composed;
mod demand;
mod segment;
mod segments;
mod shelf;
mod shell;

pub use blocks::{Blocks, Home};
pub use bytes::{Bytes, FEW, copy_few};
pub use segments::{Segments, WRITES_IN_PLACE};
pub use shell::Shell;
