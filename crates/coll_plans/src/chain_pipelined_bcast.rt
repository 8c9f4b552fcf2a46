//! Principle: a pipelined chain. The root passes its block on to the next member, that one to the next after it and so on
//! round, segment by segment, so that all links carry at once.
//!
//! Rounds: n - 2 + s for s segments of 16,384 bytes, each of them an exchange; member k of the chain receives segment i
//! in round k - 1 + i and sends it in round k + i. Messages: (n - 1) s together. Bytes moved, for a block of B bytes: each
//! member but the root receives B, each but the last sends B. A buffer has B bytes.
//!
//! Cost, with a latency L for each exchange and G for each byte: (n - 2 + s) (L + 16,384 G), where the tree takes
//! ceil(log2 n) (L + B G).

ghost use Rattle.std.specs.Prelude.{◌≡◌, ◌<◌, ◌≤◌, cond, None, IsTrue, IfOk, IsOkUnless};
ghost use Rattle.coll_kinds.specs.declared.kind.Kind.TheVariants.{Bcast};
ghost use Rattle.coll_kinds.specs.Checks.{broken};
ghost use Rattle.coll_kinds.specs.Lengths.{block_len};
ghost use Rattle.coll_sched.specs.Regions.{front, nothing};
ghost use Rattle.coll_trees.specs.Trees.{IsNarrowFor};
ghost use Rattle.coll_plans.specs.ChainBcast.{chain_family, is_long, relay_count};

use crate::chain_rounds::Chain;
use crate::layout::block_bytes;
use coll_kinds::{Refusal, Signature};
use coll_sched::{Region, Schedule};
use std::alloc::Global;

/// Member `r`'s schedule of a long bcast among `n` members (MPI 4.1, 6.4), along a chain in segments. Refuses
/// [`Refusal::NoMemory`] alone.
pub fn chain_bcast(alloc: Global, sig: Signature, n: u8, r: u8) -> Result<Schedule, Refusal>
    requires kind { sig.kind ≡ Bcast }
    requires checked { broken sig n ≡ None }
    requires member { r < n }
    requires few { n ≤ 64 }
    requires long { IsTrue (is_long n (block_len sig)) }
    ensures schedule { IfOk result (λ s. s ≡ chain_family sig n r) }
    ensures family { IsNarrowFor sig n (chain_family sig n) (relay_count n (block_len sig)) }
    ensures refusal { IsOkUnless result Refusal.NoMemory }
{
    let len = block_bytes(sig, n);
    let chain = Chain {
        n,
        root: sig.root,
        len,
    };
    let rounds = chain.rounds(alloc, r)?;
    let block = Region::front(len);
    let input = input_at(r == sig.root, len);
    Ok(Schedule::of_lawful_rounds(len, input, block, rounds))
}

// The block at the root, and nothing at the others.
fn input_at(is_root: bool, len: u32) -> Region
    ensures { result ≡ cond is_root (front len) nothing }
{
    if is_root {
        Region::front(len)
    } else {
        Region::EMPTY
    }
}

/// Whether a bcast of `len` bytes among `n` members goes along a chain: from 65,536 bytes and two members on.
pub(crate) fn is_long(n: u8, len: u32) -> bool
    ensures { result ≡ is_long n len }
{
    n > 1 && len >= 65_536
}
