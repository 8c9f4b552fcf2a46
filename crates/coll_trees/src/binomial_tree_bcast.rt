//! Principle: a binomial tree from the root. Members are counted round from the root, which has number 0. In the step at
//! distance s = 1, 2, 4, .. each member with a number below s is a parent: it sends the block to its child, the member s
//! further, if there is one.
//!
//! Rounds: d = ceil(log2 n), each of them an exchange. Messages: n - 1 together, each of the block's B bytes; each member
//! but the root receives one, and the root sends d. A buffer has B bytes.
//!
//! Cost, with a latency L for each exchange and G for each byte: d (L + B G).

ghost use Rattle.std.specs.Prelude.{◌≡◌, ◌<◌, ◌≤◌, None, IfOk, IsOkUnless};
ghost use Rattle.coll_kinds.specs.declared.kind.Kind.TheVariants.{Bcast};
ghost use Rattle.coll_kinds.specs.Checks.{broken};
ghost use Rattle.coll_trees.specs.Depths.{depth};
ghost use Rattle.coll_trees.specs.Trees.{bcast_family, IsNarrowFor};

use crate::binomial_tree_bcast_rounds::BcastTree;
use crate::depth::depth_of;
use crate::rounds::block_if;
use coll_kinds::{Refusal, Signature};
use coll_sched::{Region, Schedule};
use std::alloc::Global;

/// Member `r`'s schedule of a bcast among `n` members (MPI 4.1, 6.4): the root's block goes to all by a
/// binomial tree, in as many rounds as it takes to double up to `n`. Refuses [`Refusal::NoMemory`]
/// alone.
pub fn bcast(alloc: Global, sig: Signature, n: u8, r: u8) -> Result<Schedule, Refusal>
    requires kind { sig.kind ≡ Bcast }
    requires checked { broken sig n ≡ None }
    requires member { r < n }
    requires few { n ≤ 64 }
    ensures schedule { IfOk result (λ s. s ≡ bcast_family sig n r) }
    ensures family { IsNarrowFor sig n (bcast_family sig n) (depth n) }
    ensures refusal { IsOkUnless result Refusal.NoMemory }
{
    let len = sig.block_len() as u32;
    let tree = BcastTree {
        n,
        root: sig.root,
        len,
    };
    let mut rounds = Vec::with_capacity(alloc, usize::from(depth_of(n)))?;
    tree.push_rounds(alloc, r, &mut rounds)?;
    let input = block_if(r == sig.root, len);
    let block = Region { at: 0, len };
    Ok(Schedule::of_lawful_rounds(len, input, block, rounds))
}
