//! Principle: a reduce to member 0, and then a bcast from there, each by a binomial tree. `plan` of `coll_plans` doesn't use
//! this builder: it makes an allreduce by `recursive_doubling_allreduce` there, which takes fewer exchanges. The rows of
//! `cases_core` and the tests of `tests/engine` run this one.
//!
//! Rounds: 3 d for d = ceil(log2 n), of which 2 d exchange; the others are a member's own. Messages: 2 (n - 1) together, each
//! of the block's B bytes. A buffer has 2 B bytes.
//!
//! Cost, with a latency L for each exchange and G for each byte: 2 d (L + B G).

ghost use Rattle.std.specs.Prelude.{◌≡◌, ◌+◌, ◌<◌, ◌≤◌, None, IfOk, IsOkUnless};
ghost use Rattle.coll_kinds.specs.declared.kind.Kind.TheVariants.{Allreduce};
ghost use Rattle.coll_kinds.specs.Checks.{broken};
ghost use Rattle.coll_trees.specs.Depths.{depth};
ghost use Rattle.coll_trees.specs.Trees.{allreduce_family, IsNarrowFor};

use crate::binomial_tree_bcast_rounds::BcastTree;
use crate::binomial_tree_reduce_rounds::ReduceTree;
use crate::depth::depth_of;
use coll_kinds::{Refusal, Signature};
use coll_sched::{Region, Schedule};
use std::alloc::Global;

/// Member `r`'s schedule of an allreduce among `n` members (MPI 4.1, 6.9.6): all blocks are combined in
/// member order on the way to member 0, whose result goes to all; each way is a binomial tree. By way of
/// member 0 the operands keep their order also where `n` is no power of two. Refuses
/// [`Refusal::NoMemory`] alone.
pub fn allreduce(alloc: Global, sig: Signature, n: u8, r: u8) -> Result<Schedule, Refusal>
    requires kind { sig.kind ≡ Allreduce }
    requires checked { broken sig n ≡ None }
    requires member { r < n }
    requires few { n ≤ 64 }
    ensures schedule { IfOk result (λ s. s ≡ allreduce_family sig n r) }
    ensures family { IsNarrowFor sig n (allreduce_family sig n) (depth n + depth n) }
    ensures refusal { IsOkUnless result Refusal.NoMemory }
{
    let Some(op) = sig.op else { unreachable!() };
    let len = sig.block_len() as u32;
    let up = ReduceTree {
        op,
        ty: sig.ty,
        n,
        len,
    };
    let down = BcastTree { n, root: 0, len };
    let mut rounds = Vec::with_capacity(alloc, 3 * usize::from(depth_of(n)))?;
    up.push_rounds(alloc, r, &mut rounds)?;
    down.push_rounds(alloc, r, &mut rounds)?;
    let block = Region { at: 0, len };
    Ok(Schedule::of_lawful_rounds(len + len, block, block, rounds))
}
