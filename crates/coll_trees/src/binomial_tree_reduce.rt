//! Principle: a binomial tree to member 0, and from there a hop to the root. In the step at distance s = 1, 2, 4, .. each
//! member that is an odd multiple of s is a child of the member s below: it sends what it holds, and its parent combines
//! that as the right operand of its own. So the operands stay in member order, whoever the root is.
//!
//! Rounds: 2 d + 1 for d = ceil(log2 n). Of these d exchange, and the last one too where the root isn't member 0; the others
//! are a member's own. Messages: n - 1 together, and one more for the hop, each of the block's B bytes. A buffer has 2 B
//! bytes.
//!
//! Cost, with a latency L for each exchange and G for each byte: d (L + B G), and L + B G more for the hop.

ghost use Rattle.std.specs.Prelude.{◌≡◌, ◌+◌, ◌<◌, ◌≤◌, None, IfOk, IsOkUnless};
ghost use Rattle.coll_kinds.specs.declared.kind.Kind.TheVariants.{Reduce};
ghost use Rattle.coll_kinds.specs.Checks.{broken};
ghost use Rattle.coll_trees.specs.Depths.{depth, direct_bound};
ghost use Rattle.coll_trees.specs.BinomialTreeReduce.{last_hop};
ghost use Rattle.coll_trees.specs.Trees.{reduce_family, IsNarrowFor};

use crate::binomial_tree_reduce_rounds::ReduceTree;
use crate::depth::depth_of;
use crate::rounds::{block_if, one_action};
use coll_kinds::{Refusal, Signature};
use coll_sched::{Action, Region, Round, Schedule};
use std::alloc::Global;

/// Member `r`'s schedule of a reduce among `n` members (MPI 4.1, 6.9.1): all blocks are combined in member
/// order on the way to member 0 by a binomial tree, and the result goes from there to the root. Refuses
/// [`Refusal::NoMemory`] alone.
pub fn reduce(alloc: Global, sig: Signature, n: u8, r: u8) -> Result<Schedule, Refusal>
    requires kind { sig.kind ≡ Reduce }
    requires checked { broken sig n ≡ None }
    requires member { r < n }
    requires few { n ≤ 64 }
    ensures schedule { IfOk result (λ s. s ≡ reduce_family sig n r) }
    ensures family { IsNarrowFor sig n (reduce_family sig n) (depth n + direct_bound n) }
    ensures refusal { IsOkUnless result Refusal.NoMemory }
{
    let Some(op) = sig.op else { unreachable!() };
    let len = sig.block_len() as u32;
    let up = ReduceTree {
        op,
        ty: sig.ty,
        n,
        len,
    };
    let mut rounds = Vec::with_capacity(alloc, 2 * usize::from(depth_of(n)) + 1)?;
    up.push_rounds(alloc, r, &mut rounds)?;
    let hop = to_root(alloc, len, sig.root, r)?;
    rounds.push(hop)?;
    let block = Region { at: 0, len };
    let output = block_if(r == sig.root, len);
    Ok(Schedule::of_lawful_rounds(len + len, block, output, rounds))
}

// Member r's part in the hop from member 0 to the root.
fn to_root(alloc: Global, len: u32, root: u8, r: u8) -> Result<Round, Refusal>
    ensures ok { IfOk result (λ round. round ≡ last_hop len root r) }
    ensures refusal { IsOkUnless result Refusal.NoMemory }
{
    let block = Region { at: 0, len };
    if root == 0 {
        Ok(Round::new(alloc))
    } else if r == 0 {
        one_action(
            alloc,
            Action::Send {
                to: root,
                from: block,
            },
        )
    } else if r == root {
        one_action(alloc, Action::Recv { of: 0, into: block })
    } else {
        Ok(Round::new(alloc))
    }
}
