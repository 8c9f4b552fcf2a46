//! Principle: the algorithm of J. Bruck et al. Members are counted round. Before the step at distance s = 1, 2, 4, .. a member
//! holds the blocks of the s members from itself on; it sends them to the member s before, and receives those of the member
//! s further. In the last step only as many go as are lacking. In the end it copies all into member order.
//!
//! Rounds: d + 1 for d = ceil(log2 n), of which d exchange; the last one is a member's own. Messages: n d together; each
//! member sends and receives n - 1 blocks of B bytes, in d messages each. A buffer has 2 n B bytes.
//!
//! Cost, with a latency L for each exchange and G for each byte: d L + (n - 1) B G.

ghost use Rattle.std.specs.Prelude.{◌≡◌, ◌<◌, ◌≤◌, None, IfOk, IsOkUnless};
ghost use Rattle.coll_kinds.specs.declared.kind.Kind.TheVariants.{Allgather};
ghost use Rattle.coll_kinds.specs.Checks.{broken};
ghost use Rattle.coll_trees.specs.Depths.{depth};
ghost use Rattle.coll_trees.specs.Trees.{IsNarrowFor};
ghost use Rattle.coll_plans.specs.BruckAllgather.{allgather_family};

use crate::bruck_rounds::Bruck;
use crate::layout::{all_bytes, block_bytes};
use coll_kinds::{Refusal, Signature};
use coll_sched::{Region, Schedule};
use std::alloc::Global;

/// Member `r`'s schedule of an allgather among `n` members (MPI 4.1, 6.7 and 6.12.5), by the algorithm of J. Bruck et
/// al.: members are counted round, the blocks from its own on that a member holds double in each step, and in the end
/// it copies them into member order. It sends n - 1 blocks in all, in as many messages as it takes to double up to
/// `n`, and its buffer has 2n blocks. Refuses [`Refusal::NoMemory`] alone.
pub fn allgather(alloc: Global, sig: Signature, n: u8, r: u8) -> Result<Schedule, Refusal>
    requires kind { sig.kind ≡ Allgather }
    requires checked { broken sig n ≡ None }
    requires member { r < n }
    requires few { n ≤ 64 }
    ensures schedule { IfOk result (λ s. s ≡ allgather_family sig n r) }
    ensures family { IsNarrowFor sig n (allgather_family sig n) (depth n) }
    ensures refusal { IsOkUnless result Refusal.NoMemory }
{
    let len = block_bytes(sig, n);
    let half = all_bytes(n, len);
    let bruck = Bruck { n, len };
    let rounds = bruck.rounds(alloc, r)?;
    let output = bruck.blocks(n, n);
    Ok(Schedule::of_lawful_rounds(half + half, Region::front(len), output, rounds))
}
