ghost use Rattle.std.specs.Prelude.{◌≡◌, ◌<◌, ◌≤◌, None, IfOk, IsOkUnless};
ghost use Rattle.coll_kinds.specs.declared.kind.Kind.TheVariants.{Alltoall};
ghost use Rattle.coll_kinds.specs.Checks.{broken};
ghost use Rattle.coll_plans.specs.DirectFamilies.{IsDirectFor, alltoall_family};
ghost use Rattle.coll_trees.specs.Depths.{direct_bound};

use crate::direct_blocks::Blocks;
use crate::direct_exchange::Exchange;
use crate::direct_pattern::Pattern;
use crate::layout::{all_blocks, all_bytes, block_bytes, first_round};
use coll_kinds::{Refusal, Signature};
use coll_sched::Schedule;
use std::alloc::Global;

/// Member `r`'s schedule of an alltoall among `n` members (MPI 4.1, 6.8): each sends each its block in one round, in
/// which it also copies its own. The n blocks that a member gets, in member order, lie after the n that it
/// gives. Refuses [`Refusal::NoMemory`] alone.
pub fn alltoall(alloc: Global, sig: Signature, n: u8, r: u8) -> Result<Schedule, Refusal>
    requires kind { sig.kind ≡ Alltoall }
    requires checked { broken sig n ≡ None }
    requires member { r < n }
    requires few { n ≤ 64 }
    ensures schedule { IfOk result (λ s. s ≡ alltoall_family sig n r) }
    ensures family { IsDirectFor sig n (alltoall_family sig n) (direct_bound n) }
    ensures refusal { IsOkUnless result Refusal.NoMemory }
{
    let len = block_bytes(sig, n);
    let half = all_bytes(n, len);
    let exchange = Exchange {
        pattern: Pattern::ToAll,
        from: Blocks::each(0, len),
        into: Blocks::each(half, len),
        n,
    };
    let round = exchange.round(alloc, r)?;
    let rounds = first_round(alloc, 1, round)?;
    let input = all_blocks(0, n, len);
    let output = all_blocks(half, n, len);
    Ok(Schedule::of_lawful_rounds(half + half, input, output, rounds))
}
