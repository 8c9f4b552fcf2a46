ghost use Rattle.std.specs.Prelude.{◌≡◌, ◌<◌, ◌≤◌, None, IfOk, IsOkUnless};
ghost use Rattle.coll_kinds.specs.declared.kind.Kind.TheVariants.{Gather};
ghost use Rattle.coll_kinds.specs.Checks.{broken};
ghost use Rattle.coll_plans.specs.DirectFamilies.{IsDirectFor, gather_family};
ghost use Rattle.coll_trees.specs.Depths.{direct_bound};

use crate::direct_blocks::Blocks;
use crate::direct_exchange::Exchange;
use crate::direct_pattern::Pattern;
use crate::layout::{block_bytes, blocks_if, first_round, size_at};
use coll_kinds::{Refusal, Signature};
use coll_sched::{Region, Schedule};
use std::alloc::Global;

/// Member `r`'s schedule of a gather among `n` members (MPI 4.1, 6.5): each sends its block to the root in one
/// round, in which the root also copies its own. The root's buffer has the n blocks, in member order, after its
/// own. Refuses [`Refusal::NoMemory`] alone.
pub fn gather(alloc: Global, sig: Signature, n: u8, r: u8) -> Result<Schedule, Refusal>
    requires kind { sig.kind ≡ Gather }
    requires checked { broken sig n ≡ None }
    requires member { r < n }
    requires few { n ≤ 64 }
    ensures schedule { IfOk result (λ s. s ≡ gather_family sig n r) }
    ensures family { IsDirectFor sig n (gather_family sig n) (direct_bound n) }
    ensures refusal { IsOkUnless result Refusal.NoMemory }
{
    let len = block_bytes(sig, n);
    let exchange = Exchange {
        pattern: Pattern::ToRoot { root: sig.root },
        from: Blocks::one(len),
        into: Blocks::each(len, len),
        n,
    };
    let round = exchange.round(alloc, r)?;
    let rounds = first_round(alloc, 1, round)?;
    let is_root = r == sig.root;
    let size = size_at(is_root, n, len);
    let input = Region { at: 0, len };
    let output = blocks_if(is_root, len, n, len);
    Ok(Schedule::of_lawful_rounds(size, input, output, rounds))
}
