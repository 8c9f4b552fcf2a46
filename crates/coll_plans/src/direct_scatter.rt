ghost use Rattle.std.specs.Prelude.{◌≡◌, ◌<◌, ◌≤◌, None, IfOk, IsOkUnless};
ghost use Rattle.coll_kinds.specs.declared.kind.Kind.TheVariants.{Scatter};
ghost use Rattle.coll_kinds.specs.Checks.{broken};
ghost use Rattle.coll_plans.specs.DirectFamilies.{IsDirectFor, scatter_family};
ghost use Rattle.coll_trees.specs.Depths.{direct_bound};

use crate::direct_blocks::Blocks;
use crate::direct_exchange::Exchange;
use crate::direct_pattern::Pattern;
use crate::layout::{block_bytes, blocks_if, first_round, size_at};
use coll_kinds::{Refusal, Signature};
use coll_sched::{Region, Schedule};
use std::alloc::Global;

/// Member `r`'s schedule of a scatter among `n` members (MPI 4.1, 6.6): the root sends each its block in one round,
/// in which it also copies its own. The outcome is the first block of the buffer; the root's n blocks lie
/// after it. Refuses [`Refusal::NoMemory`] alone.
pub fn scatter(alloc: Global, sig: Signature, n: u8, r: u8) -> Result<Schedule, Refusal>
    requires kind { sig.kind ≡ Scatter }
    requires checked { broken sig n ≡ None }
    requires member { r < n }
    requires few { n ≤ 64 }
    ensures schedule { IfOk result (λ s. s ≡ scatter_family sig n r) }
    ensures family { IsDirectFor sig n (scatter_family sig n) (direct_bound n) }
    ensures refusal { IsOkUnless result Refusal.NoMemory }
{
    let len = block_bytes(sig, n);
    let exchange = Exchange {
        pattern: Pattern::FromRoot { root: sig.root },
        from: Blocks::each(len, len),
        into: Blocks::one(len),
        n,
    };
    let round = exchange.round(alloc, r)?;
    let rounds = first_round(alloc, 1, round)?;
    let is_root = r == sig.root;
    let size = size_at(is_root, n, len);
    let input = blocks_if(is_root, len, n, len);
    let output = Region { at: 0, len };
    Ok(Schedule::of_lawful_rounds(size, input, output, rounds))
}
