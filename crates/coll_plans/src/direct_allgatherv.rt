ghost use Rattle.std.specs.Prelude.{◌≡◌, ◌<◌, ◌≤◌, None, IfOk, IsOkUnless};
ghost use Rattle.coll_kinds.specs.declared.kind.Kind.TheVariants.{Allgatherv};
ghost use Rattle.coll_kinds.specs.Checks.{broken};
ghost use Rattle.coll_plans.specs.DirectFamilies.{IsDirectFor, allgatherv_family};
ghost use Rattle.coll_trees.specs.Depths.{direct_bound};

use crate::direct_row_exchange::row_exchange;
use crate::layout::first_round;
use coll_kinds::{Refusal, Signature};
use coll_sched::{Region, Schedule};
use std::alloc::Global;

/// Member `r`'s schedule of an allgatherv among `n` members (MPI 4.1, 6.7 and 6.12.5): each sends its row to each in one
/// round, in which it also copies it. The n rows that a member gets, packed in member order, lie before the one that it
/// gives. Refuses [`Refusal::NoMemory`] alone.
pub fn allgatherv(alloc: Global, sig: Signature, n: u8, r: u8) -> Result<Schedule, Refusal>
    requires kind { sig.kind ≡ Allgatherv }
    requires checked { broken sig n ≡ None }
    requires member { r < n }
    requires few { n ≤ 64 }
    ensures schedule { IfOk result (λ s. s ≡ allgatherv_family sig n r) }
    ensures family { IsDirectFor sig n (allgatherv_family sig n) (direct_bound n) }
    ensures refusal { IsOkUnless result Refusal.NoMemory }
{
    let all = sig.rows_len(n) as u32;
    let own = Region {
        at: all,
        len: sig.row_len(r) as u32,
    };
    let round = row_exchange(alloc, &sig, n, r, own)?;
    let rounds = first_round(alloc, 1, round)?;
    Ok(Schedule::of_lawful_rounds(all + own.len, own, Region::front(all), rounds))
}
