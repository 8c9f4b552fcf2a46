ghost use Rattle.std.specs.Prelude.{◌≡◌, ◌<◌, ◌≤◌, None, IfOk, IsOkUnless, IsErrOf, MatchOption};
ghost use Rattle.coll_kinds.specs.Checks.{broken};
ghost use Rattle.coll_kinds.specs.declared.kind.Kind.TheVariants.{Bcast};
ghost use Rattle.coll_plans.specs.Plans.{family, family_by, IsPlanned};

use crate::chain_pipelined_bcast::is_long;
use crate::layout::block_bytes;
use crate::planned::{Plan, SharedPlan};
use crate::{
    allgather, allgatherv, allreduce, alltoall, barrier, chain_bcast, exscan, gather, rsblock,
    scan, scatter,
};
use coll_kinds::{Kind, Refusal, Signature};
use coll_sched::Schedule;
use coll_trees::{bcast, reduce};
use std::alloc::Global;
use std::sync::Arc;

/// Member `r`'s plan of a collective among `n` members (MPI 4.1, 6.12). Refuses [`Refusal::BadSignature`]
/// exactly as [`Signature::check`] does, with its cause, and else [`Refusal::NoMemory`] alone. The cost is linear in
/// the schedule's actions, which are at most 256, and in `n` for the check.
pub fn plan(alloc: Global, sig: Signature, n: u8, r: u8) -> Result<Plan, Refusal>
    requires member { r < n }
    requires few { n ≤ 64 }
    ensures plan { IfOk result (λ p. p ≡ record { sig = sig; n = n; member = r }) }
    ensures family { broken sig n ≡ None → IsPlanned sig n (family sig n) }
    ensures refusal { MatchOption (broken sig n)
        (IsOkUnless result Refusal.NoMemory)
        (λ cause. IsErrOf result (Refusal.BadSignature cause)) }
{
    sig.check(n)?;
    let schedule = schedule_of(alloc, sig, n, r)?;
    let sig = Arc::new(alloc, sig)?;
    Plan::of_shared(
        alloc,
        SharedPlan {
            sig,
            n,
            member: r,
            schedule,
        },
    )
}

// By the builder of the signature's kind.
fn schedule_of(alloc: Global, sig: Signature, n: u8, r: u8) -> Result<Schedule, Refusal>
    requires checked { broken sig n ≡ None }
    requires member { r < n }
    requires few { n ≤ 64 }
    ensures schedule { IfOk result (λ s. s ≡ family sig n r) }
    ensures refusal { IsOkUnless result Refusal.NoMemory }
{
    match sig.kind {
        Kind::Barrier => barrier(alloc, sig, n, r),
        Kind::Bcast => bcast_by_length(alloc, sig, n, r),
        Kind::Gather => gather(alloc, sig, n, r),
        Kind::Scatter => scatter(alloc, sig, n, r),
        Kind::Allgather => allgather(alloc, sig, n, r),
        Kind::Allgatherv => allgatherv(alloc, sig, n, r),
        Kind::Alltoall => alltoall(alloc, sig, n, r),
        Kind::Reduce => reduce(alloc, sig, n, r),
        Kind::Allreduce => allreduce(alloc, sig, n, r),
        Kind::Rsblock => rsblock(alloc, sig, n, r),
        Kind::Scan => scan(alloc, sig, n, r),
        Kind::Exscan => exscan(alloc, sig, n, r),
    }
}

// A long block goes along a chain, a shorter one by the tree.
fn bcast_by_length(alloc: Global, sig: Signature, n: u8, r: u8) -> Result<Schedule, Refusal>
    requires kind { sig.kind ≡ Bcast }
    requires checked { broken sig n ≡ None }
    requires member { r < n }
    requires few { n ≤ 64 }
    ensures schedule { IfOk result (λ s. s ≡ family_by Bcast sig n r) }
    ensures refusal { IsOkUnless result Refusal.NoMemory }
{
    if is_long(n, block_bytes(sig, n)) {
        chain_bcast(alloc, sig, n, r)
    } else {
        bcast(alloc, sig, n, r)
    }
}
