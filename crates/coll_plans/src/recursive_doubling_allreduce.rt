//! Principle: recursive doubling in member order. First the odd members of the first pairs of neighbours fold: each gives its
//! row to the even member below, so that as many members act as the greatest power of two that `n` reaches. These are the
//! corners of a hypercube. They exchange what they hold across one dimension after the other, and in the end the odd members
//! get the result.
//!
//! Rounds: 2 d + 3 for d dimensions, of which d exchange, and d + 2 where `n` is no power of two; the others are a
//! member's own. Messages: 2^d d + 2 e together, e being the members beyond 2^d. Bytes moved, for blocks of B bytes: a
//! corner sends and receives d B, and B each way more where it stands for two; all together (2^d d + 2 e) B. A buffer
//! has 2 B bytes.
//!
//! Cost, with a latency L for each exchange and G for each byte: (d + 2) (L + B G), or d (L + B G) for a power of two,
//! where the trees to member 0 and back take 2 ceil(log2 n) (L + B G).

ghost use Rattle.std.specs.Prelude.{◌≡◌, ◌<◌, ◌≤◌, None, IfOk, IsOkUnless};
ghost use Rattle.coll_kinds.specs.declared.kind.Kind.TheVariants.{Allreduce};
ghost use Rattle.coll_kinds.specs.Checks.{broken};
ghost use Rattle.coll_trees.specs.Trees.{IsNarrowFor};
ghost use Rattle.coll_plans.specs.RecursiveDoubling.{allreduce_family, most_trades};

use crate::layout::block_bytes;
use crate::recursive_doubling_hypercube::Hypercube;
use crate::recursive_doubling_rounds::RecursiveDoubling;
use coll_kinds::{Refusal, Signature};
use coll_sched::{Region, Schedule};
use std::alloc::Global;

/// Member `r`'s schedule of an allreduce among `n` members (MPI 4.1, 6.9.6), by recursive doubling: neighbouring ranges
/// of rows join in member order, so that operations that don't commute come out right, too. Refuses
/// [`Refusal::NoMemory`] alone.
pub fn allreduce(alloc: Global, sig: Signature, n: u8, r: u8) -> Result<Schedule, Refusal>
    requires kind { sig.kind ≡ Allreduce }
    requires checked { broken sig n ≡ None }
    requires member { r < n }
    requires few { n ≤ 64 }
    ensures schedule { IfOk result (λ s. s ≡ allreduce_family sig n r) }
    ensures family { IsNarrowFor sig n (allreduce_family sig n) (most_trades n) }
    ensures refusal { IsOkUnless result Refusal.NoMemory }
{
    let Some(op) = sig.op else { unreachable!() };
    let len = block_bytes(sig, n);
    let doubling = RecursiveDoubling {
        op,
        ty: sig.ty,
        cube: Hypercube::new(n),
        len,
    };
    let rounds = doubling.rounds(alloc, r)?;
    let block = Region { at: 0, len };
    Ok(Schedule::of_lawful_rounds(len + len, block, block, rounds))
}
