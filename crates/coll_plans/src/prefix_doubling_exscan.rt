//! Principle: prefix doubling, as in a scan, so that the members above get what they need. Beside that each member collects
//! what comes from below in a third block, without its own row: at distance 1 it copies what came, and later it combines
//! what came in front.
//!
//! Rounds: 2 d for d = ceil(log2 n), of which d exchange; the others are a member's own. Messages: n d - 2^d + 1 together,
//! each of the block's B bytes, as many as in a scan. A buffer has 3 B bytes.
//!
//! Cost, with a latency L for each exchange and G for each byte: d (L + B G).

ghost use Rattle.std.specs.Prelude.{◌≡◌, ◌==◌, ◌<◌, ◌≤◌, ◌^◌, cond, None, IfOk, IsOkUnless};
ghost use Rattle.coll_kinds.specs.declared.kind.Kind.TheVariants.{Exscan};
ghost use Rattle.coll_kinds.specs.Checks.{broken};
ghost use Rattle.coll_trees.specs.Depths.{depth};
ghost use Rattle.coll_sched.specs.Regions.{nothing};
ghost use Rattle.coll_trees.specs.Trees.{IsNarrowFor};
ghost use Rattle.coll_plans.specs.PrefixDoubling.{third, exscan_family};

use crate::layout::block_bytes;
use crate::prefix_doubling_rounds::PrefixDoubling;
use coll_kinds::{Refusal, Signature};
use coll_sched::{Region, Schedule};
use std::alloc::Global;

/// Member `r`'s schedule of an exscan among `n` members (MPI 4.1, 6.11.2): it gets the combination of the rows
/// of members 0 to `r - 1`, in member order, and member 0 gets nothing. Ranges of rows double in each step, as
/// in a scan; beside them each member collects those that end before its own row, in a third block of its
/// buffer. Refuses [`Refusal::NoMemory`] alone.
pub fn exscan(alloc: Global, sig: Signature, n: u8, r: u8) -> Result<Schedule, Refusal>
    requires kind { sig.kind ≡ Exscan }
    requires checked { broken sig n ≡ None }
    requires member { r < n }
    requires few { n ≤ 64 }
    ensures schedule { IfOk result (λ s. s ≡ exscan_family sig n r) }
    ensures family { IsNarrowFor sig n (exscan_family sig n) (depth n) }
    ensures refusal { IsOkUnless result Refusal.NoMemory }
{
    let Some(op) = sig.op else { unreachable!() };
    let len = block_bytes(sig, n);
    let doubling = PrefixDoubling {
        op,
        ty: sig.ty,
        n,
        len,
        exclusive: true,
    };
    let rounds = doubling.rounds(alloc, r)?;
    let block = Region { at: 0, len };
    let output = output_at(len, r);
    Ok(Schedule::of_lawful_rounds(len + len + len, block, output, rounds))
}

// Where member r has the rows before its own in the end: member 0 has none.
fn output_at(len: u32, r: u8) -> Region
    requires { len < 2 ^ 30 }
    ensures { result ≡ cond (r == 0) nothing (third len) }
{
    if r == 0 {
        Region::EMPTY
    } else {
        Region { at: len + len, len }
    }
}
