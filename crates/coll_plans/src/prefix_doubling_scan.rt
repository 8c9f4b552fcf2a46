//! Principle: prefix doubling. Before the step at distance s = 1, 2, 4, .. each member holds the combination of the s rows that
//! end with its own, or of all rows up to its own where there are fewer. It sends that to the member s above, if there is
//! one, and combines what it receives of the member s below in front of its own.
//!
//! Rounds: 2 d for d = ceil(log2 n), of which d exchange; the others are a member's own. Messages: n d - 2^d + 1 together,
//! each of the block's B bytes; no member sends or receives more than d. A buffer has 2 B bytes.
//!
//! Cost, with a latency L for each exchange and G for each byte: d (L + B G).

ghost use Rattle.std.specs.Prelude.{◌≡◌, ◌<◌, ◌≤◌, None, IfOk, IsOkUnless};
ghost use Rattle.coll_kinds.specs.declared.kind.Kind.TheVariants.{Scan};
ghost use Rattle.coll_kinds.specs.Checks.{broken};
ghost use Rattle.coll_trees.specs.Depths.{depth};
ghost use Rattle.coll_trees.specs.Trees.{IsNarrowFor};
ghost use Rattle.coll_plans.specs.PrefixDoubling.{scan_family};

use crate::layout::block_bytes;
use crate::prefix_doubling_rounds::PrefixDoubling;
use coll_kinds::{Refusal, Signature};
use coll_sched::{Region, Schedule};
use std::alloc::Global;

/// Member `r`'s schedule of a scan among `n` members (MPI 4.1, 6.11.1): it gets the combination of the rows
/// of members 0 to `r`, in member order, by ranges of rows that double in each step. Its buffer has two
/// blocks. Refuses [`Refusal::NoMemory`] alone.
pub fn scan(alloc: Global, sig: Signature, n: u8, r: u8) -> Result<Schedule, Refusal>
    requires kind { sig.kind ≡ Scan }
    requires checked { broken sig n ≡ None }
    requires member { r < n }
    requires few { n ≤ 64 }
    ensures schedule { IfOk result (λ s. s ≡ scan_family sig n r) }
    ensures family { IsNarrowFor sig n (scan_family sig n) (depth n) }
    ensures refusal { IsOkUnless result Refusal.NoMemory }
{
    let Some(op) = sig.op else { unreachable!() };
    let len = block_bytes(sig, n);
    let doubling = PrefixDoubling {
        op,
        ty: sig.ty,
        n,
        len,
        exclusive: false,
    };
    let rounds = doubling.rounds(alloc, r)?;
    let block = Region { at: 0, len };
    Ok(Schedule::of_lawful_rounds(len + len, block, block, rounds))
}
