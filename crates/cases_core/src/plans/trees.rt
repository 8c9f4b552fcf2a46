//! The most exchanges of the binomial trees.

ghost use Rattle.std.specs.Prelude.{◌<◌, ◌≤◌};

use coll_kinds::{Datatype, Kind, Mode, Op, Refusal, Signature};
use coll_sched::Schedule;
use coll_trees::{allreduce, bcast, reduce};
use std::alloc::Global;
use std::test::Fail;

/// A tree, the number of members, and the greatest number of exchanges that a member may have.
type TreeRow = (Kind, u8, usize);

fn signature(kind: Kind) -> Signature {
    Signature {
        kind,
        mode: Mode::Once,
        root: 0,
        op: if kind.has_operation() {
            Some(Op::Sum)
        } else {
            None
        },
        ty: Datatype::I32,
        count: 1,
        each: None,
    }
}

fn build(alloc: Global, sig: Signature, n: u8, r: u8) -> Result<Schedule, Refusal>
    requires member { r < n }
    requires few { n ≤ 64 }
{
    sig.check(n)?;
    match sig.kind {
        Kind::Bcast => bcast(alloc, sig, n, r),
        Kind::Reduce => reduce(alloc, sig, n, r),
        Kind::Allreduce => allreduce(alloc, sig, n, r),
        _ => Err(Refusal::Full),
    }
}

/// Whether no member has more exchanges than the row says.
fn holds(alloc: Global, (kind, n, most): TreeRow) -> Result<bool, Refusal> {
    if n > 64 {
        return Ok(false);
    }
    for r in 0..n {
        if build(alloc, signature(kind), n, r)?.exchanges() > most {
            return Ok(false);
        }
    }
    Ok(true)
}

const EXCHANGES: &[TreeRow] = &[
    (Kind::Bcast, 1, 0),
    (Kind::Reduce, 1, 0),
    (Kind::Allreduce, 1, 0),
    (Kind::Bcast, 5, 3),
    (Kind::Reduce, 5, 4),
    (Kind::Allreduce, 5, 6),
];

#[test]
fn tree_exchanges(rt: HostRuntime) -> Result<(), Fail> {
    for row in EXCHANGES {
        assert!(rt; holds(rt.alloc(), *row)?);
    }
    Ok(())
}
