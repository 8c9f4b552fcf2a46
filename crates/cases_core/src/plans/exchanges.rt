//! The most exchanges of a member's plan, and the signatures that have none.

ghost use Rattle.std.specs.Prelude.{◌<◌, ◌≤◌};

use coll_kinds::{Datatype, Kind, Mode, Op, Refusal, Signature, SignatureFault};
use coll_plans::plan;
use coll_sched::Action;
use std::alloc::Global;
use std::test::Fail;

/// A signature, the number of members, and the greatest number of exchanges that a member may have.
type ExchangesRow = (Signature, u8, usize);

const BARRIER: Signature = Signature {
    kind: Kind::Barrier,
    mode: Mode::Once,
    root: 0,
    op: None,
    ty: Datatype::I32,
    count: 0,
    each: None,
};

const BCAST: Signature = Signature {
    kind: Kind::Bcast,
    count: 1,
    ..BARRIER
};

const REDUCE: Signature = Signature {
    kind: Kind::Reduce,
    op: Some(Op::Sum),
    ..BCAST
};

const ALLREDUCE: Signature = Signature {
    kind: Kind::Allreduce,
    ..REDUCE
};

const SCAN: Signature = Signature {
    kind: Kind::Scan,
    ..REDUCE
};

const EXSCAN: Signature = Signature {
    kind: Kind::Exscan,
    ..REDUCE
};

const RSBLOCK: Signature = Signature {
    kind: Kind::Rsblock,
    ..REDUCE
};

const GATHER: Signature = Signature {
    kind: Kind::Gather,
    ..BCAST
};

const SCATTER: Signature = Signature {
    kind: Kind::Scatter,
    ..BCAST
};

const ALLTOALL: Signature = Signature {
    kind: Kind::Alltoall,
    ..BCAST
};

const ALLGATHER: Signature = Signature {
    kind: Kind::Allgather,
    ..BCAST
};

/// One element of each of five members.
const ALLGATHERV_OF_FIVE: Signature = Signature {
    kind: Kind::Allgatherv,
    count: 0,
    each: Some([
        1, 1, 1, 1, 1, 0, 0, 0, 0, 0, 0, 0, 0, 0, 0, 0, 0, 0, 0, 0, 0, 0, 0, 0, 0, 0, 0, 0, 0, 0,
        0, 0, 0, 0, 0, 0, 0, 0, 0, 0, 0, 0, 0, 0, 0, 0, 0, 0, 0, 0, 0, 0, 0, 0, 0, 0, 0, 0, 0, 0,
        0, 0, 0, 0,
    ]),
    ..BCAST
};

/// No elements of one member.
const ALLGATHERV_OF_ONE: Signature = Signature {
    each: Some([0; 64]),
    ..ALLGATHERV_OF_FIVE
};

/// The number of rounds and of exchanges of a member's plan.
fn shape_of(alloc: Global, sig: Signature, n: u8, r: u8) -> Result<(usize, usize), Refusal>
    requires member { r < n }
    requires few { n ≤ 64 }
{
    let plan = plan(alloc, sig, n, r)?;
    let schedule = plan.schedule();
    Ok((schedule.rounds().len(), schedule.exchanges()))
}

/// The greatest number of exchanges of a member.
fn most_exchanges(alloc: Global, sig: Signature, n: u8) -> Result<usize, Refusal>
    requires few { n ≤ 64 }
{
    let mut most = 0;
    for r in 0..n {
        let (_, exchanges) = shape_of(alloc, sig, n, r)?;
        if exchanges > most {
            most = exchanges;
        }
    }
    Ok(most)
}

/// The index of the first row in which a member has more exchanges than the row says; None if there is none.
fn first_misfit(alloc: Global, rows: &[ExchangesRow]) -> Result<Option<usize>, Refusal> {
    for (index, (sig, n, most)) in rows.iter().enumerate() {
        if *n > 64 || most_exchanges(alloc, *sig, *n)? > *most {
            return Ok(Some(index));
        }
    }
    Ok(None)
}

/// Kinds by dissemination and by direct exchanges, among 5 and among 64 members.
const PLANS: &[ExchangesRow] = &[
    (BARRIER, 5, 3),
    (SCAN, 5, 3),
    (EXSCAN, 5, 3),
    (GATHER, 5, 1),
    (SCATTER, 5, 1),
    (ALLTOALL, 5, 1),
    (RSBLOCK, 5, 1),
    (BARRIER, 64, 6),
    (SCAN, 64, 6),
    (EXSCAN, 64, 6),
    (GATHER, 64, 1),
    (SCATTER, 64, 1),
    (ALLTOALL, 64, 1),
    (RSBLOCK, 64, 1),
];

#[test]
fn plan_exchanges(rt: HostRuntime) -> Result<(), Fail> {
    assert!(rt; first_misfit(rt.alloc(), PLANS)?.is_none());
    Ok(())
}

const ALLREDUCES: &[ExchangesRow] = &[
    (ALLREDUCE, 6, 4),
    (ALLREDUCE, 2, 1),
    (ALLREDUCE, 4, 2),
    (ALLREDUCE, 8, 3),
];

#[test]
fn allreduce_exchanges(rt: HostRuntime) -> Result<(), Fail> {
    assert!(rt; first_misfit(rt.alloc(), ALLREDUCES)?.is_none());
    Ok(())
}

/// Whether a round has two sends.
fn has_two_sends(actions: &[Action]) -> bool {
    let mut is_sent = false;
    for action in actions {
        if let Action::Send { .. } = action {
            if is_sent {
                return true;
            }
            is_sent = true;
        }
    }
    false
}

/// Whether a round of a member's plan has two sends.
fn sends_twice(alloc: Global, sig: Signature, n: u8, r: u8) -> Result<bool, Refusal>
    requires member { r < n }
    requires few { n ≤ 64 }
{
    let plan = plan(alloc, sig, n, r)?;
    for round in plan.schedule().rounds() {
        if has_two_sends(round.actions()) {
            return Ok(true);
        }
    }
    Ok(false)
}

const ALLGATHERS: &[ExchangesRow] = &[
    (ALLGATHERV_OF_FIVE, 5, 1),
    (ALLGATHERV_OF_ONE, 1, 0),
    (ALLGATHER, 5, 3),
];

#[test]
fn allgatherv_exchanges(rt: HostRuntime) -> Result<(), Fail> {
    assert!(rt; first_misfit(rt.alloc(), ALLGATHERS)?.is_none());
    for r in 0..5u8 {
        assert!(rt; !sends_twice(rt.alloc(), ALLGATHER, 5, r)?);
    }
    Ok(())
}

const LONG_BCAST: Signature = Signature {
    ty: Datatype::U8,
    count: 65_536,
    ..BCAST
};

const SHORT_BCAST: Signature = Signature {
    ty: Datatype::U64,
    count: 8_191,
    ..BCAST
};

/// The rounds and exchanges of each of three members, when four segments go along the chain.
const CHAIN: &[(usize, usize)] = &[(5, 4), (5, 5), (5, 4)];

/// Whether each of three members has these rounds and exchanges.
fn is_chain(alloc: Global, sig: Signature, shapes: &[(usize, usize)]) -> Result<bool, Refusal> {
    for r in 0..3u8 {
        let shape = shape_of(alloc, sig, 3, r)?;
        if shapes.get(usize::from(r)) != Some(&shape) {
            return Ok(false);
        }
    }
    Ok(true)
}

#[test]
fn segmented_bcast(rt: HostRuntime) -> Result<(), Fail> {
    assert!(rt; is_chain(rt.alloc(), LONG_BCAST, CHAIN)?);
    assert!(rt; first_misfit(rt.alloc(), &[(SHORT_BCAST, 3, 2)])?.is_none());
    Ok(())
}

const BYTE_SUM: Signature = Signature {
    ty: Datatype::Byte,
    ..ALLREDUCE
};

const NO_SUM: Refusal = Refusal::BadSignature {
    cause: SignatureFault::Operation,
};

#[test]
fn plan_of_byte_sum(rt: HostRuntime) {
    assert!(rt; shape_of(rt.alloc(), BYTE_SUM, 3, 1) == Err(NO_SUM));
}
