//! The bytes of a pair, and the limits of signatures.

use coll_kinds::{
    Datatype, Kind, Mode, Op, Refusal, Signature, SignatureFault, print_element, read_element,
};
use std::alloc::Global;
use std::test::Fail;

/// A pair's text and its bytes.
const PAIR: (&str, [u8; 8]) = ("7,2", [7, 0, 0, 0, 2, 0, 0, 0]);

/// The text of a pair.
fn text_of_pair(alloc: Global, bytes: &[u8; 8]) -> Result<Vec<u8>, Refusal> {
    let mut out = Vec::new(alloc);
    print_element(bytes, Datatype::Pair, &mut out)?;
    Ok(out)
}

#[test]
fn pair_bytes(rt: HostRuntime) -> Result<(), Fail> {
    let (text, bytes) = PAIR;
    assert!(rt; read_element(text.as_bytes(), Datatype::Pair) == Some(bytes));
    assert!(rt; text_of_pair(rt.alloc(), &bytes)?.as_slice() == text.as_bytes());
    Ok(())
}

/// A gather of the greatest number of elements that a signature may have.
const GATHER: Signature = Signature {
    kind: Kind::Gather,
    mode: Mode::Once,
    root: 0,
    op: None,
    ty: Datatype::U64,
    count: 65_536,
    each: None,
};

const BYTE_SUM: Signature = Signature {
    kind: Kind::Allreduce,
    op: Some(Op::Sum),
    ty: Datatype::Byte,
    count: 1,
    ..GATHER
};

/// The number of members of an allgatherv, and the count of each. The counts after them are 0.
type CountsRow = (usize, u32);

/// A signature, the number of members, and the rule that it breaks.
type KindRow = (Signature, u8, Option<SignatureFault>);

/// The members of an allgatherv with the count of each, the number of members of the communicator, and the rule that the
/// allgatherv breaks there.
const ALLGATHERVS: &[(CountsRow, u8, Option<SignatureFault>)] = &[
    ((32, 65_536), 32, None),
    ((33, 65_536), 33, Some(SignatureFault::Size)),
    ((1, 65_537), 1, Some(SignatureFault::Count)),
];

fn allgatherv((members, count): CountsRow) -> Signature {
    let mut counts = [0; 64];
    for place in counts.iter_mut().take(members) {
        *place = count;
    }
    Signature {
        kind: Kind::Allgatherv,
        count: 0,
        each: Some(counts),
        ..GATHER
    }
}

/// Whether a signature breaks that rule, or none if there is none.
fn breaks((sig, n, rule): KindRow) -> bool {
    match (sig.check(n), rule) {
        (Ok(()), None) => true,
        (Err(why), Some(cause)) => why == Refusal::BadSignature { cause },
        _ => false,
    }
}

#[test]
fn byte_has_no_sum(rt: HostRuntime) {
    assert!(rt; breaks((BYTE_SUM, 1, Some(SignatureFault::Operation))));
}

#[test]
fn gather_size_limit(rt: HostRuntime) {
    assert!(rt; GATHER.got_len(32, 0) == 16_777_216);
    assert!(rt; breaks((GATHER, 32, None)));
    assert!(rt; breaks((GATHER, 33, Some(SignatureFault::Size))));
}

#[test]
fn allgatherv_limits(rt: HostRuntime) {
    for (rows, n, rule) in ALLGATHERVS {
        assert!(rt; breaks((allgatherv(*rows), *n, *rule)));
    }
}
