use crate::rows::answer::CoreAnswer;
use crate::rows::call::CoreCall;
use crate::rows::setup::THREE;
use crate::rows::{CoreRow, assert_answers};
use coll_kinds::{Datatype, Kind, Mode, Signature};

/// Two i16 values of member 0, none of member 1 and one of member 2.
const ROWS: Signature = Signature {
    kind: Kind::Allgatherv,
    mode: Mode::Once,
    root: 0,
    op: None,
    ty: Datatype::I16,
    count: 0,
    each: Some([
        2, 0, 1, 0, 0, 0, 0, 0, 0, 0, 0, 0, 0, 0, 0, 0, 0, 0, 0, 0, 0, 0, 0, 0, 0, 0, 0, 0, 0, 0,
        0, 0, 0, 0, 0, 0, 0, 0, 0, 0, 0, 0, 0, 0, 0, 0, 0, 0, 0, 0, 0, 0, 0, 0, 0, 0, 0, 0, 0, 0,
        0, 0, 0, 0,
    ]),
};

// Each member lends what it gives and six bytes for what it gets: 10, 6 and 8 bytes in all.
const LENT_BY_ROWS: &[CoreRow] = &[
    (CoreCall::PostBytes(0, ROWS, 4), CoreAnswer::Accepted),
    (CoreCall::Lent, CoreAnswer::Lent(10)),
    (CoreCall::PostBytes(1, ROWS, 0), CoreAnswer::Accepted),
    (CoreCall::Lent, CoreAnswer::Lent(16)),
    (CoreCall::PostBytes(2, ROWS, 2), CoreAnswer::Accepted),
    (CoreCall::Lent, CoreAnswer::Lent(24)),
    (CoreCall::Rest, CoreAnswer::Accepted),
    (CoreCall::Lent, CoreAnswer::Lent(24)),
];

#[test]
fn rows_of_three_lend_their_bytes(rt: HostRuntime) {
    assert_answers(&rt, rt.alloc(), &THREE, LENT_BY_ROWS);
}
