//! The signatures of the rows.

use coll_kinds::{Datatype, Kind, Mode, Op, Signature};

pub const BARRIER: Signature = Signature {
    kind: Kind::Barrier,
    mode: Mode::Once,
    root: 0,
    op: None,
    ty: Datatype::Byte,
    count: 0,
    each: None,
};

/// A bcast of one i32 value from member 0.
pub const BCAST: Signature = Signature {
    kind: Kind::Bcast,
    mode: Mode::Once,
    root: 0,
    op: None,
    ty: Datatype::I32,
    count: 1,
    each: None,
};

/// An allreduce of one i32 value.
pub const SUM: Signature = Signature {
    kind: Kind::Allreduce,
    mode: Mode::Once,
    root: 0,
    op: Some(Op::Sum),
    ty: Datatype::I32,
    count: 1,
    each: None,
};

pub const SUM_OF_THREE: Signature = Signature { count: 3, ..SUM };

/// An allreduce of 65,536 bytes.
pub const LONG_SUM: Signature = Signature {
    count: 16_384,
    ..SUM
};

pub const LONG_MAX: Signature = Signature {
    op: Some(Op::Max),
    ..LONG_SUM
};

pub const MAX: Signature = Signature {
    op: Some(Op::Max),
    ..SUM
};

pub const LAST: Signature = Signature {
    op: Some(Op::LastNz),
    ..SUM
};

pub const PERSISTENT_SUM: Signature = Signature {
    mode: Mode::Persistent,
    ..SUM
};

pub const PERSISTENT_MAX: Signature = Signature {
    mode: Mode::Persistent,
    ..MAX
};
