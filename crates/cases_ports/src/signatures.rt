//! The signatures of the rows.

use coll_kinds::{Datatype, Kind, Mode, Op, Signature};

/// A bcast of one number from member 0.
pub const BCAST: Signature = Signature {
    kind: Kind::Bcast,
    mode: Mode::Once,
    root: 0,
    op: None,
    ty: Datatype::U8,
    count: 1,
    each: None,
};

/// A bcast of two bytes.
pub const BCAST_OF_TWO: Signature = Signature {
    ty: Datatype::Byte,
    count: 2,
    ..BCAST
};

pub const PERSISTENT_BCAST_OF_TWO: Signature = Signature {
    mode: Mode::Persistent,
    ..BCAST_OF_TWO
};

/// A persistent allgather of one number.
pub const GATHER: Signature = Signature {
    kind: Kind::Allgather,
    mode: Mode::Persistent,
    ..BCAST
};

/// An allreduce that sums one number of each member.
pub const SUM: Signature = Signature {
    kind: Kind::Allreduce,
    op: Some(Op::Sum),
    ..BCAST
};

pub const PERSISTENT_SUM: Signature = Signature {
    mode: Mode::Persistent,
    ..SUM
};

/// An allreduce that sums one i32 value of each member.
pub const SUM_OF_I32: Signature = Signature {
    ty: Datatype::I32,
    ..SUM
};
