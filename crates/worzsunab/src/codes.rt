//! What functions answer.

pub const DONE: i32 = 0;

/// The request isn't Done.
pub const PENDING: i32 = -1;

/// The memory has room for fewer bytes.
pub const BAD_LENGTH: i32 = 4;

/// Memory was refused.
pub const NO_MEMORY: i32 = 17;

/// A number that names no kind, operation or type.
pub const BAD_NUMBER: i32 = 19;

/// The handle has no engine.
pub const CLOSED: i32 = 20;

/// The handle has an engine already.
pub const OPEN: i32 = 21;

/// There is no combination: none is left, or the handle has none.
pub const NO_WORK: i32 = 22;

/// The handle has a combination already.
pub const HAS_WORK: i32 = 23;

/// A request stands twice in a list.
pub const TWICE: i32 = 24;

/// No member has posted so much, or there is no such communicator.
pub const NO_PLACE: i32 = 25;

/// The handle has no bytes.
pub const NO_BYTES: i32 = 26;

/// The handle has bytes already.
pub const HAS_BYTES: i32 = 27;
