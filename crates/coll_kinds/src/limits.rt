//! The limits of this engine. The MPI standard sets none; these are our own.

/// The most ranks of a job, and so the most members of a communicator.
pub const MAX_RANKS: usize = 64;

/// The most communicators, the one of all ranks among them.
pub const MAX_COMMUNICATORS: usize = 16;

/// The most requests of a job, counted by their posts and initialisations.
pub const MAX_REQUESTS: usize = 4096;

/// The most bytes of a job text: 1 MiB.
pub const MAX_TEXT: usize = 1_048_576;

/// The most elements in a block.
pub const MAX_COUNT: u32 = 65_536;

/// The most bytes that one member gives, or gets: 16 MiB.
pub const MAX_LEN: usize = 16_777_216;

/// The most bytes that one active request lends to the engine, given and got together.
pub const MAX_LENT: u32 = 33_554_432;
