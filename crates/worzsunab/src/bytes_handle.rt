//! What C holds of bytes that were given, or taken.
ghost use Rattle.std.specs.Prelude.{◌≡◌, is_some};

use crate::held_bytes::HeldBytes;

pub mod moving;

/// Bytes that were copied for an engine, or an outcome that was taken out of one, or none. The handle is all zeros where there are none.
#[repr(C)]
pub struct BytesHandle {
    pub held: HeldBytes,
    pub full: bool,
    ghost agrees: { is_some held.bytes ≡ full },
}
