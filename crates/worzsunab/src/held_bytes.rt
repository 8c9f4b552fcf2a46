//! The pointer to bytes, and to none.
ghost use Rattle.std.specs.Prelude.{List, Option, ℕ};

use std::alloc::Global;
use std::marker::Model;

pub mod moving;

/// A pointer that owns bytes in the engine's form, or points to nothing.
#[repr(C)]
pub struct HeldBytes {
    pub(crate) at: *mut u8,
    pub(crate) alloc: Global,
    pub ghost bytes: { Option (List ℕ) },
}

impl Model for HeldBytes {
    ghost use Rattle.worzsunab.specs.OwningBytes.{owned_bytes};

    ghost also_owns = { λ h. owned_bytes h.alloc h.at h.bytes };
}
