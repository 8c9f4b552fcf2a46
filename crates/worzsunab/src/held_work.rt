//! The pointer to a combination, and to none.
ghost use Rattle.std.specs.Prelude.{Option};
ghost use Rattle.coll_serial.specs.declared.combination.Stage.{Stage};

use std::alloc::Global;
use std::marker::Model;

pub mod moving;

/// A pointer that owns a combination, or points to nothing.
#[repr(C)]
pub struct HeldWork {
    pub(crate) at: *mut u8,
    pub(crate) alloc: Global,
    pub ghost combination: { Option (Option Stage) },
}

impl Model for HeldWork {
    ghost use Rattle.worzsunab.specs.OwningWork.{owned_work};

    ghost also_owns = { λ h. owned_work h.alloc h.at h.combination };
}
