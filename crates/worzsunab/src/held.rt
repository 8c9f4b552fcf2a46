//! The pointer to an engine, and to none.
ghost use Rattle.std.specs.Prelude.{Option};
ghost use Rattle.coll_core.specs.Cores.{Parts};

use std::alloc::Global;
use std::marker::Model;

pub mod moving;

/// A pointer that owns an engine, or points to nothing.
#[repr(C)]
pub struct Held {
    pub(crate) at: *mut u8,
    pub(crate) alloc: Global,
    pub ghost engine: { Option Parts },
}

impl Model for Held {
    ghost use Rattle.worzsunab.specs.Owning.{owned};

    ghost also_owns = { λ h. owned h.alloc h.at h.engine };
}
