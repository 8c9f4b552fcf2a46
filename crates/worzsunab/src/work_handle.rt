//! What C holds of a combination.
ghost use Rattle.std.specs.Prelude.{◌≡◌, is_some};

use crate::held_work::HeldWork;

pub mod moving;

/// A combination that was taken out of an engine, or none. All its bytes are 0 where there is none.
#[repr(C)]
pub struct WorkHandle {
    pub held: HeldWork,
    pub full: bool,
    ghost agrees: { is_some held.combination ≡ full },
}
