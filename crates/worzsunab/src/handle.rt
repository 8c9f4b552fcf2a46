//! What C holds of an engine.
ghost use Rattle.std.specs.Prelude.{◌≡◌, is_some};

use crate::held::Held;
use crate::reason::Reason;

pub mod moving;

/// An engine that is open, or none. All its bytes are 0 where it is closed and no call was refused.
#[repr(C)]
pub struct Handle {
    pub held: Held,
    pub opened: bool,
    /// The last refusal, with its data.
    pub reason: Reason,
    ghost agrees: { is_some held.engine ≡ opened },
}
