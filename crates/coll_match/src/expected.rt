//! The rule for what may lie in a result cell.

ghost use Rattle.std.specs.Prelude.{◌≡◌};

use boxcar::slot::SlotRule;
use coll_bytes::Bytes;

/// The bytes in a slot are those of its tag, which is fixed when the slot is made.
pub(crate) struct IsTag;

impl SlotRule<Bytes> for IsTag {
    ghost holds = { λ tag bytes. bytes ≡ tag };
}
