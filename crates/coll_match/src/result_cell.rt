//! The cell in which the result of a combination is shared, and in which it comes back to the engine.

ghost use Rattle.std.specs.Prelude.{◌≡◌, IfSome};

use crate::expected::IsTag;
use boxcar::slot::OnceSlot;
use boxcar::tag::Tag;
use coll_bytes::Bytes;
use std::alloc::Global;
use std::fmt;
use std::fmt::Write;
use std::marker::Model;
use std::sync::Arc;

/// An owner of a cell for certain bytes: the cell is empty or holds them. It takes no lock.
#[derive(Drop)]
pub struct ResultCell {
    slot: Arc<OnceSlot<Bytes, IsTag>>,
}

impl Model for ResultCell {
    ghost use Rattle.std.specs.Prelude.{List, ℕ};
    ghost use Rattle.std.specs.Arc.{arc_value};

    ghost Value = { List ℕ };

    ghost view = { λ c. (arc_value c.slot).tag };
}

impl fmt::Debug for ResultCell {
    fn fmt<W: Write>(&self, f: &mut fmt::Formatter<W>) -> fmt::Result {
        f.write_str("ResultCell")
    }
}

impl ResultCell {
    /// Makes an empty cell for the bytes of a tag, with two owners. None if memory is refused.
    pub fn pair(alloc: Global, tag: &Tag) -> Option<(ResultCell, ResultCell)>
        ensures { IfSome result (λ both. (both.0 ≡ tag.now.numbers) × (both.1 ≡ tag.now.numbers)) }
    {
        let slot = Arc::new(alloc, OnceSlot::new(tag)).ok()?;
        let other = Arc::try_clone(&slot).ok()?;
        Some((ResultCell { slot }, ResultCell { slot: other }))
    }

    /// Returns a further owner of the cell. It takes no memory.
    pub fn share(&self) -> Option<ResultCell>
        ensures { IfSome result (λ other. other ≡ self.now) }
    {
        let slot = Arc::try_clone(&self.slot).ok()?;
        Some(ResultCell { slot })
    }

    /// Puts the bytes into the cell, unless they can't have a second owner.
    pub fn fill(&self, bytes: &Bytes)
        requires { bytes.now ≡ self.now }
    {
        if let Some(shared) = bytes.share_counted() {
            let _ = self.slot.set(shared);
        }
    }

    /// Drops an owner. Returns whether it was the only other owner of this one's cell.
    pub fn was_shared_with(&self, other: ResultCell) -> bool {
        let owners = Arc::strong_count(&self.slot);
        drop(other);
        owners == 2 && Arc::strong_count(&self.slot) == 1
    }

    /// Returns whether the cell has its bytes.
    pub fn is_filled(&self) -> bool {
        self.slot.get().is_some()
    }

    /// Returns the bytes, if the cell has them.
    pub fn result(&self) -> Option<Bytes>
        ensures { IfSome result (λ bytes. bytes ≡ self.now) }
    {
        self.slot.get()?.share_counted()
    }
}
