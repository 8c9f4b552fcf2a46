//! A long result that several members of an allreduce need: each of them combines the same rows.

ghost use Rattle.std.specs.Prelude.{◌≡◌, IfSome};

use coll_bytes::Bytes;
use coll_match::ResultCell;
use std::hint::spin_loop;

/// A result of at least this many bytes is shared. With fewer no gain was measured.
pub(crate) const LONG: u32 = 4_096;

/// A member spins once per this many bytes of a result, before it computes the result itself.
const BYTES_A_LOOK: usize = 16;

/// Where members that combine the same rows look for the result. The first of them computes it.
#[derive(Debug, Drop)]
pub(crate) struct SharedResult {
    pub(crate) cell: ResultCell,
    pub(crate) is_first: bool,
}

impl SharedResult {
    /// Returns the result of `len` bytes, if another member has computed it. Waits for that member
    /// about as long as the computation takes, because a second copy of the result costs more than
    /// one computation.
    pub(crate) fn find(&self, len: usize) -> Option<Bytes>
        ensures { IfSome result (λ bytes. bytes ≡ self.now.cell) }
    {
        if self.is_first {
            return None;
        }
        self.await_result(len / BYTES_A_LOOK);
        self.cell.result()
    }

    /// Spins at most `looks` times until another member has computed the result.
    fn await_result(&self, looks: usize) {
        for _look in 0..looks {
            if self.cell.is_filled() {
                return;
            }
            spin_loop();
        }
    }

    /// Publishes the result, if this member is the first.
    pub(crate) fn publish(&self, bytes: &Bytes)
        requires { bytes.now ≡ self.now.cell }
    {
        if self.is_first {
            self.cell.fill(bytes);
        }
    }
}
