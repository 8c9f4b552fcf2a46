ghost use Rattle.std.specs.Prelude.{◌≡◌, ◌≤◌, ◌%◌, length, take, IsTrue};
ghost use Rattle.coll_kinds.specs.Checks.{allowed};
ghost use Rattle.coll_kinds.specs.Elements.{width};
ghost use Rattle.coll_ops.specs.Combinations.{combined as combination};

use coll_bytes::copy_few;
use coll_kinds::{Datatype, Op};
use coll_ops::combine_into;
use std::marker::Model;

/// Operands of up to this many bytes are handed out by value.
pub const WORD: usize = 8;

/// Up to eight bytes, by value.
#[derive(Debug, Drop)]
pub(crate) struct Word {
    len: u8,
    row: [u8; WORD],
}

impl Model for Word {
    ghost use Rattle.std.specs.Prelude.{List, ℕ, ◌≤◌, length, take};
    ghost use Rattle.coll_core.specs.declared.word.TheConstants.{WORD};

    ghost Value = { List ℕ };

    ghost view = { λ w. take w.len w.row };

    ghost invariant = { λ w. (w.len ≤ WORD) × (w.len ≤ length w.row) };
}

/// Combines two operands; `left` is the first.
#[inline(always)]
pub(crate) fn combined_words(op: Op, ty: Datatype, left: &Word, right: &Word) -> Word
    requires allowed { IsTrue (allowed op ty) }
    requires whole { length left.now % width ty ≡ 0 }
    requires same { length right.now ≡ length left.now }
    ensures { result ≡ combination op ty left.now right.now }
{
    let mut row = left.row;
    combine_into(op, ty, &mut row[..left.len as usize], right.as_slice());
    Word { len: left.len, row }
}

impl Word {
    /// Copies up to eight bytes.
    pub(crate) fn of(bytes: &[u8]) -> Word
        requires { length bytes.now ≤ WORD }
        ensures { result ≡ bytes.now }
    {
        let mut row = [0; WORD];
        copy_few(bytes, &mut row[..bytes.len()]);
        Word {
            len: bytes.len() as u8,
            row,
        }
    }

    /// Returns the bytes.
    pub(crate) fn as_slice(&self) -> &[u8]
        ensures value { result.now ≡ self.now }
        ensures few { length self.now ≤ WORD }
    {
        &self.row[..self.len as usize]
    }
}
