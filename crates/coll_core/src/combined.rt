ghost use Rattle.std.specs.Prelude.{◌≡◌, ◌≤◌, ◌%◌, ◌++◌, [], length, vec_len, IfOk, IsOkUnless, IsTrue, OnOk};
ghost use Rattle.coll_kinds.specs.Checks.{allowed};
ghost use Rattle.coll_kinds.specs.Elements.{width};
ghost use Rattle.coll_ops.specs.Combinations.{combined as combination};

use crate::buffer::SHORT;
use coll_bytes::{Bytes, FEW, Home};
use coll_kinds::{Datatype, Op, Refusal};
use coll_ops::combine_into;
use std::alloc::{AllocError, Global};

/// Long rows are combined in blocks of this many bytes (bench/RESULTS.md, "Memory").
const BLOCK: usize = 8_192;

/// Combines two operands of up to `FEW` bytes; `left` is the first operand. Takes no memory.
#[inline(always)]
pub(crate) fn combined_few(op: Op, ty: Datatype, left: &[u8], right: &[u8]) -> Bytes
    requires few { length left.now ≤ FEW }
    requires allowed { IsTrue (allowed op ty) }
    requires whole { length left.now % width ty ≡ 0 }
    requires same { length right.now ≡ length left.now }
    ensures is { result ≡ combination op ty left.now right.now }
    ensures long { length result ≡ length left.now }
{
    let mut row = [0; FEW];
    let out = &mut row[..left.len()];
    out.copy_from_slice(left);
    combine_into(op, ty, out, right);
    Bytes::few(out)
}

/// Appends the combination of two rows: copies the first to the end, and combines it there with the
/// second.
fn append_combination(
    op: Op,
    ty: Datatype,
    left: &[u8],
    right: &[u8],
    row: &mut Vec<u8>,
) -> Result<(), AllocError>
    requires allowed { IsTrue (allowed op ty) }
    requires whole { length left.now % width ty ≡ 0 }
    requires same { length right.now ≡ length left.now }
    ensures { OnOk result (row.new.items ≡ row.old.items ++ combination op ty left.now right.now) }
{
    let at = row.len();
    row.extend_from_slice(left)?;
    combine_into(op, ty, &mut row[at..], right);
    Ok(())
}

/// Combines two rows block by block in an empty vector. A block is still in the cache when it is
/// combined after its copy, and no zeros are written before it.
fn combined_row(
    room: Vec<u8>,
    op: Op,
    ty: Datatype,
    left: &[u8],
    right: &[u8],
) -> Result<Vec<u8>, AllocError>
    requires allowed { IsTrue (allowed op ty) }
    requires whole { length left.now % width ty ≡ 0 }
    requires same { length right.now ≡ length left.now }
    requires empty { room.items ≡ [] }
    requires none { vec_len room ≡ 0 }
    ensures is { IfOk result (λ row. row.items ≡ combination op ty left.now right.now) }
    ensures long { IfOk result (λ row. length row.items ≡ length left.now) }
{
    let mut row = room;
    let mut done = 0;
    while done < left.len() {
        let end = done + (left.len() - done).min(BLOCK);
        append_combination(op, ty, &left[done..end], &right[done..end], &mut row)?;
        done = end;
    }
    Ok(row)
}

/// Combines two operands; `left` is the first. The only refusal is NoMemory; up to `FEW` bytes take
/// no memory. The block of a long result counts its owners, because the result is sent on or
/// becomes the outcome. If there are blocks, the result is put into one of them, which comes back.
#[inline(always)]
pub(crate) fn combined(
    alloc: Global,
    op: Op,
    ty: Datatype,
    left: &Bytes,
    right: &Bytes,
    blocks: Option<&Home>,
) -> Result<Bytes, Refusal>
    requires allowed { IsTrue (allowed op ty) }
    requires whole { length left.now % width ty ≡ 0 }
    requires same { length right.now ≡ length left.now }
    ensures ok { IfOk result (λ bytes. bytes ≡ combination op ty left.now right.now) }
    ensures long { IfOk result (λ bytes. length bytes ≡ length left.now) }
    ensures refusal { IsOkUnless result Refusal.NoMemory }
{
    let len = left.len() as usize;
    if len <= FEW {
        return Ok(combined_few(op, ty, left.as_slice(), right.as_slice()));
    }
    if len <= SHORT as usize {
        let room = Vec::with_capacity(alloc, len)?;
        let row = combined_row(room, op, ty, left.as_slice(), right.as_slice())?;
        return Ok(Bytes::from_vec(row));
    }
    let room = match blocks {
        Some(blocks) => blocks.take(alloc, len)?,
        None => Vec::with_capacity(alloc, len)?,
    };
    let row = combined_row(room, op, ty, left.as_slice(), right.as_slice())?;
    let home = match blocks {
        Some(blocks) => blocks.share(),
        None => None,
    };
    Ok(Bytes::from_block(alloc, row, home)?)
}
