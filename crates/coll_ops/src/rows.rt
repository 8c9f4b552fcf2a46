//! Two rows of elements, combined place by place (MPI 4.1, 6.9.1), or compared.
//!
//! The operation and the type are matched once, outside the loop: each arm names them anew, so that the loop, which is
//! inlined there, is compiled for that operation and that width alone, as vector code.

ghost use Rattle.std.specs.Prelude.{◌≡◌, ◌↔◌, ◌%◌, false, length, IsTrue};
ghost use Rattle.coll_kinds.specs.declared.datatype.Datatype.TheVariants.{Pair};
ghost use Rattle.coll_kinds.specs.Elements.{width, is_pair};
ghost use Rattle.coll_kinds.specs.Checks.{allowed};
ghost use Rattle.coll_ops.specs.Combinations.{combined};

use crate::elements::{combine_elements, combine_elements_into};
use coll_kinds::{Datatype, Op};

/// Calls a function with each operation on whole numbers by its name.
macro_rules! by_operation {
    ($op:expr, $call:ident($($argument:expr),*)) => {
        match $op {
            Op::Max => $call(Op::Max, $($argument),*),
            Op::Min => $call(Op::Min, $($argument),*),
            Op::Sum => $call(Op::Sum, $($argument),*),
            Op::Prod => $call(Op::Prod, $($argument),*),
            Op::Land => $call(Op::Land, $($argument),*),
            Op::Lor => $call(Op::Lor, $($argument),*),
            Op::Lxor => $call(Op::Lxor, $($argument),*),
            Op::Band => $call(Op::Band, $($argument),*),
            Op::Bor => $call(Op::Bor, $($argument),*),
            Op::Bxor => $call(Op::Bxor, $($argument),*),
            Op::LastNz => $call(Op::LastNz, $($argument),*),
            Op::MaxLoc | Op::MinLoc => unreachable!(),
        }
    };
}

/// Calls a function for an operation with each type of whole numbers by its name.
macro_rules! by_type {
    ($op:expr, $ty:expr, $call:ident($($argument:expr),*)) => {
        match $ty {
            Datatype::I8 => $call($op, Datatype::I8, $($argument),*),
            Datatype::I16 => $call($op, Datatype::I16, $($argument),*),
            Datatype::I32 => $call($op, Datatype::I32, $($argument),*),
            Datatype::I64 => $call($op, Datatype::I64, $($argument),*),
            Datatype::U8 => $call($op, Datatype::U8, $($argument),*),
            Datatype::U16 => $call($op, Datatype::U16, $($argument),*),
            Datatype::U32 => $call($op, Datatype::U32, $($argument),*),
            Datatype::U64 => $call($op, Datatype::U64, $($argument),*),
            Datatype::Byte => $call($op, Datatype::Byte, $($argument),*),
            Datatype::Pair => unreachable!(),
        }
    };
}

/// Whether two rows have the same bytes. All are looked at, since a loop that ends early takes one byte at a time.
pub fn are_same(left: &[u8], right: &[u8]) -> bool
    ensures { IsTrue result ↔ (left.now ≡ right.now) }
{
    if left.len() != right.len() {
        return false;
    }
    let mut same = true;
    for (a, b) in left.iter().zip(right.iter()) {
        same = same & (*a == *b);
    }
    same
}

/// Writes the combination of two rows into `out`, element by element, `left` being the first operand (MPI 4.1, 6.9.1).
/// It takes no memory, and its cost is linear in the rows.
pub fn combine(op: Op, ty: Datatype, left: &[u8], right: &[u8], out: &mut [u8])
    requires allowed { IsTrue (allowed op ty) }
    requires whole { length left.now % width ty ≡ 0 }
    requires same { length right.now ≡ length left.now }
    requires room { length out.old ≡ length left.now }
    ensures { out.new ≡ combined op ty left.now right.now }
{
    if ty.is_pair() {
        return combine_pairs(op, left, right, out);
    }
    by_operation!(op, combine_by(ty, left, right, out))
}

/// Writes the combination of two rows over the first of them. It takes no memory, and its cost is linear in the rows.
pub fn combine_into(op: Op, ty: Datatype, left: &mut [u8], right: &[u8])
    requires allowed { IsTrue (allowed op ty) }
    requires whole { length left.old % width ty ≡ 0 }
    requires same { length right.now ≡ length left.old }
    ensures { left.new ≡ combined op ty left.old right.now }
{
    if ty.is_pair() {
        return combine_pairs_into(op, left, right);
    }
    by_operation!(op, combine_into_by(ty, left, right))
}

// Pairs have two operations, so the others need no loop for them.
fn combine_pairs(op: Op, left: &[u8], right: &[u8], out: &mut [u8])
    requires allowed { IsTrue (allowed op Pair) }
    requires whole { length left.now % 8 ≡ 0 }
    requires same { length right.now ≡ length left.now }
    requires room { length out.old ≡ length left.now }
    ensures { out.new ≡ combined op Pair left.now right.now }
{
    if op == Op::MinLoc {
        combine_places(Op::MinLoc, Datatype::Pair, left, right, out);
    } else {
        combine_places(Op::MaxLoc, Datatype::Pair, left, right, out);
    }
}

fn combine_pairs_into(op: Op, left: &mut [u8], right: &[u8])
    requires allowed { IsTrue (allowed op Pair) }
    requires whole { length left.old % 8 ≡ 0 }
    requires same { length right.now ≡ length left.old }
    ensures { left.new ≡ combined op Pair left.old right.now }
{
    if op == Op::MinLoc {
        combine_places_into(Op::MinLoc, Datatype::Pair, left, right);
    } else {
        combine_places_into(Op::MaxLoc, Datatype::Pair, left, right);
    }
}

#[inline(always)]
fn combine_by(op: Op, ty: Datatype, left: &[u8], right: &[u8], out: &mut [u8])
    requires numbers { is_pair ty ≡ false }
    requires allowed { IsTrue (allowed op ty) }
    requires whole { length left.now % width ty ≡ 0 }
    requires same { length right.now ≡ length left.now }
    requires room { length out.old ≡ length left.now }
    ensures { out.new ≡ combined op ty left.now right.now }
{
    by_type!(op, ty, combine_places(left, right, out))
}

#[inline(always)]
fn combine_into_by(op: Op, ty: Datatype, left: &mut [u8], right: &[u8])
    requires numbers { is_pair ty ≡ false }
    requires allowed { IsTrue (allowed op ty) }
    requires whole { length left.old % width ty ≡ 0 }
    requires same { length right.now ≡ length left.old }
    ensures { left.new ≡ combined op ty left.old right.now }
{
    by_type!(op, ty, combine_places_into(left, right))
}

#[inline(always)]
fn combine_places(op: Op, ty: Datatype, left: &[u8], right: &[u8], out: &mut [u8])
    requires allowed { IsTrue (allowed op ty) }
    requires whole { length left.now % width ty ≡ 0 }
    requires same { length right.now ≡ length left.now }
    requires room { length out.old ≡ length left.now }
    ensures { out.new ≡ combined op ty left.now right.now }
{
    let width = ty.width();
    for place in 0..left.len() / width {
        let at = place * width;
        combine_elements(op, ty, &left[at..], &right[at..], &mut out[at..]);
    }
}

#[inline(always)]
fn combine_places_into(op: Op, ty: Datatype, left: &mut [u8], right: &[u8])
    requires allowed { IsTrue (allowed op ty) }
    requires whole { length left.old % width ty ≡ 0 }
    requires same { length right.now ≡ length left.old }
    ensures { left.new ≡ combined op ty left.old right.now }
{
    let width = ty.width();
    for place in 0..left.len() / width {
        let at = place * width;
        combine_elements_into(op, ty, &mut left[at..], &right[at..]);
    }
}
