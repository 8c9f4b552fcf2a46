//! Two elements, combined on their bits.

ghost use Rattle.std.specs.Prelude.{◌≡◌, ◌<◌, ◌≤◌, ◌^◌, ◌*◌, ◌-◌, ◌/◌, ◌%◌, ◌++◌, length, drop, int_lt, IsTrue, if◌then◌else◌};
ghost use Rattle.std.specs.Int.{cast_unsigned};
ghost use Rattle.coll_kinds.specs.Elements.{width, word, number_of, element_of, element_at, bits, element_bytes};
ghost use Rattle.coll_kinds.specs.declared.datatype.Datatype.TheVariants.{I32, Pair};
ghost use Rattle.coll_kinds.specs.declared.operation.Op.TheVariants.{MaxLoc, MinLoc};
ghost use Rattle.coll_kinds.specs.Checks.{allowed};
ghost use Rattle.coll_ops.specs.Operations.{applied, computed};

use byteorder::{ByteOrder, LittleEndian};
use coll_kinds::{Datatype, Op};

/// Combines the elements in the first bytes of `left` and `right`.
#[inline(always)]
pub(crate) fn combine_elements(op: Op, ty: Datatype, left: &[u8], right: &[u8], out: &mut [u8])
    requires allowed { IsTrue (allowed op ty) }
    requires left { width ty ≤ length left.now }
    requires right { width ty ≤ length right.now }
    requires room { width ty ≤ length out.old }
    ensures { out.new ≡
        element_bytes ty (applied op ty (element_at ty left.now) (element_at ty right.now))
        ++ drop (width ty) out.old }
{
    let width = ty.width();
    let a = LittleEndian::read_uint(left, width);
    let b = LittleEndian::read_uint(right, width);
    LittleEndian::write_uint(out, apply_to_bits(op, ty, a, b), width);
}

/// The same, into the first bytes of `left`.
#[inline(always)]
pub(crate) fn combine_elements_into(op: Op, ty: Datatype, left: &mut [u8], right: &[u8])
    requires allowed { IsTrue (allowed op ty) }
    requires left { width ty ≤ length left.old }
    requires right { width ty ≤ length right.now }
    ensures { left.new ≡
        element_bytes ty (applied op ty (element_at ty left.old) (element_at ty right.now))
        ++ drop (width ty) left.old }
{
    let width = ty.width();
    let a = LittleEndian::read_uint(left, width);
    let b = LittleEndian::read_uint(right, width);
    LittleEndian::write_uint(left, apply_to_bits(op, ty, a, b), width);
}

/// The operation on the bits of two elements, whatever their type's width and sign.
#[inline(always)]
fn apply_to_bits(op: Op, ty: Datatype, a: u64, b: u64) -> u64
    requires allowed { IsTrue (allowed op ty) }
    requires left { a < 256 ^ width ty }
    requires right { b < 256 ^ width ty }
    ensures value { result ≡ bits ty (applied op ty (element_of ty a) (element_of ty b)) }
    ensures fits { result < 256 ^ width ty }
{
    match op {
        Op::MaxLoc => greatest(a, b),
        Op::MinLoc => least(a, b),
        _ => compute(op, ty, a, b),
    }
}

/// The operation on the bits of two whole numbers.
#[inline(always)]
fn compute(op: Op, ty: Datatype, a: u64, b: u64) -> u64
    requires left { a < 256 ^ width ty }
    requires right { b < 256 ^ width ty }
    ensures value { result ≡ cast_unsigned (word ty) (computed op ty (number_of ty a) (number_of ty b)) }
    ensures fits { result < 256 ^ width ty }
{
    match op {
        Op::Max | Op::MaxLoc => if is_less(ty, b, a) { a } else { b },
        Op::Min | Op::MinLoc => if is_less(ty, b, a) { b } else { a },
        Op::Sum => a.wrapping_add(b) & mask(ty),
        Op::Prod => a.wrapping_mul(b) & mask(ty),
        Op::Land => u64::from(a != 0 && b != 0),
        Op::Lor => u64::from(a != 0 || b != 0),
        Op::Lxor => u64::from((a != 0) != (b != 0)),
        Op::Band => a & b,
        Op::Bor => a | b,
        Op::Bxor => a ^ b,
        Op::LastNz => if b == 0 { a } else { b },
    }
}

/// The bits of the pair with the greater value; of equal values, of the one with the lesser index.
#[inline]
fn greatest(a: u64, b: u64) -> u64
    ensures { result ≡ bits Pair (applied MaxLoc Pair (element_of Pair a) (element_of Pair b)) }
{
    locate(has_less_value(b, a), has_less_value(a, b), a, b)
}

/// The bits of the pair with the lesser value; of equal values, of the one with the lesser index.
#[inline]
fn least(a: u64, b: u64) -> u64
    ensures { result ≡ bits Pair (applied MinLoc Pair (element_of Pair a) (element_of Pair b)) }
{
    locate(has_less_value(a, b), has_less_value(b, a), a, b)
}

/// Of the bits of two pairs those of the one whose value comes first; of equal values, those with the lesser index. The
/// tests are joined without a branch, which no processor could foresee.
#[inline]
fn locate(is_first: bool, is_second: bool, a: u64, b: u64) -> u64
    ensures { result ≡ (if is_first then a else (if is_second then b
        else (if int_lt (number_of I32 (b / 2 ^ 32)) (number_of I32 (a / 2 ^ 32)) then b else a))) }
{
    let takes_second = !is_first & (is_second | has_less_index(b, a));
    if takes_second { b } else { a }
}

/// Whether the pair of the bits `a` has a lesser value than that of `b`.
#[inline]
fn has_less_value(a: u64, b: u64) -> bool
    ensures { result ≡ int_lt (number_of I32 (a % 2 ^ 32)) (number_of I32 (b % 2 ^ 32)) }
{
    is_less(Datatype::I32, a & 0xffff_ffff, b & 0xffff_ffff)
}

/// Whether it has a lesser index.
#[inline]
fn has_less_index(a: u64, b: u64) -> bool
    ensures { result ≡ int_lt (number_of I32 (a / 2 ^ 32)) (number_of I32 (b / 2 ^ 32)) }
{
    is_less(Datatype::I32, a >> 32, b >> 32)
}

/// Whether the number of the bits `a` is less than that of `b`. In two's complement the bits of a
/// negative number are those from the type's limit on.
#[inline(always)]
fn is_less(ty: Datatype, a: u64, b: u64) -> bool
    requires left { a < 256 ^ width ty }
    requires right { b < 256 ^ width ty }
    ensures { result ≡ int_lt (number_of ty a) (number_of ty b) }
{
    match ty {
        Datatype::I8 => (a as u8).cast_signed() < (b as u8).cast_signed(),
        Datatype::I16 => (a as u16).cast_signed() < (b as u16).cast_signed(),
        Datatype::I32 => (a as u32).cast_signed() < (b as u32).cast_signed(),
        Datatype::I64 => a.cast_signed() < b.cast_signed(),
        Datatype::U8
        | Datatype::U16
        | Datatype::U32
        | Datatype::U64
        | Datatype::Byte
        | Datatype::Pair => a < b,
    }
}

/// All bits of an element set.
#[inline(always)]
fn mask(ty: Datatype) -> u64
    ensures { result ≡ 2 ^ (8 * width ty) - 1 }
{
    u64::MAX >> (64 - 8 * ty.width())
}
