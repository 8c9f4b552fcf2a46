//! Whether two signatures are the same.

ghost use Rattle.std.specs.Prelude.{◌≡◌};
ghost use Rattle.coll_kinds.specs.Sameness.{kind_number, mode_number, operation_number, datatype_number, same_numbers, same_counts, same_signature};

use crate::datatype::Datatype;
use crate::kind::{Kind, Mode};
use crate::limits::MAX_RANKS;
use crate::operation::Op;
use crate::signature::Signature;

/// Whether two signatures are the same, the mode included.
pub(crate) fn same_signature(one: &Signature, other: &Signature) -> bool
    ensures { result ≡ same_signature one.now other.now }
{
    kind_number(one.kind) == kind_number(other.kind)
        && mode_number(one.mode) == mode_number(other.mode)
        && one.root == other.root
        && operation_number(one.op) == operation_number(other.op)
        && datatype_number(one.ty) == datatype_number(other.ty)
        && one.count == other.count
        && same_counts(&one.each, &other.each)
}

fn same_counts(one: &Option<[u32; MAX_RANKS]>, other: &Option<[u32; MAX_RANKS]>) -> bool
    ensures { result ≡ same_counts one.now other.now }
{
    match (one, other) {
        (None, None) => true,
        (Some(one), Some(other)) => same_numbers(one, other),
        _ => false,
    }
}

fn same_numbers(one: &[u32; MAX_RANKS], other: &[u32; MAX_RANKS]) -> bool
    ensures { result ≡ same_numbers one.now other.now }
{
    one == other
}

fn kind_number(kind: Kind) -> u8
    ensures { result ≡ kind_number kind }
{
    kind as u8
}

fn mode_number(mode: Mode) -> u8
    ensures { result ≡ mode_number mode }
{
    mode as u8
}

fn operation_number(op: Option<Op>) -> u8
    ensures { result ≡ operation_number op }
{
    match op {
        None => 0,
        Some(op) => op as u8 + 1,
    }
}

fn datatype_number(ty: Datatype) -> u8
    ensures { result ≡ datatype_number ty }
{
    ty as u8
}
