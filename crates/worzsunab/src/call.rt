//! Collectives as C gives them.

ghost use Rattle.std.specs.Prelude.{◌≡◌, ◌≤◌, ◌<◌, ◌↔◌, IfNone, IfSome, IsTrue, is_some, length};
ghost use Rattle.worzsunab.specs.Calls.{AreCounts, AreNames, IsCall, IsCounted, call_of, datatype_number, kind_number, operation_number, padded};

use coll_kinds::{Datatype, Kind, MAX_RANKS, Mode, Op, Signature};

/// What all members have to agree on, as the numbers of include/worzsunab.h.
#[repr(C)]
#[derive(Clone, Copy)]
pub struct Call {
    pub kind: u8,
    /// 0 for a collective without an operation.
    pub op: u8,
    pub ty: u8,
    pub root: u8,
    pub count: u32,
}

impl Call {
    /// The signature; none where a number names nothing, or an allgatherv, since a call has no counts.
    pub fn signature(&self, mode: Mode) -> Option<Signature>
        ensures is { IfSome result (IsCall self.now mode) }
        ensures named { IsTrue (is_some result) ↔ AreNames self.now }
    {
        let kind = kind_of(self.kind)?;
        if kind.has_counts() {
            return None;
        }
        Some(Signature {
            kind,
            mode,
            root: self.root,
            op: operation_of(self.op)?,
            ty: datatype_of(self.ty)?,
            count: self.count,
            each: None,
        })
    }

    /// A signature's numbers, without its mode and the counts of an allgatherv.
    pub fn of(kind: Kind, op: Option<Op>, ty: Datatype, root: u8, count: u32) -> Call
        ensures { result ≡ call_of kind op ty root count }
    {
        Call {
            kind: kind_number(kind),
            op: operation_number(op),
            ty: datatype_number(ty),
            root,
            count,
        }
    }
}

/// The signature of an allgatherv whose members give as many elements as is listed; those after the list give none. None
/// where the type's number names nothing, or there are more counts than ranks may be.
pub fn counted_signature(ty: u8, counts: &[u32], mode: Mode) -> Option<Signature>
    ensures is { IfSome result (IsCounted ty counts.now mode) }
    ensures named { IsTrue (is_some result) ↔ AreCounts ty counts.now }
{
    let ty = datatype_of(ty)?;
    let once = Signature::allgatherv(ty, counts_of(counts)?);
    Some(match mode {
        Mode::Once => once,
        Mode::Persistent => once.persistent(),
    })
}

/// The counts, and 0 after the last; none where there are more than ranks may be.
fn counts_of(counts: &[u32]) -> Option<[u32; MAX_RANKS]>
    ensures is { IfSome result (λ each. each ≡ padded counts.now) }
    ensures few { IsTrue (is_some result) ↔ (length counts.now ≤ 64) }
{
    if counts.len() > MAX_RANKS {
        return None;
    }
    let mut each = [0; MAX_RANKS];
    each[..counts.len()].copy_from_slice(counts);
    Some(each)
}

fn kind_of(number: u8) -> Option<Kind>
    ensures is { IfSome result (λ kind. kind_number kind ≡ number) }
    ensures named { IsTrue (is_some result) ↔ (number < 12) }
{
    match number {
        0 => Some(Kind::Barrier),
        1 => Some(Kind::Bcast),
        2 => Some(Kind::Gather),
        3 => Some(Kind::Scatter),
        4 => Some(Kind::Allgather),
        5 => Some(Kind::Alltoall),
        6 => Some(Kind::Reduce),
        7 => Some(Kind::Allreduce),
        8 => Some(Kind::Rsblock),
        9 => Some(Kind::Scan),
        10 => Some(Kind::Exscan),
        11 => Some(Kind::Allgatherv),
        _ => None,
    }
}

fn kind_number(kind: Kind) -> u8
    ensures { result ≡ kind_number kind }
{
    match kind {
        Kind::Barrier => 0,
        Kind::Bcast => 1,
        Kind::Gather => 2,
        Kind::Scatter => 3,
        Kind::Allgather => 4,
        Kind::Alltoall => 5,
        Kind::Reduce => 6,
        Kind::Allreduce => 7,
        Kind::Rsblock => 8,
        Kind::Scan => 9,
        Kind::Exscan => 10,
        Kind::Allgatherv => 11,
    }
}

/// No operation has the number 0; none for a number that names nothing.
fn operation_of(number: u8) -> Option<Option<Op>>
    ensures is { IfSome result (λ op. operation_number op ≡ number) }
    ensures named { IsTrue (is_some result) ↔ (number < 14) }
{
    match number {
        0 => Some(None),
        1 => Some(Some(Op::Max)),
        2 => Some(Some(Op::Min)),
        3 => Some(Some(Op::Sum)),
        4 => Some(Some(Op::Prod)),
        5 => Some(Some(Op::Land)),
        6 => Some(Some(Op::Lor)),
        7 => Some(Some(Op::Lxor)),
        8 => Some(Some(Op::Band)),
        9 => Some(Some(Op::Bor)),
        10 => Some(Some(Op::Bxor)),
        11 => Some(Some(Op::LastNz)),
        12 => Some(Some(Op::MaxLoc)),
        13 => Some(Some(Op::MinLoc)),
        _ => None,
    }
}

fn operation_number(op: Option<Op>) -> u8
    ensures { result ≡ operation_number op }
{
    match op {
        None => 0,
        Some(Op::Max) => 1,
        Some(Op::Min) => 2,
        Some(Op::Sum) => 3,
        Some(Op::Prod) => 4,
        Some(Op::Land) => 5,
        Some(Op::Lor) => 6,
        Some(Op::Lxor) => 7,
        Some(Op::Band) => 8,
        Some(Op::Bor) => 9,
        Some(Op::Bxor) => 10,
        Some(Op::LastNz) => 11,
        Some(Op::MaxLoc) => 12,
        Some(Op::MinLoc) => 13,
    }
}

fn datatype_of(number: u8) -> Option<Datatype>
    ensures is { IfSome result (λ ty. datatype_number ty ≡ number) }
    ensures named { IsTrue (is_some result) ↔ (number < 10) }
{
    match number {
        0 => Some(Datatype::I8),
        1 => Some(Datatype::I16),
        2 => Some(Datatype::I32),
        3 => Some(Datatype::I64),
        4 => Some(Datatype::U8),
        5 => Some(Datatype::U16),
        6 => Some(Datatype::U32),
        7 => Some(Datatype::U64),
        8 => Some(Datatype::Byte),
        9 => Some(Datatype::Pair),
        _ => None,
    }
}

fn datatype_number(ty: Datatype) -> u8
    ensures { result ≡ datatype_number ty }
{
    match ty {
        Datatype::I8 => 0,
        Datatype::I16 => 1,
        Datatype::I32 => 2,
        Datatype::I64 => 3,
        Datatype::U8 => 4,
        Datatype::U16 => 5,
        Datatype::U32 => 6,
        Datatype::U64 => 7,
        Datatype::Byte => 8,
        Datatype::Pair => 9,
    }
}
