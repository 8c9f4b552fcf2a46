//! The words of a signature.

ghost use Rattle.std.specs.Prelude.{◌≡◌, ◌≤◌, ◌||◌, [], ok_or, cond, is_none, None, Some, Ok};
ghost use Rattle.coll_kinds.specs.Checks.{is_barrier, has_counts, broken};
ghost use Rattle.coll_kinds.specs.declared.datatype.Datatype.TheVariants.{Byte};
ghost use Rattle.coll_parser.specs.declared.cause.Cause.TheVariants.{BadSignature};
ghost use Rattle.coll_kinds.specs.Words.{kind_of, operation_of, datatype_of};
ghost use Rattle.coll_parser.specs.Reading.{and_then, give, must};
ghost use Rattle.coll_parser.specs.Lines.{next, number_within, count_in, counts, some_counts, fields, signature};
ghost use Rattle.coll_parser.specs.Code.{Asks, Reads};

use crate::cause::Cause;
use crate::words::Words;
use coll_kinds::{Datatype, Kind, MAX_RANKS, Mode, Op, Signature};

/// The least number that is too great for a count.
const COUNT_LIMIT: u64 = 1 << 32;

/// The signature that the words say, for a request of that mode, which `n` members may use. The fault is the first rule that
/// the words break.
#[tactic(auto, unfolding(crate::specs::Lines::signature))]
pub(crate) fn signature(mode: Mode, n: u8, words: &mut Words) -> Result<Signature, Cause>
    requires { n ≤ 64 }
    ensures { Reads (λ sig. sig) result words.new (signature mode n words.old) }
{
    let kind = Kind::from_word(words.next()?).ok_or(Cause::BadSignature)?;
    let sig = fields(mode, n, kind, words)?;
    check(&sig, n)?;
    Ok(sig)
}

/// Checks that `n` members may use the signature.
fn check(sig: &Signature, n: u8) -> Result<(), Cause>
    ensures { Asks result (must (is_none (broken sig.now n)) BadSignature) }
{
    match sig.check(n) {
        Ok(()) => Ok(()),
        Err(_) => Err(Cause::BadSignature),
    }
}

/// The signature by the words after that of the kind, for `n` members.
#[tactic(auto, unfolding(crate::specs::Lines::fields))]
fn fields(mode: Mode, n: u8, kind: Kind, words: &mut Words) -> Result<Signature, Cause>
    requires { n ≤ 64 }
    ensures { Reads (λ sig. sig) result words.new (fields mode n kind words.old) }
{
    let root = root(kind.has_root(), words)?;
    let op = operation(kind.has_operation(), words)?;
    let ty = datatype(is_barrier(kind), words)?;
    let count = count(is_barrier(kind) || kind.has_counts(), words)?;
    let each = each(kind.has_counts(), n, words)?;
    Ok(Signature {
        kind,
        mode,
        root,
        op,
        ty,
        count,
        each,
    })
}

fn root(has_root: bool, words: &mut Words) -> Result<u8, Cause>
    ensures { Reads (λ root. root) result words.new (cond has_root (next (λ w. ok_or (number_within 0 256 w) BadSignature)) (give 0) words.old) }
{
    if !has_root {
        return Ok(0);
    }
    Ok(words.number_within(0, 256, Cause::BadSignature)? as u8)
}

fn operation(has_operation: bool, words: &mut Words) -> Result<Option<Op>, Cause>
    ensures { Reads (λ op. op) result words.new
        (cond has_operation (next (λ w. and_then (ok_or (operation_of w) BadSignature) (λ op. Ok (Some op)))) (give None) words.old) }
{
    if !has_operation {
        return Ok(None);
    }
    let op = Op::from_word(words.next()?).ok_or(Cause::BadSignature)?;
    Ok(Some(op))
}

fn datatype(is_barrier: bool, words: &mut Words) -> Result<Datatype, Cause>
    ensures { Reads (λ ty. ty) result words.new (cond is_barrier (give Byte) (next (λ w. ok_or (datatype_of w) BadSignature)) words.old) }
{
    if is_barrier {
        return Ok(Datatype::Byte);
    }
    Datatype::from_word(words.next()?).ok_or(Cause::BadSignature)
}

fn count(has_none: bool, words: &mut Words) -> Result<u32, Cause>
    ensures { Reads (λ count. count) result words.new (cond has_none (give 0) (next count_in) words.old) }
{
    if has_none {
        return Ok(0);
    }
    words.number_within(0, COUNT_LIMIT, Cause::BadSignature)
}

fn each(has_counts: bool, n: u8, words: &mut Words) -> Result<Option<[u32; MAX_RANKS]>, Cause>
    requires { n ≤ 64 }
    ensures { Reads (λ each. each) result words.new (cond has_counts (some_counts n) (give None) words.old) }
{
    if !has_counts {
        return Ok(None);
    }
    Ok(Some(counts(n, words)?))
}

/// The counts of `n` members, and 0 after them.
fn counts(n: u8, words: &mut Words) -> Result<[u32; MAX_RANKS], Cause>
    requires { n ≤ 64 }
    ensures { Reads (λ counts. counts) result words.new (counts n words.old) }
{
    let mut counts = [0; MAX_RANKS];
    for i in 0..usize::from(n) {
        counts[i] = words.number_within(0, COUNT_LIMIT, Cause::BadSignature)?;
    }
    Ok(counts)
}

fn is_barrier(kind: Kind) -> bool
    ensures { result ≡ is_barrier kind }
{
    kind == Kind::Barrier
}
