//! The words of values.

ghost use Rattle.std.specs.Prelude.{◌≡◌, [], Ok, Err, OnOk, IfErr};
ghost use Rattle.coll_parser.specs.Lines.{colon, values};
ghost use Rattle.coll_parser.specs.Code.{texts, valued, Reads, ReadsSo, FindsSo};

use crate::cause::Cause;
use crate::fault::LineFault;
use crate::words::Words;
use coll_kinds::{Datatype, read_element};
use std::alloc::Global;

/// The bytes of `count` values, which stand after a colon. Linear in the line.
#[tactic(auto, unfolding(crate::specs::Lines::values))]
pub(crate) fn values(
    alloc: Global,
    count: usize,
    ty: Datatype,
    words: &mut Words,
) -> Result<Vec<u8>, LineFault>
    ensures { ReadsSo (λ bytes. bytes.items) result words.new (values count ty words.old) }
{
    colon(count, words)?;
    let values = words.take_rest();
    if values.len() != count {
        return Err(LineFault::Broken(Cause::WrongValueCount));
    }
    bytes(alloc, ty, values)
}

/// Takes the colon, which may be left out if no values are due.
fn colon(count: usize, words: &mut Words) -> Result<(), Cause>
    ensures ok { OnOk result (colon count words.old ≡ Ok (words.new, [])) }
    ensures err { IfErr result (λ cause. colon count words.old ≡ Err cause) }
{
    if words.is_empty() && count == 0 {
        return Ok(());
    }
    if words.next()? == b":".as_slice() {
        Ok(())
    } else {
        Err(Cause::BadWords)
    }
}

/// The bytes of the values, one after another.
fn bytes(alloc: Global, ty: Datatype, words: &[&[u8]]) -> Result<Vec<u8>, LineFault>
    ensures { FindsSo (λ bytes. bytes.items) result (valued ty (texts words.now)) }
{
    let width = ty.width();
    let mut bytes = Vec::with_capacity(alloc, words.len().saturating_mul(width))?;
    for word in words {
        let Some(element) = read_element(word, ty) else {
            return Err(LineFault::Broken(Cause::BadValue));
        };
        bytes.extend_from_slice(&element[..width])?;
    }
    Ok(bytes)
}
