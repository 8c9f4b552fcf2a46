//! The line of an outcome.

ghost use Rattle.std.specs.Prelude.{◌≡◌, ◌++◌, ◌∷◌, [], OnOk, OnErr, IfOk, IsOkUnless};
ghost use Rattle.std.specs.String.{string_bytes};
ghost use Rattle.coll_script.specs.Meaning.{outcome_head, element_text, elements_text, outcome_line};
ghost use Rattle.coll_script.specs.Growing.{Extends};

use coll_kinds::{Datatype, Refusal, Signature, print_element};
use std::alloc::{AllocError, Global};

/// Appends the line `rank R req Q start S : ..` with the elements of an outcome, each after one space, and a line feed. Linear
/// in the bytes. The only refusal is [`Refusal::NoMemory`]; `out` is then unchanged.
pub fn print_outcome(
    alloc: Global,
    rank: u8,
    req: u32,
    start: u32,
    sig: Signature,
    bytes: &[u8],
    out: &mut Vec<u8>,
) -> Result<(), Refusal>
    ensures ok { OnOk result
        (out.new.items ≡ out.old.items ++ outcome_line rank req start sig.ty bytes.now) }
    ensures err { OnErr result (out.new.items ≡ out.old.items) }
    ensures refusal { IsOkUnless result Refusal.NoMemory }
{
    let old = out.len();
    let head = outcome_head(alloc, rank, req, start)?;
    let printed = print_line(head.as_bytes(), sig.ty, bytes, out);
    if printed.is_err() {
        out.truncate(old);
    }
    printed
}

/// The words before the elements.
fn outcome_head(alloc: Global, rank: u8, req: u32, start: u32) -> Result<String, AllocError>
    ensures { IfOk result (λ head. string_bytes head ≡ outcome_head rank req start) }
{
    format!(in alloc; "rank {rank} req {req} start {start} :")
}

fn print_line(head: &[u8], ty: Datatype, row: &[u8], out: &mut Vec<u8>) -> Result<(), Refusal>
    ensures ok { OnOk result
        (out.new.items ≡ out.old.items ++ (head.now ++ elements_text element_text ty row.now ++ 10 ∷ [])) }
    ensures err { OnErr result (Extends out.old.items out.new.items) }
    ensures refusal { IsOkUnless result Refusal.NoMemory }
{
    out.extend_from_slice(head)?;
    print_elements(ty, row, out)?;
    out.push(b'\n')?;
    Ok(())
}

fn print_elements(ty: Datatype, row: &[u8], out: &mut Vec<u8>) -> Result<(), Refusal>
    ensures ok { OnOk result (out.new.items ≡ out.old.items ++ elements_text element_text ty row.now) }
    ensures err { OnErr result (Extends out.old.items out.new.items) }
    ensures refusal { IsOkUnless result Refusal.NoMemory }
{
    let width = ty.width();
    let mut rest = row;
    for _ in 0..row.len() / width {
        out.push(b' ')?;
        print_element(rest, ty, out)?;
        rest = rest.split_at(width).1;
    }
    Ok(())
}
