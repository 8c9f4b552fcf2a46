//! Signatures as the words of a job text.

ghost use Rattle.std.specs.Prelude.{◌≡◌, ◌++◌, List, ℕ, flat_map, take, IfOk, OnOk};
ghost use Rattle.std.specs.String.{string_bytes};
ghost use Rattle.std.specs.Option.{option_map};
ghost use Rattle.coll_views.specs.Texts.{block_text, count_text, counts_text, operation_text, root_text, signature_text};

use coll_kinds::{Kind, MAX_RANKS, Op, Signature};
use std::alloc::{AllocError, Global};

/// The words of a signature among `members` members: the kind; then, if it has them, the root, the operation and the type; and
/// the count, or the count of each member. The words of a persistent signature are the same.
pub(crate) fn signature_text(
    alloc: Global,
    sig: &Signature,
    members: u8,
) -> Result<String, AllocError>
    ensures { IfOk result (λ text. string_bytes text ≡ signature_text sig.now members) }
{
    let kind = sig.kind.word();
    if let Kind::Barrier = sig.kind {
        return String::from_str(alloc, kind);
    }
    let root = root_text(alloc, sig)?;
    let operation = operation_text(alloc, sig.op)?;
    let block = block_text(alloc, sig, members)?;
    format!(in alloc; "{kind}{root}{operation}{block}")
}

fn root_text(alloc: Global, sig: &Signature) -> Result<String, AllocError>
    ensures { IfOk result (λ text. string_bytes text ≡ root_text sig.now) }
{
    if !sig.kind.has_root() {
        return Ok(String::new(alloc));
    }
    let root = sig.root;
    format!(in alloc; " {root}")
}

fn operation_text(alloc: Global, op: Option<Op>) -> Result<String, AllocError>
    ensures { IfOk result (λ text. string_bytes text ≡ operation_text op) }
{
    let Some(op) = op else {
        return Ok(String::new(alloc));
    };
    let word = op.word();
    format!(in alloc; " {word}")
}

/// The type, and the count or counts.
fn block_text(alloc: Global, sig: &Signature, members: u8) -> Result<String, AllocError>
    ensures { IfOk result (λ text. string_bytes text ≡ block_text sig.now members) }
{
    let ty = sig.ty.word();
    let count = sig.count;
    match &sig.each {
        None => format!(in alloc; " {ty} {count}"),
        Some(counts) => {
            let all = counts_text(alloc, counts, members)?;
            format!(in alloc; " {ty}{all}")
        }
    }
}

/// The counts of this number of members.
fn counts_text(alloc: Global, counts: &[u32; MAX_RANKS], members: u8) -> Result<String, AllocError>
    ensures { IfOk result (λ text. string_bytes text ≡ counts_text counts.now members) }
{
    let mut text = String::new(alloc);
    for member in 0..members {
        push_count(alloc, counts, member, &mut text)?;
    }
    Ok(text)
}

/// Appends the count of a member.
fn push_count(
    alloc: Global,
    counts: &[u32; MAX_RANKS],
    member: u8,
    text: &mut String,
) -> Result<(), AllocError>
    ensures { OnOk result (string_bytes text.new ≡ string_bytes text.old ++ count_text counts.now member) }
{
    let word = count_text(alloc, counts, member)?;
    text.push_str(word.as_str())
}

/// The count of a member; 0 after the last one.
fn count_text(alloc: Global, counts: &[u32; MAX_RANKS], member: u8) -> Result<String, AllocError>
    ensures { IfOk result (λ text. string_bytes text ≡ count_text counts.now member) }
{
    let count = match counts.get(usize::from(member)) {
        Some(count) => *count,
        None => 0,
    };
    format!(in alloc; " {count}")
}
