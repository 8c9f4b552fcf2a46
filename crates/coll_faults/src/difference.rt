use coll_kinds::{Mode, Signature};
use std::alloc::{AllocError, Global};

/// A field in which the signatures of two requests at one place differ.
#[derive(Debug, Drop)]
pub struct Difference {
    pub field: &'static str,
    /// The value in the later request.
    pub here: String,
    /// The value in the earliest request.
    pub there: String,
}

/// The fields in which two signatures differ. If the collectives differ, nothing else is compared.
pub(crate) fn differences(
    alloc: Global,
    here: &Signature,
    there: &Signature,
) -> Result<Vec<Difference>, AllocError> {
    let mut all = Vec::new(alloc);
    compare_words(alloc, &mut all, "mode", mode(here), mode(there))?;
    compare_words(alloc, &mut all, "kind", here.kind.word(), there.kind.word())?;
    if here.kind != there.kind {
        return Ok(all);
    }
    let (root, other_root) = (u32::from(here.root), u32::from(there.root));
    compare_numbers(alloc, &mut all, "root", root, other_root)?;
    compare_words(
        alloc,
        &mut all,
        "operation",
        operation(here),
        operation(there),
    )?;
    compare_words(alloc, &mut all, "type", here.ty.word(), there.ty.word())?;
    compare_numbers(alloc, &mut all, "count", here.count, there.count)?;
    if here.each != there.each {
        push(
            &mut all,
            "counts",
            counts(alloc, here)?,
            counts(alloc, there)?,
        )?;
    }
    Ok(all)
}

/// Notes a field whose words differ.
fn compare_words(
    alloc: Global,
    all: &mut Vec<Difference>,
    field: &'static str,
    here: &str,
    there: &str,
) -> Result<(), AllocError> {
    if here == there {
        return Ok(());
    }
    push(all, field, word(alloc, here)?, word(alloc, there)?)
}

/// Notes a field whose numbers differ.
fn compare_numbers(
    alloc: Global,
    all: &mut Vec<Difference>,
    field: &'static str,
    here: u32,
    there: u32,
) -> Result<(), AllocError> {
    if here == there {
        return Ok(());
    }
    push(all, field, number(alloc, here)?, number(alloc, there)?)
}

fn push(
    all: &mut Vec<Difference>,
    field: &'static str,
    here: String,
    there: String,
) -> Result<(), AllocError> {
    all.push(Difference { field, here, there })?;
    Ok(())
}

fn word(alloc: Global, word: &str) -> Result<String, AllocError> {
    String::from_str(alloc, word)
}

fn number(alloc: Global, number: u32) -> Result<String, AllocError> {
    format!(in alloc; "{number}")
}

/// The counts of an allgatherv, up to the last that isn't 0.
fn counts(alloc: Global, sig: &Signature) -> Result<String, AllocError> {
    let Some(counts) = &sig.each else {
        return word(alloc, "none");
    };
    let told = match counts.iter().rposition(|count| *count != 0) {
        Some(last) => last,
        None => 0,
    };
    let mut text = String::new(alloc);
    for count in counts.iter().take(told) {
        text.push_str(&format!(in alloc; "{count} ")?)?;
    }
    text.push_str(&number(alloc, counts.get(told).copied().unwrap_or(0))?)?;
    Ok(text)
}

fn operation(sig: &Signature) -> &'static str {
    match sig.op {
        Some(op) => op.word(),
        None => "none",
    }
}

/// The word of the command that makes a request of that mode.
fn mode(sig: &Signature) -> &'static str {
    match sig.mode {
        Mode::Once => "post",
        Mode::Persistent => "init",
    }
}
