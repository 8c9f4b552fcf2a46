//! What both forms of a drawing say in words.

use crate::arrow::Arrow;
use crate::drawing::Drawing;
use std::alloc::AllocError;

/// Writes the collective, its members, and the totals.
pub(crate) fn push_totals(out: &mut String, drawing: &Drawing) -> Result<(), AllocError> {
    push_title(out, drawing)?;
    out.push_str(": ")?;
    push_counts(out, drawing)
}

/// Writes the collective and its members.
pub(crate) fn push_title(out: &mut String, drawing: &Drawing) -> Result<(), AllocError> {
    write!(out, "{}, ", drawing.sig())?;
    push_count(out, u128::from(drawing.n()), "member")
}

/// Writes the totals.
pub(crate) fn push_counts(out: &mut String, drawing: &Drawing) -> Result<(), AllocError> {
    let totals = drawing.totals();
    push_count(out, totals.rounds as u128, "round")?;
    out.push_str(", ")?;
    push_count(out, totals.exchanges as u128, "exchange")?;
    out.push_str(", ")?;
    push_count(out, totals.messages as u128, "message")?;
    out.push_str(", ")?;
    push_count(out, totals.bytes, "byte")?;
    out.push_str(", ")?;
    push_count(out, totals.combinations as u128, "combination")
}

/// Writes a number with its noun, in the singular or the plural.
fn push_count(out: &mut String, count: u128, noun: &str) -> Result<(), AllocError> {
    let ending = if count == 1 { "" } else { "s" };
    write!(out, "{count} {noun}{ending}")
}

/// Writes how many messages a round has, and of how many bytes they are.
pub(crate) fn push_messages(
    out: &mut String,
    arrows: &[Arrow],
    round: usize,
) -> Result<(), AllocError> {
    let lens = || {
        let these = arrows.iter().filter(|arrow| arrow.round == round);
        these.map(|arrow| arrow.len)
    };
    let count = lens().count();
    let least = lens().min().unwrap_or(0);
    let most = lens().max().unwrap_or(0);
    push_count(out, count as u128, "message")?;
    out.push_str(" of ")?;
    if least < most {
        write!(out, "{least} to ")?;
    }
    push_count(out, u128::from(most), "byte")
}
