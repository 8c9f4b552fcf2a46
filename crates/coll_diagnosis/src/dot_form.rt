//! An explanation as a graph in the language of Graphviz.

use crate::explanation::{Explanation, ShownStall};
use crate::lack::Lack;
use crate::members::Members;
use crate::pending::Pending;
use crate::standstill::Standstill;
use crate::stuck::Stuck;
use coll_snippet::Source;
use std::alloc::{AllocError, Global};

/// A graph with an arrow from each rank of a shortest cycle to each rank of the cycle that it lacks; if the whole is wanted,
/// the arrows of all ranks that wait. An arrow is dashed if the outcome doesn't need what the lacking member gives.
pub(crate) fn dot_form(
    alloc: Global,
    is_whole: bool,
    text: &[u8],
    explanation: &Explanation,
) -> Result<String, AllocError> {
    let mut out = String::from_str(alloc, "digraph waits {\n  node [shape=box];\n")?;
    if let Some(shown) = &explanation.shown {
        let source = Source::new(alloc, text)?;
        let drawn = drawn(shown, is_whole);
        push_left_out(shown, is_whole, &mut out)?;
        push_ranks(alloc, &source, &shown.standstill, &drawn, &mut out)?;
        push_arrows(&shown.standstill, &drawn, &mut out)?;
    }
    out.push_str("}\n")?;
    Ok(out)
}

/// The ranks that may be drawn: all if the whole is wanted, else those of the shortest cycle.
fn drawn(shown: &ShownStall, is_whole: bool) -> Members {
    if is_whole {
        Members::ALL
    } else {
        Members::of(&shown.ring)
    }
}

/// Writes a comment if some rank that waits isn't drawn.
fn push_left_out(shown: &ShownStall, is_whole: bool, out: &mut String) -> Result<(), AllocError> {
    let waiting = shown.standstill.stuck.len();
    if is_whole || shown.ring.len() == waiting {
        return Ok(());
    }
    writeln!(
        out,
        "  // a shortest circle of the {waiting} ranks that wait; --all draws them all"
    )
}

fn push_ranks(
    alloc: Global,
    source: &Source<'_>,
    standstill: &Standstill,
    drawn: &Members,
    out: &mut String,
) -> Result<(), AllocError> {
    for stuck in &standstill.stuck {
        if drawn.contains(stuck.rank) {
            push_rank(alloc, source, stuck, out)?;
        }
    }
    Ok(())
}

fn push_rank(
    alloc: Global,
    source: &Source<'_>,
    stuck: &Stuck,
    out: &mut String,
) -> Result<(), AllocError> {
    let rank = stuck.rank;
    match stuck.line {
        Some(line) => {
            let excerpt = source.excerpt(alloc, line)?;
            let command = excerpt.words();
            writeln!(
                out,
                "  {rank} [label=\"rank {rank}\\nline {line}: {command}\"];"
            )
        }
        None => writeln!(out, "  {rank} [label=\"rank {rank}\\nat its end\"];"),
    }
}

fn push_arrows(
    standstill: &Standstill,
    drawn: &Members,
    out: &mut String,
) -> Result<(), AllocError> {
    for stuck in &standstill.stuck {
        if drawn.contains(stuck.rank) {
            push_arrows_of(stuck, drawn, out)?;
        }
    }
    Ok(())
}

fn push_arrows_of(stuck: &Stuck, drawn: &Members, out: &mut String) -> Result<(), AllocError> {
    for request in &stuck.requests {
        push_arrows_from(stuck.rank, request, drawn, out)?;
    }
    Ok(())
}

fn push_arrows_from(
    rank: u8,
    request: &Pending,
    drawn: &Members,
    out: &mut String,
) -> Result<(), AllocError> {
    for lack in &request.lacks {
        if drawn.contains(lack.rank) {
            push_arrow(rank, lack, out)?;
        }
    }
    Ok(())
}

fn push_arrow(rank: u8, lack: &Lack, out: &mut String) -> Result<(), AllocError> {
    write!(
        out,
        "  {rank} -> {} [label=\"line {}\"",
        lack.rank, lack.line
    )?;
    if !lack.is_needed {
        out.push_str(", style=dashed")?;
    }
    out.push_str("];\n")
}
