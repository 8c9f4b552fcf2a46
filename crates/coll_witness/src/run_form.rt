//! Runs, step by step, as lines for a reader and as objects of JSON.

use crate::rehearsal::{Passed, Rehearsed};
use std::alloc::AllocError;

/// Lines that a rank carries out one after the other, none of which depends on time.
#[derive(Clone, Copy)]
struct Stretch {
    rank: u8,
    /// None is the unwritten `waitall`.
    first: Option<u32>,
    last: Option<u32>,
}

/// Adds a line for each stretch of a run, and for each call of it that depends on time.
pub(crate) fn push_run(out: &mut String, run: &Rehearsed) -> Result<(), AllocError> {
    out.push_str("a run that stalls:\n")?;
    let mut stretch: Option<Stretch> = None;
    for passed in &run.passed {
        match &passed.completes {
            Some(completes) => {
                push_stretch(out, stretch)?;
                stretch = None;
                push_choice(out, passed, completes)?;
            }
            None => stretch = Some(longer(out, stretch, passed)?),
        }
    }
    push_stretch(out, stretch)
}

/// The stretch with one more line. If the line is another rank's, the stretch before it is written.
fn longer(
    out: &mut String,
    stretch: Option<Stretch>,
    passed: &Passed,
) -> Result<Stretch, AllocError> {
    if let Some(before) = stretch {
        if before.rank == passed.rank {
            return Ok(Stretch {
                rank: before.rank,
                first: before.first,
                last: passed.line,
            });
        }
    }
    push_stretch(out, stretch)?;
    Ok(Stretch {
        rank: passed.rank,
        first: passed.line,
        last: passed.line,
    })
}

fn push_stretch(out: &mut String, stretch: Option<Stretch>) -> Result<(), AllocError> {
    let Some(stretch) = stretch else {
        return Ok(());
    };
    write!(out, "  rank {} carries out ", stretch.rank)?;
    match (stretch.first, stretch.last) {
        (Some(first), Some(last)) if first != last => write!(out, "lines {first} to {last}")?,
        (Some(first), Some(_)) => write!(out, "line {first}")?,
        (Some(first), None) => write!(out, "its lines from {first} on, and ends")?,
        (None, _) => out.push_str("its last wait, and ends")?,
    }
    out.push('\n')?;
    Ok(())
}

/// Adds a call of which it depends on time what it completes.
fn push_choice(out: &mut String, passed: &Passed, completes: &[usize]) -> Result<(), AllocError> {
    write!(out, "  rank {} carries out line ", passed.rank)?;
    push_line(out, passed.line)?;
    out.push_str(", which completes ")?;
    push_requests(out, completes)?;
    out.push('\n')?;
    Ok(())
}

fn push_line(out: &mut String, line: Option<u32>) -> Result<(), AllocError> {
    match line {
        Some(line) => write!(out, "{line}"),
        None => out.push_str("end"),
    }
}

fn push_requests(out: &mut String, requests: &[usize]) -> Result<(), AllocError> {
    match requests {
        [] => out.push_str("nothing"),
        [request] => write!(out, "request {request}"),
        _ => {
            out.push_str("requests ")?;
            push_list(out, requests)
        }
    }
}

/// Adds requests, with commas between them.
fn push_list(out: &mut String, requests: &[usize]) -> Result<(), AllocError> {
    let mut comma = "";
    for request in requests {
        write!(out, "{comma}{request}")?;
        comma = ", ";
    }
    Ok(())
}

/// Adds the first call that completes something else in a run that ends.
pub(crate) fn push_difference(
    out: &mut String,
    stalling: &Rehearsed,
    ending: &Rehearsed,
) -> Result<(), AllocError> {
    let Some(other) = first_difference(&stalling.passed, &ending.passed) else {
        return Ok(());
    };
    out.push_str("a run that ends: ")?;
    write!(out, "rank {}'s line ", other.rank)?;
    push_line(out, other.line)?;
    out.push_str(" completes ")?;
    match &other.completes {
        Some(completes) => push_requests(out, completes)?,
        None => out.push_str("nothing")?,
    }
    out.push('\n')?;
    Ok(())
}

/// The first call of one run that completes something else in the other, as it is there.
fn first_difference<'r>(run: &[Passed], other: &'r [Passed]) -> Option<&'r Passed> {
    for passed in run {
        if passed.completes.is_some() {
            if let Some(same_call) = passed_in(other, passed.rank, passed.line) {
                if !completes_alike(passed, same_call) {
                    return Some(same_call);
                }
            }
        }
    }
    None
}

/// What a run has of that line of a rank.
fn passed_in(run: &[Passed], rank: u8, line: Option<u32>) -> Option<&Passed> {
    run.iter()
        .find(|passed| passed.rank == rank && passed.line == line)
}

fn completes_alike(one: &Passed, other: &Passed) -> bool {
    match (&one.completes, &other.completes) {
        (Some(these), Some(those)) => these.as_slice() == those.as_slice(),
        (None, None) => true,
        _ => false,
    }
}

/// Adds an object for each line that a rank carries out.
pub(crate) fn push_objects(out: &mut String, run: &Rehearsed) -> Result<(), AllocError> {
    for passed in &run.passed {
        push_object(out, passed)?;
    }
    Ok(())
}

fn push_object(out: &mut String, passed: &Passed) -> Result<(), AllocError> {
    write!(
        out,
        "{{\"reason\":\"passes\",\"rank\":{},\"line\":",
        passed.rank
    )?;
    match passed.line {
        Some(line) => write!(out, "{line}")?,
        None => out.push_str("null")?,
    }
    out.push_str(",\"completes\":")?;
    match &passed.completes {
        Some(completes) => {
            out.push('[')?;
            push_list(out, completes)?;
            out.push(']')?;
        }
        None => out.push_str("null")?,
    }
    out.push_str("}\n")
}
