//! The text of one run.

use crate::rehearsal::Passed;
use std::alloc::{AllocError, Global};

/// The text in which each call of a run whose effect depends on time waits for what it completes in that run, line by line. Ranks come
/// there to where they come in the run, whatever the time.
pub(crate) fn picked_text(
    alloc: Global,
    text: &[u8],
    passed: &[Passed],
) -> Result<Vec<u8>, AllocError> {
    let lines: Vec<&[u8]> = text.split(|byte| *byte == b'\n').collect(alloc)?;
    let mut out = Vec::new(alloc);
    let mut number: u32 = 0;
    for line in &lines {
        number = number.saturating_add(1);
        match completed_in(passed, number) {
            Some(completes) => push_wait(alloc, &mut out, completes)?,
            None => out.extend_from_slice(line)?,
        }
        out.push(b'\n')?;
    }
    Ok(out)
}

/// What the call in that line completes in a run, if that depends on time.
fn completed_in(passed: &[Passed], line: u32) -> Option<&[usize]> {
    for entry in passed {
        if entry.line == Some(line) {
            return match &entry.completes {
                Some(completes) => Some(completes.as_slice()),
                None => None,
            };
        }
    }
    None
}

/// Adds a wait for these requests; for none, nothing.
fn push_wait(alloc: Global, out: &mut Vec<u8>, completes: &[usize]) -> Result<(), AllocError> {
    let word = match completes {
        [] => "",
        [_] => "wait",
        _ => "waitall",
    };
    let mut line = String::from_str(alloc, word)?;
    for request in completes {
        write!(line, " {request}")?;
    }
    out.extend_from_slice(line.as_bytes())
}
