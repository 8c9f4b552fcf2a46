//! What a user sees of a text.

use crate::answering::{answer_text, text_of};
use coll_script::JobFault;
use std::alloc::Global;
use std::io;
use std::io::Write;
use std::test::Fail;

/// A text, and what is shown of it.
pub type TextRow = (&'static str, &'static str);

/// What a user sees of a text: the lines, or the fault's status and line.
pub fn shown(alloc: Global, text: &str) -> Result<String, Fail> {
    let mut out = Vec::new(alloc);
    if let Err(fault) = answer_text(alloc, text, &mut out) {
        tell(fault, &mut out)?;
    }
    Ok(text_of(out)?)
}

/// Appends the fault's status and line.
fn tell(fault: JobFault, out: &mut Vec<u8>) -> io::Result<()> {
    let status = fault.status();
    write!(out, "{status}: ")?;
    fault.print(out)
}

/// The first text of which something else was shown, by its index, with what was shown. None if there is none.
pub fn first_misfit(alloc: Global, rows: &[TextRow]) -> Result<Option<(usize, String)>, Fail> {
    for (index, (text, want)) in rows.iter().enumerate() {
        let got = shown(alloc, text)?;
        if got.as_str() != *want {
            return Ok(Some((index, got)));
        }
    }
    Ok(None)
}
