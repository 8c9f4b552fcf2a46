//! Texts that aren't all of their programs.

ghost use Rattle.std.specs.Prelude.{◌≡◌, IfOk};
ghost use Rattle.std.specs.String.{string_bytes};
ghost use Rattle.coll_check.specs.Says.{apart_line, apart_note};

use crate::checking::CheckForm;
use std::alloc::{AllocError, Global};

/// How a line begins by which a tool that writes the text of a program says that more of the program may decide whether it
/// deadlocks, such as messages.
const MARK: &str = "# by themselves: ";

/// What is said of such a text.
const NOTE: &str =
    "more of the program isn't in this text: what follows is said of its collectives by themselves";

/// Whether a line of a text says so. Linear in the text.
pub fn is_apart(text: &[u8]) -> bool {
    text.split(|byte| *byte == b'\n')
        .any(|line| line.starts_with(MARK.as_bytes()))
}

/// What is told of such a text before its verdict; of others nothing.
pub(crate) fn apart_note(
    alloc: Global,
    name: &str,
    form: CheckForm,
    is_apart: bool,
) -> Result<String, AllocError>
    ensures { IfOk result (λ note. string_bytes note ≡ apart_note form name.now is_apart) }
{
    if !is_apart {
        return Ok(String::new(alloc));
    }
    match form {
        CheckForm::Text { .. } => apart_line(alloc, name),
        CheckForm::Json => { format!(in alloc; "{{\"reason\":\"note\",\"message\":\"{NOTE}\"}}\n") }
    }
}

/// The line for a reader.
pub fn apart_line(alloc: Global, name: &str) -> Result<String, AllocError>
    ensures { IfOk result (λ note. string_bytes note ≡ apart_line name.now) }
{
    format!(in alloc; "{name}: note: {NOTE}\n")
}
