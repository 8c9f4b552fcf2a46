//! Whether the lines of a changed text have a fault.

ghost use Rattle.std.specs.Prelude.{◌≡◌, true, IfOk, OnSome};
ghost use Rattle.coll_faults.specs.Accepting.{is_accepted};

use coll_kinds::MAX_TEXT;
use coll_parser::{History, ScriptFault};
use std::alloc::{AllocError, Global};

/// The history of a text, if none of its lines has a fault. Linear in the text.
pub(crate) fn accepted(alloc: Global, text: &[u8]) -> Result<Option<History>, AllocError>
    ensures { IfOk result (λ said. OnSome said (is_accepted text.now ≡ true)) }
{
    if text.len() > MAX_TEXT {
        return Ok(None);
    }
    match History::read(alloc, text) {
        Ok(history) => Ok(Some(history)),
        Err(ScriptFault::Text(_)) => Ok(None),
        Err(ScriptFault::NoMemory) => Err(AllocError),
    }
}
