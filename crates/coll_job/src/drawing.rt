//! Draws the schedules of a collective.

ghost use Rattle.std.specs.Prelude.{◌≡◌, ◌≢◌, false, IfErr};
ghost use Rattle.coll_script.specs.Plain.{HasCause};
ghost use Rattle.coll_job.specs.Endings.{EndsWithin};

use crate::host::Host;
use crate::keeping::put;
use crate::signature::signature_of;
use crate::tasks::BAD_WORDS;
use coll_draw::{Drawing, svg_picture, text_lines};
use coll_kinds::Refusal;
use coll_script::{JobFault, Witnessed};
use std::alloc::Global;
use std::fs::Files;
use std::io::Write;

/// How a collective is drawn.
#[derive(Clone, Copy, Debug, PartialEq, Eq)]
pub enum DrawForm {
    /// Lines for a terminal.
    Text,
    /// A vector picture.
    Svg,
}

/// A collective that is drawn, and where the drawing goes.
#[derive(Clone, Copy, Debug, PartialEq, Eq)]
pub struct DrawingTask<'w> {
    /// The words of the signature.
    pub words: &'w str,
    pub members: u8,
    pub form: DrawForm,
    /// The file that gets the drawing. Without one it is written to standard output.
    pub file: Option<&'w str>,
}

/// The most members that a communicator has.
const MOST_MEMBERS: u8 = 64;

/// Draws the schedules of all members of a collective. Returns the exit status. If the words are wrong, nothing is drawn, and
/// `errors` gets what is wrong with them.
pub(crate) fn draw<F: Files, W: Write, E: Write>(
    host: &mut Host<'_, F>,
    alloc: Global,
    draft: DrawingTask<'_>,
    output: &mut Witnessed<'_, W>,
    errors: &mut E,
) -> Result<u8, JobFault>
    ensures ends { EndsWithin 2 result host.new.failed false output.new.failed (W.contents output.old.stream.now) (W.contents output.new.stream.now) }
    ensures same_output { output.new.stream.ghost_name ≡ output.old.stream.ghost_name }
{
    let Some(lines) = drawn(alloc, draft, errors)? else {
        return Ok(BAD_WORDS);
    };
    let bytes = lines.as_str().as_bytes();
    put(host, alloc, draft.file, bytes, output, errors)
}

/// The drawing as it is written. None if the words are wrong; `errors` then gets what is wrong with them.
fn drawn<E: Write>(
    alloc: Global,
    draft: DrawingTask<'_>,
    errors: &mut E,
) -> Result<Option<String>, JobFault>
    ensures other { IfErr result (λ fault. fault ≢ JobFault.Write) }
    ensures cause { IfErr result (λ fault. HasCause fault false false) }
{
    if draft.members == 0 || draft.members > MOST_MEMBERS {
        let _ = writeln!(
            errors,
            "error: a communicator has 1 to {MOST_MEMBERS} members"
        );
        return Ok(None);
    }
    let Some(sig) = signature_of(alloc, draft.words, draft.members, errors)? else {
        return Ok(None);
    };
    let drawing = match Drawing::of(alloc, sig, draft.members) {
        Ok(drawing) => drawing,
        Err(Refusal::NoMemory) => return Err(JobFault::Memory),
        Err(why) => return Err(JobFault::Refused(why)),
    };
    let lines = match draft.form {
        DrawForm::Text => text_lines(alloc, &drawing).ok(),
        DrawForm::Svg => svg_picture(alloc, &drawing).ok(),
    };
    match lines {
        Some(lines) => Ok(Some(lines)),
        None => Err(JobFault::Memory),
    }
}
