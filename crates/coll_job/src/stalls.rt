//! What is written of a run that deadlocks.

ghost use Rattle.std.specs.Prelude.{◌≡◌, true, false, IfOk, IfErr};
ghost use Rattle.coll_script.specs.Plain.{IsFaultOf};

use crate::answering::name_of;
use crate::host::Host;
use crate::keeping::is_kept;
use crate::pages::{RUN, explained_page};
use crate::task::RunOptions;
use crate::tasks::told;
use coll_diagnosis::{ExplainOptions, Form};
use coll_script::JobFault;
use coll_witness::{DEPTH, explain_text};
use std::alloc::Global;
use std::fs::Files;
use std::io::Write;

/// How the explanation of a run is written.
const EXPLAINED: ExplainOptions = ExplainOptions {
    form: Form::Text,
    is_strict: false,
    is_whole: false,
    is_colored: false,
};

/// Writes why the runs of a text deadlock to the files that are named: lines, and a page. Returns whether each could be written;
/// if one can't, the deadlock and the fault of the file go to `errors`, and the file before it stays.
pub(crate) fn are_stall_files_kept<F: Files, E: Write>(
    host: &mut Host<'_, F>,
    alloc: Global,
    options: &RunOptions<'_>,
    file: Option<&str>,
    text: &[u8],
    errors: &mut E,
) -> Result<bool, JobFault>
    ensures faults { IfErr result (IsFaultOf text.now) }
    ensures cause { IfOk result (λ kept. kept ≡ false → host.new.failed ≡ true) }
{
    if let Some(explanation) = options.explanation {
        let lines = explain_text(alloc, name_of(file), EXPLAINED, DEPTH, text)?.lines;
        if !is_stall_file_kept(host, alloc, file, explanation, lines.as_bytes(), errors) {
            return Ok(false);
        }
    }
    let Some(page) = options.views.page else {
        return Ok(true);
    };
    let bytes = explained_page(alloc, RUN, name_of(file), DEPTH, text)?;
    Ok(is_stall_file_kept(host, alloc, file, page, &bytes, errors))
}

/// Writes a file on a deadlock. Returns whether that succeeded; if not, the deadlock and the fault of the file go to `errors`.
fn is_stall_file_kept<F: Files, E: Write>(
    host: &mut Host<'_, F>,
    alloc: Global,
    file: Option<&str>,
    name: &str,
    bytes: &[u8],
    errors: &mut E,
) -> bool
    ensures { result ≡ false → host.new.failed ≡ true }
{
    let mut fault = Vec::new(alloc);
    if is_kept(host, alloc, name, bytes, &mut fault) {
        return true;
    }
    let _ = told(file, JobFault::Stalled, errors);
    let _ = errors.write_all(&fault);
    false
}
