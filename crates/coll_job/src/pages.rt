//! Pages for a browser: of a run, and of whether and why a job deadlocks.

ghost use Rattle.std.specs.Prelude.{◌≡◌, ◌≢◌, Some, false, true, IfOk, IfErr, IfSome};
ghost use Rattle.std.specs.Io.KnownBytes.{Keeps};
ghost use Rattle.coll_script.specs.Faults.{status_of};
ghost use Rattle.coll_script.specs.Plain.{HasCause, IsFaultOf};
ghost use Rattle.coll_diagnosis.specs.Unstalled.{IsNoStall};
ghost use Rattle.coll_job.specs.Pages.{IsExplainedPage, IsRunPage, requests_of};
ghost use Rattle.coll_job.specs.Tasks.{IsExplainStatus, IsExplanation, IsTextStatus};

use crate::host::Host;
use crate::keeping::{UNWRITTEN, is_kept};
use crate::task::Explaining;
use crate::viewing::stats_text;
use coll_check::{apart_line, is_apart};
use coll_diagnosis::{ExplainOptions, Form};
use coll_html::{PageTexts, page_text};
use coll_run::Recording;
use coll_script::{CountedReader, JobFault, ReportFault, Witnessed, read_text, write_lines};
use coll_views::{RankRequests, timeline_json};
use coll_witness::explain_text;
use std::alloc::Global;
use std::fs::Files;
use std::io::{Read, Write};

/// What a page of a run is headed with, before the name of the text's file.
pub(crate) const RUN: &str = "colljob run";

/// What a page of an explanation is headed with.
pub(crate) const EXPLAIN: &str = "colljob explain";

/// How an explanation is written for a page, which reads objects.
pub(crate) const AS_OBJECTS: ExplainOptions = ExplainOptions {
    form: Form::Json,
    is_strict: false,
    is_whole: false,
    is_colored: false,
};

/// The page of a run that ended well: its timeline and its tables. `file` is the name of the text.
///
/// # Errors
///
/// Those of `timeline_json` and `tables_text` of `coll_views`.
pub(crate) fn run_page(
    alloc: Global,
    file: &str,
    recording: &Recording,
    requests: &RankRequests,
) -> Result<Vec<u8>, ReportFault>
    requires { requests.now ≡ requests_of recording.now.report }
    ensures { IfOk result (λ page. IsRunPage file.now recording.now.report page.items) }
{
    let (ranks, trace) = (recording.report.ranks(), recording.report.entries());
    let timeline = timeline_json(alloc, ranks, requests, trace, &recording.spans)?;
    let stats = stats_text(alloc, recording, requests)?;
    let texts = PageTexts {
        program: RUN,
        file,
        timeline: timeline.as_bytes(),
        stats: &stats,
        explained: b"",
    };
    Ok(page_text(alloc, &texts)?)
}

/// The page on whether and why a text deadlocks. The text is explained anew for it, by a search through `depth` states at most.
///
/// # Errors
///
/// Those of `explain_text` of `coll_witness`.
pub(crate) fn explained_page(
    alloc: Global,
    program: &str,
    file: &str,
    depth: u32,
    text: &[u8],
) -> Result<Vec<u8>, JobFault>
    ensures page { IfOk result (λ page. IsExplainedPage program.now file.now text.now page.items) }
    ensures faults { IfErr result (IsFaultOf text.now) }
    ensures unstalled { IfErr result IsNoStall }
{
    let explained = explain_text(alloc, file, AS_OBJECTS, depth, text)?;
    let texts = PageTexts {
        program,
        file,
        timeline: b"",
        stats: b"",
        explained: explained.lines.as_bytes(),
    };
    match page_text(alloc, &texts) {
        Ok(page) => Ok(page),
        Err(_) => Err(JobFault::Memory),
    }
}

/// Reads a text, and writes whether and why its runs deadlock; before that, a page of it to the file that is named, if one is.
/// If the text isn't all of its program, `errors` is told so. Returns the exit status: 1 if the file can't be written.
pub(crate) fn explain<F: Files, R: Read, W: Write, E: Write>(
    host: &mut Host<'_, F>,
    alloc: Global,
    name: &str,
    explaining: Explaining<'_>,
    reader: &mut CountedReader<'_, R>,
    output: &mut Witnessed<'_, W>,
    errors: &mut E,
) -> Result<u8, JobFault>
    requires unread { reader.old.reads ≡ 0 }
    ensures status { IfOk result IsExplainStatus }
    ensures judged { IfOk result (λ status. IfSome (R.remaining reader.old.reader.now) (λ input. IsTextStatus input status)) }
    ensures judged_fault { IfErr result (λ fault. IfSome (R.remaining reader.old.reader.now) (λ input. IsTextStatus input (status_of fault))) }
    // What was written, and nothing else, is an explanation whose verdict is true of the text.
    ensures answered { IfOk result (λ status.
        IsExplanation explaining.entry.options status (R.remaining reader.old.reader.now)
        (W.contents output.old.stream.now) (W.contents output.new.stream.now)) }
    ensures unstalled { IfErr result IsNoStall }
    ensures cause { IfOk result (λ status. status ≡ 1 → host.new.failed ≡ true) }
    ensures cause_fault { IfErr result (λ fault. HasCause fault reader.new.failed output.new.failed) }
    ensures same_output { output.new.stream.ghost_name ≡ output.old.stream.ghost_name }
    ensures unwritten_fault { IfErr result (λ fault. fault ≢ JobFault.Write → Keeps (W.contents output.old.stream.now) (W.contents output.new.stream.now)) }
{
    let text = read_text(alloc, reader)?;
    explain_read(host, alloc, name, explaining, &text, output, errors)
}

/// Writes the page of a text that was read, if a file is named for it, and then the explanation.
fn explain_read<F: Files, W: Write, E: Write>(
    host: &mut Host<'_, F>,
    alloc: Global,
    name: &str,
    explaining: Explaining<'_>,
    text: &[u8],
    output: &mut Witnessed<'_, W>,
    errors: &mut E,
) -> Result<u8, JobFault>
    ensures status { IfOk result IsExplainStatus }
    ensures judged { IfOk result (IsTextStatus text.now) }
    ensures judged_fault { IfErr result (λ fault. IsTextStatus text.now (status_of fault)) }
    ensures answered { IfOk result (λ status.
        IsExplanation explaining.entry.options status (Some text.now) (W.contents output.old.stream.now) (W.contents output.new.stream.now)) }
    ensures unstalled { IfErr result IsNoStall }
    ensures cause { IfOk result (λ status. status ≡ 1 → host.new.failed ≡ true) }
    ensures cause_fault { IfErr result (λ fault. HasCause fault false output.new.failed) }
    ensures same_output { output.new.stream.ghost_name ≡ output.old.stream.ghost_name }
    ensures unwritten_fault { IfErr result (λ fault. fault ≢ JobFault.Write → Keeps (W.contents output.old.stream.now) (W.contents output.new.stream.now)) }
{
    let depth = explaining.depth;
    let explained = explain_text(alloc, name, explaining.options, depth, text)?;
    if let Some(page) = explaining.page {
        let bytes = explained_page(alloc, EXPLAIN, name, depth, text)?;
        if !is_kept(host, alloc, page, &bytes, errors) {
            return Ok(UNWRITTEN);
        }
    }
    tell_apart(alloc, name, text, errors);
    write_lines(output, explained.lines.as_bytes())?;
    Ok(explained.status)
}

/// Tells a reader if a text isn't all of its program. A failure is ignored.
fn tell_apart<E: Write>(alloc: Global, name: &str, text: &[u8], errors: &mut E) {
    if is_apart(text) {
        if let Ok(line) = apart_line(alloc, name) {
            let _ = errors.write_all(line.as_bytes());
        }
    }
}
