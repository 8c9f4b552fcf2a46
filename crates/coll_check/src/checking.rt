//! Checks a text, from a reader to writers.

ghost use Rattle.std.specs.Prelude.{◌≡◌, ◌≢◌, ◌||◌, ◌++◌, ℕ, List, true, codes, IfOk, IfErr, IfSome, IfNone, IsOkUnless, OnOk, OnErr, Err};
ghost use Rattle.std.specs.Io.KnownBytes.{Keeps};
ghost use Rattle.std.specs.String.{string_bytes};
ghost use Rattle.coll_script.specs.Meaning.{meaning, HasMeaning};
ghost use Rattle.coll_script.specs.Plain.{HasCause, IsFaultOf};
ghost use Rattle.coll_diagnosis.specs.Unstalled.{IsNoStall};
ghost use Rattle.coll_diagnosis.specs.Verdicts.{IsStatus};
ghost use Rattle.coll_check.specs.Checked.{IsCheckStatus, IsCheckFaultOf, IsCheckFault, IsSomeStatus, KeepsLines, WritesLines};
ghost use Rattle.coll_check.specs.Says.{Says, ReportsFault, ReportsNone, apart_note, explained_as, faultless_head};

use crate::apart::{apart_note, is_apart};
use crate::reporting::{checked_object, faults_report};
use coll_diagnosis::{ExplainOptions, Form};
use coll_faults::Faults;
use coll_script::{CountedReader, JobFault, Witnessed, read_text, write_lines};
use coll_witness::{DEPTH, explain_text};
use std::alloc::{AllocError, Global};
use std::io::{Read, Write};

/// How the faults of a text are written.
#[derive(Clone, Copy, Debug, PartialEq, Eq)]
pub enum CheckForm {
    /// Lines for a reader, painted if that is wanted.
    Text { is_colored: bool },
    /// JSON, an object in each line.
    Json,
}

/// The exit status of a text with a fault.
pub(crate) const FAULTY: u8 = 2;

/// Reads the text that has this name, and writes its faults; or, if it has none, whether its runs deadlock. Lines for a reader go
/// to `errors`, and JSON to `output`. Returns the exit status. If it returns a fault, nothing was written, except at a write
/// fault.
///
/// # Errors
///
/// `Read` if the reader failed, `Write` if a writer failed, and `Memory` if memory was refused. `Torn` or `Refused` if a text
/// without a fault can't be explained, which doesn't happen.
pub fn check_job<R: Read, W: Write, E: Write>(
    alloc: Global,
    name: &str,
    form: CheckForm,
    reader: &mut CountedReader<'_, R>,
    output: &mut Witnessed<'_, W>,
    errors: &mut Witnessed<'_, E>,
) -> Result<u8, JobFault>
    requires unread { reader.old.reads ≡ 0 }
    // The status is 2 exactly if the text has a fault.
    ensures status { IfOk result (λ status. IfSome (R.remaining reader.old.reader.now) (λ input. IsCheckStatus input status)) }
    ensures statuses { IfOk result IsSomeStatus }
    // What was written, and nothing else, is what is said of the text with that status.
    ensures said { IfOk result (λ status. (lines : List ℕ)
        × IfSome (R.remaining reader.old.reader.now) (λ input. Says form name.now input status lines)
        × WritesLines form (W.contents output.old.stream.now) (W.contents output.new.stream.now)
        (E.contents errors.old.stream.now) (E.contents errors.new.stream.now) lines) }
    ensures faults { IfErr result (IsCheckFault (R.remaining reader.old.reader.now)) }
    ensures unstalled { IfErr result IsNoStall }
    // The result is a read fault only if the reader failed, and a write fault only if one of the writers did.
    ensures cause { IfErr result (λ fault. HasCause fault reader.new.failed (output.new.failed || errors.new.failed)) }
    ensures same_writer { output.new.stream.ghost_name ≡ output.old.stream.ghost_name }
    ensures lines { KeepsLines form (W.contents output.old.stream.now) (W.contents output.new.stream.now) }
    ensures unwritten { IfErr result (λ fault. fault ≢ JobFault.Write → Keeps (W.contents output.old.stream.now) (W.contents output.new.stream.now)) }
{
    let text = read_text(alloc, reader)?;
    let (lines, status) = report(alloc, name, form, &text)?;
    write_report(form, lines.as_str().as_bytes(), output, errors)?;
    Ok(status)
}

/// Writes the lines: those for a reader to `errors`, JSON to `output`.
fn write_report<W: Write, E: Write>(
    form: CheckForm,
    lines: &[u8],
    output: &mut Witnessed<'_, W>,
    errors: &mut Witnessed<'_, E>,
) -> Result<(), JobFault>
    ensures ok { OnOk result
        (WritesLines form (W.contents output.old.stream.now) (W.contents output.new.stream.now)
        (E.contents errors.old.stream.now) (E.contents errors.new.stream.now) lines.now) }
    ensures fault { IsOkUnless result JobFault.Write }
    ensures cause { OnErr result ((output.new.failed || errors.new.failed) ≡ true) }
    ensures same_writer { output.new.stream.ghost_name ≡ output.old.stream.ghost_name }
    ensures lines { KeepsLines form (W.contents output.old.stream.now) (W.contents output.new.stream.now) }
{
    match form {
        CheckForm::Text { .. } => write_lines(errors, lines),
        CheckForm::Json => write_lines(output, lines),
    }
}

/// What is written of a text, and the exit status.
fn report(alloc: Global, name: &str, form: CheckForm, text: &[u8]) -> Result<(String, u8), JobFault>
    ensures status { IfOk result (λ report. IsCheckStatus text.now report.1) }
    ensures statuses { IfOk result (λ report. IsSomeStatus report.1) }
    ensures said { IfOk result (λ report. Says form name.now text.now report.1 (string_bytes report.0)) }
    ensures faults { IfErr result (IsCheckFaultOf text.now) }
    ensures unstalled { IfErr result IsNoStall }
{
    let Some(faults) = faults_of(alloc, text)? else {
        return faultless(alloc, name, form, text);
    };
    let lines = faulty(alloc, name, form, text, &faults)?;
    Ok((lines, FAULTY))
}

/// The faults of a text, if it has any.
fn faults_of(alloc: Global, text: &[u8]) -> Result<Option<Faults>, JobFault>
    ensures none { IfOk result (λ found. IfNone found (HasMeaning text.now)) }
    ensures first { IfOk result (λ found. IfSome found (λ faults. meaning text.now ≡ Err faults.first.fault)) }
    ensures memory { IsOkUnless result JobFault.Memory }
{
    match Faults::of(alloc, text) {
        Ok(faults) => Ok(faults),
        Err(_) => Err(JobFault::Memory),
    }
}

/// What is written of the faults of a text.
fn faulty(
    alloc: Global,
    name: &str,
    form: CheckForm,
    text: &[u8],
    faults: &Faults,
) -> Result<String, JobFault>
    ensures said { IfOk result (λ lines. ReportsFault form name.now faults.now.first.fault (string_bytes lines)) }
    ensures refusal { IsOkUnless result JobFault.Memory }
{
    match faults_report(alloc, name, form, text, faults) {
        Ok(lines) => Ok(lines),
        Err(_) => Err(JobFault::Memory),
    }
}

/// What is written of a text without a fault, and the status of its explanation.
fn faultless(
    alloc: Global,
    name: &str,
    form: CheckForm,
    text: &[u8],
) -> Result<(String, u8), JobFault>
    ensures status { IfOk result (λ report. IsStatus report.1) }
    ensures said { IfOk result (λ report. ReportsNone form name.now text.now report.1 (string_bytes report.0)) }
    ensures faults { IfErr result (IsFaultOf text.now) }
    ensures unstalled { IfErr result IsNoStall }
{
    let explained = explain_text(alloc, name, explained_as(form), DEPTH, text)?;
    let head = faultless_head(alloc, name, form, explained.status)?;
    match noted(
        alloc,
        name,
        form,
        is_apart(text),
        head,
        explained.lines.as_str(),
    ) {
        Ok(lines) => Ok((lines, explained.status)),
        Err(_) => Err(JobFault::Memory),
    }
}

/// The head of a report, a note on a text that isn't all of its program, and the explanation.
fn noted(
    alloc: Global,
    name: &str,
    form: CheckForm,
    is_apart: bool,
    head: String,
    explanation: &str,
) -> Result<String, AllocError>
    ensures { IfOk result (λ lines. string_bytes lines ≡ string_bytes head ++ (apart_note form name.now is_apart ++ explanation.now)) }
{
    let mut lines = head;
    let note = apart_note(alloc, name, form, is_apart)?;
    lines.push_str(note.as_str())?;
    lines.push_str(explanation)?;
    Ok(lines)
}

/// How a text without a fault is explained.
fn explained_as(form: CheckForm) -> ExplainOptions
    ensures { result ≡ explained_as form }
{
    match form {
        CheckForm::Text { is_colored } => ExplainOptions {
            form: Form::Text,
            is_strict: false,
            is_whole: false,
            is_colored,
        },
        CheckForm::Json => ExplainOptions {
            form: Form::Json,
            is_strict: false,
            is_whole: false,
            is_colored: false,
        },
    }
}

/// What stands before the explanation of a text without a fault.
fn faultless_head(
    alloc: Global,
    name: &str,
    form: CheckForm,
    status: u8,
) -> Result<String, JobFault>
    ensures head { IfOk result (λ head. string_bytes head ≡ faultless_head form name.now status) }
    ensures refusal { IsOkUnless result JobFault.Memory }
{
    let head = match form {
        CheckForm::Text { .. } => faultless_text(alloc, name).ok(),
        CheckForm::Json => checked_object(alloc, 0, false, status).ok(),
    };
    head.ok_or(JobFault::Memory)
}

/// The line for a text without a fault.
fn faultless_text(alloc: Global, name: &str) -> Result<String, AllocError>
    ensures { IfOk result (λ line. string_bytes line ≡ name.now ++ codes ": no fault\n") }
{
    format!(in alloc; "{name}: no fault\n")
}
