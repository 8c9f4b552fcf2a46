//! Explains a text, from a reader to a writer.

ghost use Rattle.std.specs.Prelude.{◌≡◌, ◌≢◌, ℕ, List, IfOk, IfErr, IfSome, OnOk, IsOkUnless};
ghost use Rattle.std.specs.Io.KnownBytes.{Appends, Keeps};
ghost use Rattle.std.specs.String.{string_bytes};
ghost use Rattle.coll_script.specs.Meaning.{HasMeaning};
ghost use Rattle.coll_script.specs.Plain.{HasCause, IsFaultOf, IsInputFault};
ghost use Rattle.coll_diagnosis.specs.Unstalled.{IsNoStall};
ghost use Rattle.coll_diagnosis.specs.Details.{IsFound, IsFoundOf};
ghost use Rattle.coll_diagnosis.specs.Verdicts.{Begins, EndsExplained, EndsTelling, IsStatus, IsTrueOf, Means, MeansOf, Says, heading};

use crate::dot_form::dot_form;
use crate::explanation::Explanation;
use crate::job::Job;
use crate::json_form::json_form;
use crate::text_form::text_form;
use crate::verdict::Verdict;
use coll_kinds::Refusal;
use coll_script::{CountedReader, JobFault, Script, Witnessed, read_text, write_lines};
use std::alloc::Global;
use std::io::{Read, Write};

/// How a text is explained.
#[derive(Clone, Copy, Debug, PartialEq, Eq)]
pub struct ExplainOptions {
    pub form: Form,
    /// Whether a deadlock with another library counts.
    pub is_strict: bool,
    /// Whether lines and a graph show every rank that waits in full, in place of a shortest cycle alone.
    pub is_whole: bool,
    /// Whether lines for a reader have colours.
    pub is_colored: bool,
}

/// What an explanation is written as.
#[derive(Clone, Copy, Debug, PartialEq, Eq)]
pub enum Form {
    /// Lines for a reader.
    Text,
    /// JSON, an object in each line.
    Json,
    /// A graph with an arrow from each rank that waits to the ranks for which it waits.
    Dot,
}

/// An explanation as it is written, with the exit status of its verdict.
#[derive(Debug, Drop)]
pub struct ExplainedText {
    pub lines: String,
    pub status: u8,
}

/// Reads the text that has this name, and writes which rank waits for which. Returns the exit status of its verdict. If it
/// returns a fault, nothing was written, except at a write fault.
///
/// # Errors
///
/// `Read` if the reader failed, `Text` if the text has a fault, `Write` if the writer failed, and `Memory` if memory was
/// refused. `Torn` or `Refused` if the text can't be explained, which doesn't happen.
pub fn explain_job<R: Read, W: Write>(
    alloc: Global,
    name: &str,
    options: ExplainOptions,
    reader: &mut CountedReader<'_, R>,
    writer: &mut Witnessed<'_, W>,
) -> Result<u8, JobFault>
    requires unread { reader.old.reads ≡ 0 }
    // Only a text that has a meaning is explained.
    ensures meaning { OnOk result (IfSome (R.remaining reader.old.reader.now) HasMeaning) }
    ensures status { IfOk result IsStatus }
    // What was written, and nothing else, is an explanation with that status.
    ensures said { IfOk result
        (λ status. (lines : List ℕ) × Says options status lines × Appends (W.contents writer.old.stream.now) (W.contents writer.new.stream.now) lines) }
    // The same, and the verdict that it names is true of the text, as are the stall and the cure that JSON ends with.
    ensures verdict { IfOk result
        (λ status. (lines : List ℕ) × IfSome (R.remaining reader.old.reader.now) (λ text. IsTrueOf text options status lines)
        × Appends (W.contents writer.old.stream.now) (W.contents writer.new.stream.now) lines) }
    // The fault of a text is the one that the definition of a text's meaning gives.
    ensures faults { IfErr result (IsInputFault (R.remaining reader.old.reader.now)) }
    ensures unstalled { IfErr result IsNoStall }
    // The result is a read fault only if the reader failed, and a write fault only if the writer did.
    ensures cause { IfErr result (λ fault. HasCause fault reader.new.failed writer.new.failed) }
    ensures same_writer { writer.new.stream.ghost_name ≡ writer.old.stream.ghost_name }
    ensures unwritten { IfErr result (λ fault. fault ≢ JobFault.Write → Keeps (W.contents writer.old.stream.now) (W.contents writer.new.stream.now)) }
{
    let text = read_text(alloc, reader)?;
    let explained = explain_text(alloc, name, options, true, &text)?;
    write_lines(writer, explained.lines.as_str().as_bytes())?;
    Ok(explained.status)
}

/// The explanation of the text that has this name, as it is written. Without a repair unless `seeks_repair`, because each one that is tried
/// is a text to be read and judged.
///
/// # Errors
///
/// `Text` if the text has a fault, and `Memory` if memory was refused. `Torn` or `Refused` if the text can't be explained,
/// which doesn't happen.
pub fn explain_text(
    alloc: Global,
    name: &str,
    options: ExplainOptions,
    seeks_repair: bool,
    text: &[u8],
) -> Result<ExplainedText, JobFault>
    ensures meaning { OnOk result (HasMeaning text.now) }
    ensures status { IfOk result (λ explained. IsStatus explained.status) }
    ensures said { IfOk result (λ explained. Says options explained.status (string_bytes explained.lines)) }
    // And the verdict that it names is true of the text, as are the stall and the cure that JSON ends with.
    ensures verdict { IfOk result (λ explained. IsTrueOf text.now options explained.status (string_bytes explained.lines)) }
    ensures faults { IfErr result (IsFaultOf text.now) }
    ensures unstalled { IfErr result IsNoStall }
{
    let explanation = explained(alloc, text, seeks_repair)?;
    let status = explanation.verdict.status(options.is_strict);
    let lines = written(alloc, name, options, text, &explanation, status)?;
    Ok(ExplainedText { lines, status })
}

/// The explanation of a text under a verdict that is true of it, as it is written, without a repair.
///
/// # Errors
///
/// Those of [`explain_text`].
pub fn explain_as(
    alloc: Global,
    name: &str,
    options: ExplainOptions,
    verdict: Verdict,
    text: &[u8],
) -> Result<ExplainedText, JobFault>
    requires { MeansOf text.now verdict }
    ensures meaning { OnOk result (HasMeaning text.now) }
    ensures status { IfOk result (λ explained. IsStatus explained.status) }
    ensures said { IfOk result (λ explained. Says options explained.status (string_bytes explained.lines)) }
    ensures verdict { IfOk result (λ explained. IsTrueOf text.now options explained.status (string_bytes explained.lines)) }
    ensures faults { IfErr result (IsFaultOf text.now) }
    ensures unstalled { IfErr result IsNoStall }
{
    let explanation = explained_under(alloc, text, verdict)?;
    let status = explanation.verdict.status(options.is_strict);
    let lines = written(alloc, name, options, text, &explanation, status)?;
    Ok(ExplainedText { lines, status })
}

/// The explanation of a text.
fn explained(alloc: Global, text: &[u8], seeks_repair: bool) -> Result<Explanation, JobFault>
    ensures meaning { OnOk result (HasMeaning text.now) }
    ensures means { IfOk result (λ explanation. MeansOf text.now explanation.verdict) }
    ensures found { IfOk result (λ explanation. IsFoundOf text.now explanation.verdict explanation.shown explanation.cure) }
    ensures faults { IfErr result (IsFaultOf text.now) }
    ensures unstalled { IfErr result IsNoStall }
{
    let script = Script::read(alloc, text)?;
    match Explanation::of(alloc, text, &script, seeks_repair) {
        Ok(explanation) => Ok(explanation),
        Err(Refusal::NoMemory) => Err(JobFault::Memory),
        Err(Refusal::Torn) => Err(JobFault::Torn),
        Err(why) => Err(JobFault::Refused(why)),
    }
}

/// The explanation of a text under a verdict that is true of it.
fn explained_under(alloc: Global, text: &[u8], verdict: Verdict) -> Result<Explanation, JobFault>
    requires { MeansOf text.now verdict }
    ensures meaning { OnOk result (HasMeaning text.now) }
    ensures same { IfOk result (λ explanation. explanation.verdict ≡ verdict) }
    ensures found { IfOk result (λ explanation. IsFoundOf text.now explanation.verdict explanation.shown explanation.cure) }
    ensures faults { IfErr result (IsFaultOf text.now) }
    ensures unstalled { IfErr result IsNoStall }
{
    let script = Script::read(alloc, text)?;
    match under(alloc, text, &script, verdict) {
        Ok(explanation) => Ok(explanation),
        Err(Refusal::NoMemory) => Err(JobFault::Memory),
        Err(Refusal::Torn) => Err(JobFault::Torn),
        Err(why) => Err(JobFault::Refused(why)),
    }
}

fn under(
    alloc: Global,
    text: &[u8],
    script: &Script,
    verdict: Verdict,
) -> Result<Explanation, Refusal>
    requires { Means verdict script.now }
    ensures same { IfOk result (λ explanation. explanation.verdict ≡ verdict) }
    ensures found { IfOk result (λ e. IsFound script.now text.now e.verdict e.shown e.cure) }
{
    let job = Job::of(alloc, script)?;
    let explanation = Explanation::under(alloc, text, script, &job, verdict, false)?;
    Ok(explanation)
}

/// The explanation in that form. The only fault is [`JobFault::Memory`].
fn written(
    alloc: Global,
    name: &str,
    options: ExplainOptions,
    text: &[u8],
    explanation: &Explanation,
    status: u8,
) -> Result<String, JobFault>
    ensures refusal { IsOkUnless result JobFault.Memory }
    ensures words { IfOk result (λ lines. options.form ≡ Form.Text → Begins (heading explanation.now.verdict) (string_bytes lines)) }
    ensures object { IfOk result (λ lines. options.form ≡ Form.Json → EndsExplained explanation.now.verdict status (string_bytes lines)) }
    ensures told { IfOk result
        (λ lines. options.form ≡ Form.Json → EndsTelling explanation.now.verdict status explanation.now.shown explanation.now.cure (string_bytes lines)) }
{
    let lines = match options.form {
        Form::Text => text_form(alloc, name, options, text, explanation).ok(),
        Form::Json => json_form(alloc, text, explanation, status).ok(),
        Form::Dot => dot_form(alloc, options.is_whole, text, explanation).ok(),
    };
    lines.ok_or(JobFault::Memory)
}
