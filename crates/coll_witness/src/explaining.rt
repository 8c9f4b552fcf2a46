//! Explains a text as `coll_diagnosis` does. If that shows neither that all runs deadlock nor that none does, it explains it by runs that
//! deadlock, or by cases of what calls complete that depend on time.

ghost use Rattle.std.specs.Prelude.{◌≡◌, ◌++◌, ◌∷◌, false, IfOk, IfErr, IfSome, OnOk};
ghost use Rattle.std.specs.List.{list_any};
ghost use Rattle.std.specs.String.{string_bytes};
ghost use Rattle.coll_parser.specs.Cutting.{is_line_feed};
ghost use Rattle.coll_script.specs.Meaning.{HasMeaning};
ghost use Rattle.coll_script.specs.Plain.{IsFaultOf};
ghost use Rattle.coll_diagnosis.specs.Unstalled.{IsNoStall};
ghost use Rattle.coll_diagnosis.specs.Verdicts.{Begins, MeansOf};
ghost use Rattle.coll_witness.specs.Findings.{EndsRun, IsStatus, IsTrueOf, IsTrueRun, Says, SaysIn, ShowsRun, heading, run_object};

use crate::by_cases::verdict_by_cases;
use crate::finding::Finding;
use crate::picked_text::picked_text;
use crate::rehearsal::Rehearsed;
use crate::replayed::replayed;
use crate::run_form::{push_difference, push_objects, push_run};
use crate::runs::{Runs, find_runs};
use coll_diagnosis::{ExplainOptions, ExplainedText, Form, Verdict};
use coll_kinds::Refusal;
use coll_replay::Move;
use coll_script::{JobFault, Script, ScriptFault};
use coll_snippet::has_line_feed;
use std::alloc::{AllocError, Global};

/// How many states a search for runs looks at, unless another number is asked for.
pub const DEPTH: u32 = 200;

/// The exit status if runs may deadlock.
const MAY_STALL: u8 = 6;

/// The exit status if every run of this engine deadlocks.
const STALLS: u8 = 3;

/// The explanation of the text that has this name, as it is written. If some runs may deadlock, and it isn't shown that all do, it
/// searches for one that does, through `depth` states at most. If it finds none, it goes through as many cases of what calls complete, and
/// says that no run deadlocks if none does in any case.
///
/// # Errors
///
/// Those of `explain_text` of `coll_diagnosis`.
pub fn explain_text(
    alloc: Global,
    name: &str,
    options: ExplainOptions,
    depth: u32,
    text: &[u8],
) -> Result<ExplainedText, JobFault>
    ensures meaning { OnOk result (HasMeaning text.now) }
    ensures status { IfOk result (λ explained. IsStatus explained.status) }
    ensures said { IfOk result (λ explained. Says options explained.status (string_bytes explained.lines)) }
    // And the verdict that it names is true of the text: it holds of all runs, or of some that were replayed.
    ensures verdict { IfOk result (λ explained. IsTrueOf text.now options explained.status (string_bytes explained.lines)) }
    ensures faults { IfErr result (IsFaultOf text.now) }
    ensures unstalled { IfErr result IsNoStall }
{
    let explained = explained_by_courses(alloc, name, options, text)?;
    if explained.status != MAY_STALL {
        return Ok(explained);
    }
    match explained_by_runs(alloc, name, options, depth, text) {
        Ok(Some(lines)) => Ok(ExplainedText {
            lines,
            status: MAY_STALL,
        }),
        Ok(None) => explained_by_cases(alloc, name, options, depth, text, explained),
        Err(_) => Err(JobFault::Memory),
    }
}

/// The explanation by cases, if they show that no run deadlocks; else the one that is given.
fn explained_by_cases(
    alloc: Global,
    name: &str,
    options: ExplainOptions,
    depth: u32,
    text: &[u8],
    explained: ExplainedText,
) -> Result<ExplainedText, JobFault>
    requires meaning { HasMeaning text.now }
    requires status { IsStatus explained.status }
    requires said { Says options explained.status (string_bytes explained.lines) }
    requires verdict { IsTrueOf text.now options explained.status (string_bytes explained.lines) }
    ensures meaning { OnOk result (HasMeaning text.now) }
    ensures status { IfOk result (λ explained. IsStatus explained.status) }
    ensures said { IfOk result (λ explained. Says options explained.status (string_bytes explained.lines)) }
    ensures verdict { IfOk result (λ explained. IsTrueOf text.now options explained.status (string_bytes explained.lines)) }
    ensures faults { IfErr result (IsFaultOf text.now) }
    ensures unstalled { IfErr result IsNoStall }
{
    match verdict_by_cases(alloc, text, depth) {
        Ok(Some(verdict)) => explained_under(alloc, name, options, verdict, text),
        Ok(None) => Ok(explained),
        Err(_) => Err(JobFault::Memory),
    }
}

/// The explanation under a verdict that is true of the text.
fn explained_under(
    alloc: Global,
    name: &str,
    options: ExplainOptions,
    verdict: Verdict,
    text: &[u8],
) -> Result<ExplainedText, JobFault>
    requires { MeansOf text.now verdict }
    ensures meaning { OnOk result (HasMeaning text.now) }
    ensures status { IfOk result (λ explained. IsStatus explained.status) }
    ensures said { IfOk result (λ explained. Says options explained.status (string_bytes explained.lines)) }
    ensures verdict { IfOk result (λ explained. IsTrueOf text.now options explained.status (string_bytes explained.lines)) }
    ensures faults { IfErr result (IsFaultOf text.now) }
    ensures unstalled { IfErr result IsNoStall }
{
    coll_diagnosis::explain_as(alloc, name, options, verdict, text)
}

/// The explanation without runs.
fn explained_by_courses(
    alloc: Global,
    name: &str,
    options: ExplainOptions,
    text: &[u8],
) -> Result<ExplainedText, JobFault>
    ensures meaning { OnOk result (HasMeaning text.now) }
    ensures status { IfOk result (λ explained. IsStatus explained.status) }
    ensures said { IfOk result (λ explained. Says options explained.status (string_bytes explained.lines)) }
    ensures verdict { IfOk result (λ explained. IsTrueOf text.now options explained.status (string_bytes explained.lines)) }
    ensures faults { IfErr result (IsFaultOf text.now) }
    ensures unstalled { IfErr result IsNoStall }
{
    coll_diagnosis::explain_text(alloc, name, options, true, text)
}

/// The explanation by runs, if some run deadlocks that a search finds.
fn explained_by_runs(
    alloc: Global,
    name: &str,
    options: ExplainOptions,
    depth: u32,
    text: &[u8],
) -> Result<Option<String>, AllocError>
    ensures { IfOk result (λ found. IfSome found (λ lines. IsTrueRun text.now options 6 (string_bytes lines))) }
{
    match Script::read(alloc, text) {
        Ok(script) => explained_script(alloc, name, options, depth, text, &script),
        Err(ScriptFault::Text(_)) => Ok(None),
        Err(ScriptFault::NoMemory) => Err(AllocError),
    }
}

/// The same of the script of a text. A refusal of the engine means that nothing is shown.
fn explained_script(
    alloc: Global,
    name: &str,
    options: ExplainOptions,
    depth: u32,
    text: &[u8],
    script: &Script,
) -> Result<Option<String>, AllocError>
    ensures { IfOk result (λ found. IfSome found (λ lines. ShowsRun script.now options (string_bytes lines))) }
{
    match shown_script(alloc, name, options, depth, text, script) {
        Ok(found) => Ok(found),
        Err(Refusal::NoMemory) => Err(AllocError),
        Err(_) => Ok(None),
    }
}

fn shown_script(
    alloc: Global,
    name: &str,
    options: ExplainOptions,
    depth: u32,
    text: &[u8],
    script: &Script,
) -> Result<Option<String>, Refusal>
    ensures { IfOk result (λ found. IfSome found (λ lines. ShowsRun script.now options (string_bytes lines))) }
{
    let runs = find_runs(alloc, script, depth)?;
    let Some(stalling) = &runs.stalling else {
        return Ok(None);
    };
    let Some(finding) = replayed(alloc, script, &stalling.schedule, ending_of(&runs))? else {
        return Ok(None);
    };
    let Some(stall) = explained_stall(alloc, name, options, text, stalling)? else {
        return Ok(None);
    };
    let lines = written(alloc, options.form, finding, &runs, stall.as_str())?;
    Ok(Some(lines))
}

/// The schedule of the run that ends, if there is one.
fn ending_of(runs: &Runs) -> &[Move] {
    match &runs.ending {
        Some(run) => &run.schedule,
        None => &[],
    }
}

/// How `coll_diagnosis` explains the deadlock of a run: that of the text of this run alone, which deadlocks in every run. None if it
/// doesn't show that. No repair is sought, because it would be one of that text.
fn explained_stall(
    alloc: Global,
    name: &str,
    options: ExplainOptions,
    text: &[u8],
    run: &Rehearsed,
) -> Result<Option<String>, AllocError> {
    let picked = picked_text(alloc, text, &run.passed)?;
    match coll_diagnosis::explain_text(alloc, name, options, false, &picked) {
        Ok(explained) => Ok(if explained.status == STALLS {
            Some(explained.lines)
        } else {
            None
        }),
        Err(JobFault::Memory) => Err(AllocError),
        Err(_) => Ok(None),
    }
}

/// What was found, in a form. `stall` is how the deadlock is explained in that form.
fn written(
    alloc: Global,
    form: Form,
    finding: Finding,
    runs: &Runs,
    stall: &str,
) -> Result<String, AllocError>
    ensures { IfOk result (λ lines. SaysIn form finding (string_bytes lines)) }
{
    match form {
        Form::Text => text_form(alloc, finding, runs, stall),
        Form::Json => json_form(alloc, finding, runs, stall),
        Form::Dot => String::from_str(alloc, stall),
    }
}

/// Lines for a reader.
fn text_form(
    alloc: Global,
    finding: Finding,
    runs: &Runs,
    stall: &str,
) -> Result<String, AllocError>
    ensures { IfOk result (λ lines. Begins (heading finding) (string_bytes lines)) }
{
    let head = finding.heading();
    let rest = rest_form(alloc, runs, stall)?;
    after(alloc, head, rest.as_str())
}

/// The lines, with `head` as the first one.
fn after(alloc: Global, head: &str, rest: &str) -> Result<String, AllocError>
    ensures { IfOk result (λ text. string_bytes text ≡ head.now ++ 10 ∷ rest.now) }
{
    format!(in alloc; "{head}\n{rest}")
}

/// The run, what differs in one that ends, and who waits for whom.
fn rest_form(alloc: Global, runs: &Runs, stall: &str) -> Result<String, AllocError> {
    let mut out = String::new(alloc);
    if let Some(stalling) = &runs.stalling {
        push_run(&mut out, stalling)?;
        if let Some(ending) = &runs.ending {
            push_difference(&mut out, stalling, ending)?;
        }
    }
    push_stall(&mut out, stall)?;
    Ok(out)
}

/// Adds the lines of a deadlock but the first one, which speaks of every run.
fn push_stall(out: &mut String, stall: &str) -> Result<(), AllocError> {
    let Some((_, waits)) = stall.split_once('\n') else {
        return Ok(());
    };
    out.push_str(waits)
}

/// Objects of the run and of the ranks that wait, and a last one.
fn json_form(
    alloc: Global,
    finding: Finding,
    runs: &Runs,
    stall: &str,
) -> Result<String, AllocError>
    ensures { IfOk result (λ lines. EndsRun finding (string_bytes lines)) }
{
    let (waits, standing) = parts_of(stall);
    let mut lines = objects_form(alloc, runs, waits)?;
    let last = run_object(alloc, finding, in_one_line(standing))?;
    lines.push_str(last.as_str())?;
    Ok(lines)
}

/// The part of a line of JSON. An empty list if it has a line feed: that doesn't happen, but no proof says so of `coll_diagnosis`.
fn in_one_line(part: &str) -> &str
    ensures { list_any is_line_feed result.now ≡ false }
{
    if has_line_feed(part.as_bytes()) {
        "[]"
    } else {
        part
    }
}

/// Of JSON's objects on a deadlock those of the ranks that wait, and, of the last one, where the ranks stand.
fn parts_of(stall: &str) -> (&str, &str) {
    let Some((waits, last)) = stall.split_once("{\"reason\":\"explained\"") else {
        return ("", "[]");
    };
    let Some((_, standing)) = last.split_once("\"shortest\":") else {
        return (waits, "[]");
    };
    match standing.split_once(",\"moves\":") {
        Some((standing, _)) => (waits, standing),
        None => (waits, "[]"),
    }
}

fn objects_form(alloc: Global, runs: &Runs, waits: &str) -> Result<String, AllocError> {
    let mut out = String::new(alloc);
    if let Some(stalling) = &runs.stalling {
        push_objects(&mut out, stalling)?;
    }
    out.push_str(waits)?;
    Ok(out)
}

/// The last object.
fn run_object(alloc: Global, finding: Finding, standing: &str) -> Result<String, AllocError>
    ensures { IfOk result (λ line. string_bytes line ≡ run_object finding standing.now) }
{
    let word = finding.word();
    let head = finding.heading();
    format!(in alloc;
        "{{\"reason\":\"explained\",\"verdict\":\"{word}\",\"proved\":true,\"headline\":\"{head}\",\"shortest\":{standing},\"moves\":[],\"status\":6}}\n"
    )
}
