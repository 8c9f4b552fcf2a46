//! Writes what a run did to the files that are named.

ghost use Rattle.std.specs.Prelude.{◌≡◌, true, false, IfErr, IfOk};
ghost use Rattle.std.specs.Option.{option_copied, option_map};
ghost use Rattle.coll_script.specs.Faults.{status_of};
ghost use Rattle.coll_job.specs.Pages.{ArePages, IsRunPageFor, lines_of, name_in, named_text, outcomes_in, requests_of, stats_page, text_for, trace_page};

use crate::host::Host;
use crate::keeping::is_kept;
use crate::pages::run_page;
use crate::views::{OutcomeForm, Views};
use coll_report::{Report, Span};
use coll_run::Recording;
use coll_script::{JobFault, ReportFault};
use coll_views::{
    RankRequests, outcomes_json, picture_text, rows_of, tables_text, timeline_json, trace_text,
};
use std::alloc::{AllocError, Global};
use std::fs::Files;
use std::io::Write;

/// A file's name and the bytes that it gets.
#[derive(Drop)]
struct ViewFile<'w> {
    name: &'w str,
    bytes: Vec<u8>,
}

/// Writes the files of a run of the text with the name `file`, each whole or not at all. It writes the first one only once the
/// bytes of all are made. Returns whether each could be written; if one can't, `errors` gets its name and the reason, and the
/// files before it stay.
///
/// # Errors
///
/// `Memory`; `Torn` if the report's entries don't fit together. In both cases nothing is written.
pub(crate) fn keep_views<F: Files, E: Write>(
    host: &mut Host<'_, F>,
    alloc: Global,
    views: &Views<'_>,
    file: &str,
    recording: &Recording,
    errors: &mut E,
) -> Result<bool, JobFault>
    ensures fault { IfErr result (λ fault. status_of fault ≡ 5) }
    ensures cause { IfOk result (λ kept. kept ≡ false → host.new.failed ≡ true) }
{
    if !views.are_wanted() {
        return Ok(true);
    }
    match pages_of(alloc, views, file, recording) {
        Ok(pages) => Ok(are_kept(host, alloc, &pages, errors)),
        Err(fault) => Err(told_of(fault)),
    }
}

/// A drawing of what a run did, with a column for each rank.
///
/// # Errors
///
/// Those of [`keep_views`].
pub(crate) fn picture_of(alloc: Global, recording: &Recording) -> Result<Vec<u8>, JobFault>
    ensures { IfErr result (λ fault. status_of fault ≡ 5) }
{
    match picture(alloc, recording) {
        Ok(picture) => Ok(picture),
        Err(fault) => Err(told_of(fault)),
    }
}

fn picture(alloc: Global, recording: &Recording) -> Result<Vec<u8>, ReportFault> {
    let requests = requests_of(alloc, &recording.report)?;
    let lines = lines_of(alloc, &recording.spans)?;
    let (ranks, trace) = (recording.report.ranks(), recording.report.entries());
    picture_text(alloc, ranks, &requests, trace, &lines)
}

/// Writes the pages up to the first that can't be written. Returns whether each could be.
fn are_kept<F: Files, E: Write>(
    host: &mut Host<'_, F>,
    alloc: Global,
    pages: &[Option<ViewFile<'_>>],
    errors: &mut E,
) -> bool
    ensures { result ≡ false → host.new.failed ≡ true }
{
    for page in pages {
        if let Some(page) = page {
            if !is_kept(host, alloc, page.name, &page.bytes, errors) {
                return false;
            }
        }
    }
    true
}

fn told_of(fault: ReportFault) -> JobFault
    ensures { status_of result ≡ 5 }
{
    match fault {
        ReportFault::NoMemory => JobFault::Memory,
        ReportFault::Torn => JobFault::Torn,
    }
}

/// The bytes of each file that is named.
fn pages_of<'w>(
    alloc: Global,
    views: &Views<'w>,
    file: &str,
    recording: &Recording,
) -> Result<[Option<ViewFile<'w>>; 6], ReportFault>
    ensures { IfOk result (λ pages. ArePages views.now file.now recording.now.report recording.now.spans.items recording.now.lines.items pages) }
{
    let requests = requests_of(alloc, &recording.report)?;
    let lines = lines_of(alloc, &recording.spans)?;
    let trace = trace_page(alloc, views.trace, recording, &requests, &lines)?;
    let stats = stats_page(alloc, views.stats, recording, &requests)?;
    let timeline = timeline_page(alloc, views.timeline, recording, &requests)?;
    let picture = picture_page(alloc, views.picture, recording, &requests, &lines)?;
    let page = browser_page(alloc, views.page, file, recording, &requests)?;
    let outcomes = outcomes_page(alloc, views, recording, &requests, &lines)?;
    Ok([trace, stats, timeline, picture, page, outcomes])
}

/// The page of the trace, an entry in each line, if a file is named.
fn trace_page<'w>(
    alloc: Global,
    name: Option<&'w str>,
    recording: &Recording,
    requests: &RankRequests,
    lines: &[u32],
) -> Result<Option<ViewFile<'w>>, ReportFault>
    requires requests { requests.now ≡ requests_of recording.now.report }
    requires lines { lines.now ≡ lines_of recording.now.spans.items }
    ensures { IfOk result (λ page. option_map named_text page ≡ text_for name.entry (trace_page recording.now.report recording.now.spans.items)) }
{
    let Some(name) = name else {
        return Ok(None);
    };
    let bytes = trace_text(alloc, requests, recording.report.entries(), lines)?;
    Ok(Some(ViewFile { name, bytes }))
}

/// The page of the tables, if a file is named.
fn stats_page<'w>(
    alloc: Global,
    name: Option<&'w str>,
    recording: &Recording,
    requests: &RankRequests,
) -> Result<Option<ViewFile<'w>>, ReportFault>
    requires { requests.now ≡ requests_of recording.now.report }
    ensures { IfOk result (λ page. option_map named_text page ≡ text_for name.entry (stats_page recording.now.report)) }
{
    let Some(name) = name else {
        return Ok(None);
    };
    let bytes = stats_text(alloc, recording, requests)?;
    Ok(Some(ViewFile { name, bytes }))
}

/// The tables: sums over the entries.
pub(crate) fn stats_text(
    alloc: Global,
    recording: &Recording,
    requests: &RankRequests,
) -> Result<Vec<u8>, ReportFault>
    requires { requests.now ≡ requests_of recording.now.report }
    ensures { IfOk result (λ text. text.items ≡ stats_page recording.now.report) }
{
    let report = &recording.report;
    let rows = rows_of(alloc, requests, report.entries())?;
    tables_text(alloc, report.ranks(), report.groups(), requests, &rows)
}

/// The page of the timeline, if a file is named.
fn timeline_page<'w>(
    alloc: Global,
    name: Option<&'w str>,
    recording: &Recording,
    requests: &RankRequests,
) -> Result<Option<ViewFile<'w>>, ReportFault>
    ensures { IfOk result (λ page. option_map name_in page ≡ option_copied name.entry) }
{
    let Some(name) = name else {
        return Ok(None);
    };
    let (ranks, trace) = (recording.report.ranks(), recording.report.entries());
    let text = timeline_json(alloc, ranks, requests, trace, &recording.spans)?;
    let bytes = Vec::from_slice(alloc, text.as_bytes())?;
    Ok(Some(ViewFile { name, bytes }))
}

/// The page of the picture, if a file is named.
fn picture_page<'w>(
    alloc: Global,
    name: Option<&'w str>,
    recording: &Recording,
    requests: &RankRequests,
    lines: &[u32],
) -> Result<Option<ViewFile<'w>>, ReportFault>
    ensures { IfOk result (λ page. option_map name_in page ≡ option_copied name.entry) }
{
    let Some(name) = name else {
        return Ok(None);
    };
    let (ranks, trace) = (recording.report.ranks(), recording.report.entries());
    let bytes = picture_text(alloc, ranks, requests, trace, lines)?;
    Ok(Some(ViewFile { name, bytes }))
}

/// The page for a browser, if a file is named.
fn browser_page<'w>(
    alloc: Global,
    name: Option<&'w str>,
    file: &str,
    recording: &Recording,
    requests: &RankRequests,
) -> Result<Option<ViewFile<'w>>, ReportFault>
    requires { requests.now ≡ requests_of recording.now.report }
    ensures { IfOk result (IsRunPageFor name.entry file.now recording.now.report) }
{
    let Some(name) = name else {
        return Ok(None);
    };
    let bytes = run_page(alloc, file, recording, requests)?;
    Ok(Some(ViewFile { name, bytes }))
}

/// The page of the outcomes in the form that is asked for, if a file is named.
fn outcomes_page<'w>(
    alloc: Global,
    views: &Views<'w>,
    recording: &Recording,
    requests: &RankRequests,
    lines: &[u32],
) -> Result<Option<ViewFile<'w>>, ReportFault>
    requires requests { requests.now ≡ requests_of recording.now.report }
    requires lines { lines.now ≡ lines_of recording.now.spans.items }
    ensures { IfOk result (λ page. option_map named_text page
        ≡ text_for views.now.outcomes (outcomes_in views.now.form recording.now.report recording.now.spans.items recording.now.lines.items)) }
{
    let Some(name) = views.outcomes else {
        return Ok(None);
    };
    let bytes = outcomes_in(alloc, views.form, recording, requests, lines)?;
    Ok(Some(ViewFile { name, bytes }))
}

/// The outcomes that the entries handed out: the lines of the run, or JSON.
fn outcomes_in(
    alloc: Global,
    form: OutcomeForm,
    recording: &Recording,
    requests: &RankRequests,
    lines: &[u32],
) -> Result<Vec<u8>, ReportFault>
    requires requests { requests.now ≡ requests_of recording.now.report }
    requires lines { lines.now ≡ lines_of recording.now.spans.items }
    ensures { IfOk result (λ page. page.items ≡ outcomes_in form recording.now.report recording.now.spans.items recording.now.lines.items) }
{
    match form {
        OutcomeForm::Text => Ok(Vec::from_slice(alloc, &recording.lines)?),
        OutcomeForm::Json => {
            let (ranks, trace) = (recording.report.ranks(), recording.report.entries());
            outcomes_json(alloc, ranks, requests, trace, lines)
        }
    }
}

fn requests_of(alloc: Global, report: &Report) -> Result<RankRequests, ReportFault>
    ensures { IfOk result (λ requests. requests ≡ requests_of report.now) }
{
    RankRequests::of(alloc, report.ranks(), report.groups(), report.entries())
}

/// For each entry, the line of the call that made it.
fn lines_of(alloc: Global, spans: &[Span]) -> Result<Vec<u32>, AllocError>
    ensures { IfOk result (λ lines. lines.items ≡ lines_of spans.now) }
{
    spans.iter().map(|span| span.line).collect(alloc)
}
