//! Outcomes as JSON, an object in each line.

ghost use Rattle.std.specs.Prelude.{◌≡◌, ◌++◌, ◌∷◌, [], drop, count_by, flat_map, map, IfOk, OnOk};
ghost use Rattle.std.specs.String.{string_bytes};
ghost use Rattle.coll_report.specs.Views.{seen, trace_seen};
ghost use Rattle.coll_views.specs.StartLines.{start_lines_of, line_of};
ghost use Rattle.coll_views.specs.Lines.{done_text, found_object, is_completion, kind_text, object_text, outcome_of, outcomes_json, outcomes_of, stand_text};
ghost use Rattle.coll_views.specs.Requests.{named};
ghost use Rattle.coll_views.specs.Texts.{row_text};

use crate::elements::{Style, print_elements};
use crate::request::{NumberedRequest, RankRequests, TracedRequest};
use crate::start_lines::{StartLine, line_of, start_lines_of};
use coll_kinds::Datatype;
use coll_report::Entry;
use coll_script::ReportFault;
use std::alloc::{AllocError, Global};

/// The outcomes that the completions of a trace handed out, an object in each line: in rising rank, and those of a rank in the
/// order in which it completed them. Each has the line of the post or start that it ends; `lines` has the line of each entry's
/// call. The last line has the number of outcomes. The cost is linear in the text, for each rank in the trace, and for each
/// completion in its rank's requests and starts.
///
/// # Errors
///
/// [`ReportFault::Torn`] if an entry names a request that its rank didn't make; [`ReportFault::NoMemory`] if memory was refused.
pub fn outcomes_json(
    alloc: Global,
    ranks: u8,
    requests: &RankRequests,
    trace: &[Entry],
    lines: &[u32],
) -> Result<Vec<u8>, ReportFault>
    ensures { IfOk result (λ text. text.items ≡ outcomes_json ranks requests.now lines.now (trace_seen trace.now)) }
{
    let mut out = Vec::new(alloc);
    for rank in 0..ranks {
        print_rank(alloc, rank, requests, trace, lines, &mut out)?;
    }
    let count = trace.iter().filter(|entry| is_completion(entry)).count();
    let done = done_text(alloc, count)?;
    out.extend_from_slice(done.as_bytes())?;
    Ok(out)
}

fn done_text(alloc: Global, count: usize) -> Result<String, AllocError>
    ensures { IfOk result (λ text. string_bytes text ≡ done_text count) }
{
    format!(in alloc; "{{\"reason\":\"done\",\"outcomes\":{count},\"status\":0}}\n")
}

fn is_completion(entry: &Entry) -> bool
    ensures { result ≡ is_completion (seen entry.now) }
{
    match entry {
        Entry::Posted { .. } => false,
        Entry::Inited { .. } => false,
        Entry::Started { .. } => false,
        Entry::Retired { .. } => true,
        Entry::Freed { .. } => false,
    }
}

/// Appends the outcomes of a rank.
fn print_rank(
    alloc: Global,
    rank: u8,
    requests: &RankRequests,
    trace: &[Entry],
    lines: &[u32],
    out: &mut Vec<u8>,
) -> Result<(), ReportFault>
    ensures { OnOk result (out.new.items ≡ out.old.items ++ outcomes_of requests.now lines.now (trace_seen trace.now) rank) }
{
    let start_lines = start_lines_of(alloc, rank, trace, lines)?;
    print_entries(alloc, rank, requests, &start_lines, trace, out)
}

/// Appends the outcomes of a rank, which made these posts and starts.
fn print_entries(
    alloc: Global,
    rank: u8,
    requests: &RankRequests,
    start_lines: &[StartLine],
    trace: &[Entry],
    out: &mut Vec<u8>,
) -> Result<(), ReportFault>
    ensures { OnOk result (out.new.items ≡ out.old.items ++ flat_map (outcome_of requests.now start_lines.now rank) (trace_seen trace.now)) }
{
    for entry in trace {
        print_entry(alloc, rank, requests, start_lines, entry, out)?;
    }
    Ok(())
}

/// Appends the outcome that an entry handed out to the rank, if it handed one out.
fn print_entry(
    alloc: Global,
    of: u8,
    requests: &RankRequests,
    start_lines: &[StartLine],
    entry: &Entry,
    out: &mut Vec<u8>,
) -> Result<(), ReportFault>
    ensures { OnOk result (out.new.items ≡ out.old.items ++ outcome_of requests.now start_lines.now of (seen entry.now)) }
{
    match entry {
        Entry::Posted { .. } => Ok(()),
        Entry::Inited { .. } => Ok(()),
        Entry::Started { .. } => Ok(()),
        Entry::Retired {
            rank,
            ticket,
            start,
            bytes,
            ..
        } => {
            if *rank != of {
                return Ok(());
            }
            let found = requests.named_by(entry)?;
            let line = line_of(start_lines, *ticket, *start);
            print_object(alloc, *rank, *start, line, &found, bytes.as_slice(), out)
        }
        Entry::Freed { .. } => Ok(()),
    }
}

/// Appends the object of an outcome.
fn print_object(
    alloc: Global,
    rank: u8,
    start: u32,
    line: u32,
    found: &NumberedRequest,
    bytes: &[u8],
    out: &mut Vec<u8>,
) -> Result<(), ReportFault>
    ensures { OnOk result (out.new.items ≡ out.old.items ++ found_object (Some found.now) rank start line bytes.now) }
{
    let head = object_text(alloc, rank, start, line, found)?;
    out.extend_from_slice(head.as_bytes())?;
    print_values(alloc, found.request.sig.ty, bytes, out)?;
    out.extend_from_slice(b"]}\n")?;
    Ok(())
}

/// Appends the values of a row, with commas between them.
fn print_values(
    alloc: Global,
    ty: Datatype,
    row: &[u8],
    out: &mut Vec<u8>,
) -> Result<(), ReportFault>
    ensures { OnOk result (out.new.items ≡ out.old.items ++ drop 1 (row_text Style.Json ty row.now)) }
{
    let mut values = Vec::new(alloc);
    print_elements(Style::Json, ty, row, &mut values)?;
    if let Some((_, rest)) = values.split_first() {
        out.extend_from_slice(rest)?;
    }
    Ok(())
}

/// The part of an object before its values.
fn object_text(
    alloc: Global,
    rank: u8,
    start: u32,
    line: u32,
    found: &NumberedRequest,
) -> Result<String, AllocError>
    ensures { IfOk result (λ text. string_bytes text ≡ object_text rank start line found.now) }
{
    let number = found.number;
    let stand = stand_text(alloc, &found.request)?;
    let kind = kind_text(alloc, &found.request)?;
    format!(in alloc;
        "{{\"reason\":\"outcome\",\"rank\":{rank},\"req\":{number},\"start\":{start},\"line\":{line}{stand}{kind}"
    )
}

/// The request's communicator and place.
fn stand_text(alloc: Global, request: &TracedRequest) -> Result<String, AllocError>
    ensures { IfOk result (λ text. string_bytes text ≡ stand_text request.now) }
{
    let comm = request.comm;
    let place = request.place;
    format!(in alloc; ",\"comm\":{comm},\"place\":{place}")
}

/// The request's collective and type, and the beginning of the array of values.
fn kind_text(alloc: Global, request: &TracedRequest) -> Result<String, AllocError>
    ensures { IfOk result (λ text. string_bytes text ≡ kind_text request.now) }
{
    let kind = request.sig.kind.word();
    let ty = request.sig.ty.word();
    format!(in alloc; ",\"kind\":\"{kind}\",\"type\":\"{ty}\",\"values\":[")
}
