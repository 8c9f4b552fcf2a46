//! The trace as lines.

ghost use Rattle.std.specs.Prelude.{◌≡◌, ◌++◌, ◌∷◌, [], length, slice_index, IfOk, OnOk};
ghost use Rattle.std.specs.String.{string_bytes};
ghost use Rattle.coll_report.specs.Views.{seen, trace_seen};
ghost use Rattle.coll_views.specs.Lines.{bytes_of, entry_line, head_text, line_text, place_text, trace_text};
ghost use Rattle.coll_views.specs.Requests.{named};

use crate::elements::{Style, print_elements};
use crate::request::{NumberedRequest, RankRequests};
use crate::words::signature_text;
use coll_report::Entry;
use coll_script::ReportFault;
use std::alloc::{AllocError, Global};

/// The entries of a trace, one in each line and in their order: the rank of the call, what the call did to which of the rank's
/// requests, what was given or handed out, and after `#` the line of the call. `lines` has that line for each entry, 0 for the
/// unwritten `waitall`. The cost is linear in the text, and for each entry in its rank's requests.
///
/// # Errors
///
/// [`ReportFault::Torn`] if an entry names a request that its rank didn't make; [`ReportFault::NoMemory`] if memory was refused.
pub fn trace_text(
    alloc: Global,
    requests: &RankRequests,
    trace: &[Entry],
    lines: &[u32],
) -> Result<Vec<u8>, ReportFault>
    ensures { IfOk result (λ text. text.items ≡ trace_text requests.now lines.now (trace_seen trace.now)) }
{
    let mut out = Vec::new(alloc);
    for (index, entry) in trace.iter().enumerate() {
        let line = line_of_entry(lines, index);
        print_entry(alloc, requests, entry, line, &mut out)?;
    }
    Ok(out)
}

/// The line of the entry of that index; 0 if it isn't given.
pub(crate) fn line_of_entry(lines: &[u32], index: usize) -> u32
    ensures { result ≡ slice_index lines.now index }
{
    match lines.get(index) {
        Some(line) => *line,
        None => 0,
    }
}

/// Appends the line of an entry.
fn print_entry(
    alloc: Global,
    requests: &RankRequests,
    entry: &Entry,
    line: u32,
    out: &mut Vec<u8>,
) -> Result<(), ReportFault>
    ensures { OnOk result (out.new.items ≡ out.old.items ++ entry_line requests.now line (seen entry.now)) }
{
    let found = requests.named_by(entry)?;
    let head = head_text(alloc, &found, entry)?;
    out.extend_from_slice(head.as_bytes())?;
    print_elements(Style::Words, found.request.sig.ty, bytes_of(entry), out)?;
    let end = line_text(alloc, line)?;
    out.extend_from_slice(end.as_bytes())?;
    Ok(())
}

/// The words after the elements: the line of the call.
fn line_text(alloc: Global, line: u32) -> Result<String, AllocError>
    ensures { IfOk result (λ text. string_bytes text ≡ line_text line) }
{
    if line == 0 {
        return String::from_str(alloc, "  # end\n");
    }
    format!(in alloc; "  # line {line}\n")
}

/// The words before the elements.
fn head_text(alloc: Global, found: &NumberedRequest, entry: &Entry) -> Result<String, AllocError>
    ensures { IfOk result (λ text. string_bytes text ≡ head_text found.now (seen entry.now)) }
{
    let number = found.number;
    let place = place_text(alloc, found)?;
    match entry {
        Entry::Posted { rank, .. } => {
            let sig = signature_text(alloc, &found.request.sig, found.request.members)?;
            format!(in alloc; "rank {rank} posted      req {number} {place} {sig} :")
        }
        Entry::Inited { rank, .. } => {
            let sig = signature_text(alloc, &found.request.sig, found.request.members)?;
            format!(in alloc; "rank {rank} initialised req {number} {place} {sig}")
        }
        Entry::Started { rank, start, .. } => {
            format!(in alloc; "rank {rank} started     req {number} {place} start {start} :")
        }
        Entry::Retired { rank, start, .. } => {
            format!(in alloc; "rank {rank} completed   req {number} {place} start {start} :")
        }
        Entry::Freed { rank, .. } => {
            format!(in alloc; "rank {rank} freed       req {number} {place}")
        }
    }
}

/// The request's communicator and place.
fn place_text(alloc: Global, found: &NumberedRequest) -> Result<String, AllocError>
    ensures { IfOk result (λ text. string_bytes text ≡ place_text found.now.request) }
{
    let comm = found.request.comm;
    let place = found.request.place;
    format!(in alloc; "comm {comm} place {place}")
}

/// The bytes that an entry gave or handed out.
pub(crate) fn bytes_of(entry: &Entry) -> &[u8]
    ensures { result.now ≡ bytes_of (seen entry.now) }
{
    match entry {
        Entry::Posted { bytes, .. } => bytes.as_slice(),
        Entry::Inited { .. } => &[],
        Entry::Started { bytes, .. } => bytes.as_slice(),
        Entry::Retired { bytes, .. } => bytes.as_slice(),
        Entry::Freed { .. } => &[],
    }
}
