//! The trace as a picture: a column for each rank, in which a bar goes from each post or start to its completion.

use crate::elements::{Style, print_elements};
use crate::lanes::{Bar, Lanes};
use crate::request::{NumberedRequest, RankRequests};
use crate::trace::bytes_of;
use crate::words::signature_text;
use coll_report::Entry;
use coll_script::ReportFault;
use std::alloc::{AllocError, Global};

/// The picture of a trace; `lines` has the line of each entry's call, 0 for the unwritten `waitall`. A row for each entry has,
/// in its rank's column, `o` with the number of the request that it posts or starts, `x` if it completes the request, `i` if it
/// initialises it, and `f` if it frees it. The cost is that of [`crate::trace_text`], and in each row linear in the width.
///
/// # Errors
///
/// [`ReportFault::Torn`] if an entry names a request that its rank didn't make, or completes one that isn't active;
/// [`ReportFault::NoMemory`] if memory was refused.
pub fn picture_text(
    alloc: Global,
    ranks: u8,
    requests: &RankRequests,
    trace: &[Entry],
    lines: &[u32],
) -> Result<Vec<u8>, ReportFault> {
    let columns = columns_of(alloc, ranks, requests, trace)?;
    let mut out = Vec::new(alloc);
    print_head(alloc, &columns, &mut out)?;
    let mut lanes = Lanes::new(alloc, ranks)?;
    for (index, entry) in trace.iter().enumerate() {
        let bar = lanes.enter(index, entry)?;
        let found = requests.named_by(entry)?;
        let number = format!(in alloc; "{index:>5}  ")?;
        out.extend_from_slice(number.as_bytes())?;
        for column in &columns {
            let mark = match column.rank == entry.rank() {
                true => Some((bar, mark_of(alloc, &found, entry)?)),
                false => None,
            };
            column.print(alloc, &lanes, mark, &mut out)?;
        }
        let line = lines.get(index).copied().unwrap_or(0);
        print_end(alloc, &found, entry, line, &mut out)?;
    }
    Ok(out)
}

/// The column of a rank.
#[derive(Clone, Copy)]
struct Column {
    rank: u8,
    /// The width of a lane, in characters.
    lane: usize,
    /// The number of lanes that the rank needs.
    lanes: usize,
    /// The width of the whole column, in characters.
    width: usize,
}

impl Column {
    /// Appends the column's part of a row: the bars, and the mark of the row's entry if it is of this rank.
    fn print(
        &self,
        alloc: Global,
        lanes: &Lanes,
        mark: Option<(Bar, String)>,
        out: &mut Vec<u8>,
    ) -> Result<(), AllocError> {
        let mut row = Vec::new(alloc);
        let bars = lanes.of(alloc, self.rank)?;
        for lane in 0..self.lanes {
            let is_bar = bars.get(lane).copied().unwrap_or(false);
            match &mark {
                Some((bar, word)) if bar.lane == lane => row.extend_from_slice(word.as_bytes())?,
                _ if is_bar => row.push(b'|')?,
                _ => {}
            }
            fill(self.lane.saturating_mul(lane.saturating_add(1)), &mut row)?;
        }
        fill(self.width, &mut row)?;
        out.extend_from_slice(&row)
    }
}

/// Appends spaces up to that width.
fn fill(width: usize, row: &mut Vec<u8>) -> Result<(), AllocError> {
    for _ in row.len()..width {
        row.push(b' ')?;
    }
    Ok(())
}

/// The columns of all ranks, as wide as their bars need.
fn columns_of(
    alloc: Global,
    ranks: u8,
    requests: &RankRequests,
    trace: &[Entry],
) -> Result<Vec<Column>, ReportFault> {
    let mut most = vec![in alloc; 1; usize::from(ranks)]?;
    let mut lanes = Lanes::new(alloc, ranks)?;
    for (index, entry) in trace.iter().enumerate() {
        let bar = lanes.enter(index, entry)?;
        if let Some(needed) = most.get_mut(usize::from(entry.rank())) {
            *needed = bar.lane.saturating_add(1).max(*needed);
        }
    }
    let mut columns = Vec::new(alloc);
    for rank in 0..ranks {
        let lanes = most.get(usize::from(rank)).copied().unwrap_or(1);
        let last = requests.by(rank).len().saturating_sub(1);
        let number = format!(in alloc; "{last}")?;
        let name = format!(in alloc; "rank {rank}  ")?;
        let lane = number.len().saturating_add(2);
        columns.push(Column {
            rank,
            lane,
            lanes,
            width: lane.saturating_mul(lanes).max(name.len()),
        })?;
    }
    Ok(columns)
}

/// Appends the line of the columns' names.
fn print_head(alloc: Global, columns: &[Column], out: &mut Vec<u8>) -> Result<(), AllocError> {
    out.extend_from_slice(b"entry  ")?;
    for column in columns {
        let rank = column.rank;
        let name = format!(in alloc; "rank {rank}")?;
        let mut row = Vec::new(alloc);
        row.extend_from_slice(name.as_bytes())?;
        fill(column.width, &mut row)?;
        out.extend_from_slice(&row)?;
    }
    out.extend_from_slice(b" line\n")
}

/// The mark of an entry in its rank's column.
fn mark_of(alloc: Global, found: &NumberedRequest, entry: &Entry) -> Result<String, AllocError> {
    let number = found.number;
    match entry {
        Entry::Posted { .. } | Entry::Started { .. } => format!(in alloc; "o{number}"),
        Entry::Inited { .. } => format!(in alloc; "i{number}"),
        Entry::Retired { .. } => format!(in alloc; "x{number}"),
        Entry::Freed { .. } => format!(in alloc; "f{number}"),
    }
}

/// Appends the part of a row after the columns: the line of the call, and what it did.
fn print_end(
    alloc: Global,
    found: &NumberedRequest,
    entry: &Entry,
    line: u32,
    out: &mut Vec<u8>,
) -> Result<(), ReportFault> {
    let number = match line {
        0 => String::from_str(alloc, "  end")?,
        _ => format!(in alloc; "{line:>5}")?,
    };
    out.extend_from_slice(number.as_bytes())?;
    let request = &found.request;
    let comm = request.comm;
    let sig = signature_text(alloc, &request.sig, request.members)?;
    let did = match entry {
        Entry::Posted { .. } => format!(in alloc; "  posted {sig} on {comm}")?,
        Entry::Inited { .. } => format!(in alloc; "  initialised {sig} on {comm}")?,
        Entry::Started { .. } => format!(in alloc; "  started {sig} on {comm}")?,
        Entry::Retired { .. } => format!(in alloc; "  completed {sig}")?,
        Entry::Freed { .. } => format!(in alloc; "  freed {sig}")?,
    };
    out.extend_from_slice(did.as_bytes())?;
    let bytes = bytes_of(entry);
    if !bytes.is_empty() {
        out.extend_from_slice(b" :")?;
        print_elements(Style::Words, request.sig.ty, bytes, out)?;
    }
    out.push(b'\n')?;
    Ok(())
}
