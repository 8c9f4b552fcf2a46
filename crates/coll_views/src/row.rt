//! What entries add to a table.

ghost use Rattle.std.specs.Prelude.{◌≡◌, ◌^◌, ◌≤◌, ◌<◌, map, length, Some, IfOk};
ghost use Rattle.coll_report.specs.Views.{seen, trace_seen};
ghost use Rattle.coll_views.specs.Requests.{named};
ghost use Rattle.coll_views.specs.Rows.{row_by, row_of, rows_of, times_of};

use crate::request::{NumberedRequest, RankRequests, TracedRequest};
use crate::trace::bytes_of;
use coll_kinds::Signature;
use coll_report::Entry;
use coll_script::ReportFault;
use std::alloc::Global;

/// What an entry adds to the table of its rank, and to that of its collective.
#[derive(Clone, Copy, Debug, PartialEq, Eq)]
pub struct TableRow {
    pub rank: u8,
    pub comm: u32,
    pub sig: Signature,
    /// 1 for a post or a start by the communicator's first member, so that each collective that is carried out counts once.
    pub times: u64,
    /// 1 for a post.
    pub posts: u64,
    /// 1 for an initialisation.
    pub inits: u64,
    /// 1 for a start.
    pub starts: u64,
    /// 1 for a completion.
    pub completed: u64,
    /// The bytes that a post or a start gives.
    pub given: u64,
    /// The bytes that a completion hands out.
    pub got: u64,
    /// The bytes that are lent to the engine from a post or a start on: given and got together.
    pub lends: u64,
    /// The bytes that a completion gives back to the rank.
    pub returns: u64,
    /// The messages that the member sends by a post or a start.
    pub messages: u64,
    /// The bytes of these messages.
    pub sent: u64,
    /// The pieces that the member combines by a post or a start.
    pub combinations: u64,
}

impl TableRow {
    /// A row of a request, with all numbers 0.
    fn of(rank: u8, request: &TracedRequest) -> TableRow
        ensures { result ≡ row_by rank request.now }
    {
        TableRow {
            rank,
            comm: request.comm,
            sig: request.sig,
            times: 0,
            posts: 0,
            inits: 0,
            starts: 0,
            completed: 0,
            given: 0,
            got: 0,
            lends: 0,
            returns: 0,
            messages: 0,
            sent: 0,
            combinations: 0,
        }
    }
}

/// The rows of a trace's entries, in their order. The cost is linear in the entries, and for each in its rank's requests.
///
/// # Errors
///
/// [`ReportFault::Torn`] if an entry names a request that its rank didn't make; [`ReportFault::NoMemory`] if memory was refused.
pub fn rows_of(
    alloc: Global,
    requests: &RankRequests,
    trace: &[Entry],
) -> Result<Vec<TableRow>, ReportFault>
    ensures { IfOk result (λ rows. rows.items ≡ rows_of requests.now (trace_seen trace.now)) }
{
    let mut rows = Vec::with_capacity(alloc, trace.len())?;
    for entry in trace {
        let found = requests.named_by(entry)?;
        rows.push(row_of(&found, entry))?;
    }
    Ok(rows)
}

/// The row of an entry that concerns this request.
fn row_of(found: &NumberedRequest, entry: &Entry) -> TableRow
    ensures { result ≡ row_of (Some found.now) (seen entry.now) }
{
    let request = found.request;
    let row = TableRow::of(entry.rank(), &request);
    let len = bytes_of(entry).len() as u64;
    let lent = request.sig.lent(request.members, request.member) as u64;
    match entry {
        Entry::Posted { .. } => TableRow {
            posts: 1,
            ..begun(row, &request, len, lent)
        },
        Entry::Inited { .. } => TableRow { inits: 1, ..row },
        Entry::Started { .. } => TableRow {
            starts: 1,
            ..begun(row, &request, len, lent)
        },
        Entry::Retired { .. } => TableRow {
            completed: 1,
            got: len,
            returns: lent,
            ..row
        },
        Entry::Freed { .. } => row,
    }
}

/// The row with the numbers of a post or a start added.
fn begun(row: TableRow, request: &TracedRequest, len: u64, lent: u64) -> TableRow
    ensures { result ≡ record row {
      times = times_of request.now;
      given = len;
      lends = lent;
      messages = request.now.work.messages;
      sent = request.now.work.bytes;
      combinations = request.now.work.combinations;
    } }
{
    TableRow {
        times: times_of(request),
        given: len,
        lends: lent,
        messages: request.work.messages,
        sent: request.work.bytes,
        combinations: request.work.combinations,
        ..row
    }
}

/// How often a post or a start of this request counts as a collective that is carried out: once at the first member, else 0 times.
fn times_of(request: &TracedRequest) -> u64
    ensures { result ≡ times_of request.now }
{
    if request.member == 0 { 1 } else { 0 }
}
