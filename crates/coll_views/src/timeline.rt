//! A timeline in the JSON format of trace events, which Perfetto and other viewers open.

use crate::lanes::Lanes;
use crate::request::{NumberedRequest, RankRequests};
use crate::words::signature_text;
use coll_report::{Entry, Span};
use coll_script::ReportFault;
use std::alloc::{AllocError, Global};

/// The timeline of a trace, with the span of each entry. Each rank is a process, and each post or start a complete event (`ph`
/// is `X`), from the beginning of its call to the end of the call that completed it. Times are in microseconds. Bars of a rank
/// that overlap in time lie in different threads of its process. The cost is that of [`crate::trace_text`].
///
/// # Errors
///
/// [`ReportFault::Torn`] if an entry names a request that its rank didn't make, or completes one that isn't active;
/// [`ReportFault::NoMemory`] if memory was refused.
pub fn timeline_json(
    alloc: Global,
    ranks: u8,
    requests: &RankRequests,
    trace: &[Entry],
    spans: &[Span],
) -> Result<String, ReportFault> {
    let mut out = String::new(alloc);
    out.push_str("{\"displayTimeUnit\":\"ns\",\"traceEvents\":[")?;
    for rank in 0..ranks {
        name_rank(alloc, rank, &mut out)?;
    }
    let mut lanes = Lanes::new(alloc, ranks)?;
    for (index, entry) in trace.iter().enumerate() {
        let bar = lanes.enter(index, entry)?;
        if let Entry::Retired { rank, start, .. } = entry {
            let found = requests.named_by(entry)?;
            let event = Event {
                rank: *rank,
                start: *start,
                lane: bar.lane,
                begin: span_at(spans, bar.begin),
                end: span_at(spans, index),
            };
            event.print(alloc, &found, &mut out)?;
        }
    }
    out.push_str("\n]}\n")?;
    Ok(out)
}

/// The span of the entry of that index; line 0 and times 0 if it isn't given.
fn span_at(spans: &[Span], index: usize) -> Span {
    match spans.get(index) {
        Some(span) => *span,
        None => Span {
            line: 0,
            from: 0,
            until: 0,
        },
    }
}

/// Names the process of a rank, and gives its place among the others.
fn name_rank(alloc: Global, rank: u8, out: &mut String) -> Result<(), AllocError> {
    let comma = if rank == 0 { "" } else { "," };
    let text = format!(in alloc;
        "{comma}\n{{\"ph\":\"M\",\"pid\":{rank},\"tid\":0,\"name\":\"process_name\",\"args\":{{\"name\":\"rank {rank}\"}}}},\n{{\"ph\":\"M\",\"pid\":{rank},\"tid\":0,\"name\":\"process_sort_index\",\"args\":{{\"sort_index\":{rank}}}}}"
    )?;
    out.push_str(text.as_str())
}

/// The bar of a post or a start.
#[derive(Clone, Copy)]
struct Event {
    rank: u8,
    start: u32,
    lane: usize,
    begin: Span,
    end: Span,
}

impl Event {
    fn print(
        &self,
        alloc: Global,
        found: &NumberedRequest,
        out: &mut String,
    ) -> Result<(), AllocError> {
        let request = &found.request;
        let name = signature_text(alloc, &request.sig, request.members)?;
        let from = microseconds(alloc, self.begin.from)?;
        let time = microseconds(alloc, self.end.until.saturating_sub(self.begin.from))?;
        let (rank, lane, start) = (self.rank, self.lane, self.start);
        let (number, comm, place) = (found.number, request.comm, request.place);
        let head = format!(in alloc;
            ",\n{{\"ph\":\"X\",\"pid\":{rank},\"tid\":{lane},\"ts\":{from},\"dur\":{time},\"cat\":\"collective\",\"name\":\"{name}\""
        )?;
        out.push_str(head.as_str())?;
        let (line, completed) = (self.begin.line, self.end.line);
        let tail = format!(in alloc;
            ",\"args\":{{\"req\":{number},\"start\":{start},\"comm\":{comm},\"place\":{place},\"line\":{line},\"completed_in_line\":{completed}}}}}"
        )?;
        out.push_str(tail.as_str())
    }
}

/// Nanoseconds as microseconds.
fn microseconds(alloc: Global, nanoseconds: u64) -> Result<String, AllocError> {
    let (whole, rest) = (nanoseconds / 1_000, nanoseconds % 1_000);
    format!(in alloc; "{whole}.{rest:03}")
}
