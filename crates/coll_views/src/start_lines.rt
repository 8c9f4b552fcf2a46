//! The posts and starts of a rank, with the lines in which they stand.

ghost use Rattle.std.specs.Prelude.{◌≡◌, ◌++◌, ◌∷◌, [], IfOk, OnOk, slice_index, Some, None};
ghost use Rattle.std.specs.List.{position};
ghost use Rattle.coll_report.specs.Views.{seen, trace_seen};
ghost use Rattle.coll_views.specs.StartLines.{begins, start_lines_at, start_lines_of, line_at, line_of, own_start_line};

use crate::trace::line_of_entry;
use coll_kinds::Ticket;
use coll_report::Entry;
use std::alloc::{AllocError, Global};

/// A post or a start: the ticket of its request, the number of the start, and the line of the call.
#[derive(Clone, Copy)]
pub(crate) struct StartLine {
    ticket: Ticket,
    start: u32,
    line: u32,
}

/// The posts and starts of a rank, in their order. `lines` has the line of each entry's call.
pub(crate) fn start_lines_of(
    alloc: Global,
    rank: u8,
    trace: &[Entry],
    lines: &[u32],
) -> Result<Vec<StartLine>, AllocError>
    ensures { IfOk result (λ start_lines. start_lines.items ≡ start_lines_of lines.now (trace_seen trace.now) rank) }
{
    let mut start_lines = Vec::new(alloc);
    for (index, entry) in trace.iter().enumerate() {
        let line = line_of_entry(lines, index);
        push_start_line(rank, line, entry, &mut start_lines)?;
    }
    Ok(start_lines)
}

/// Appends the post or start that an entry is, if it is one of rank `of`.
fn push_start_line(
    of: u8,
    line: u32,
    entry: &Entry,
    start_lines: &mut Vec<StartLine>,
) -> Result<(), AllocError>
    ensures { OnOk result (start_lines.new.items ≡ start_lines.old.items ++ start_lines_at of line (seen entry.now)) }
{
    match entry {
        Entry::Posted { rank, ticket, .. } => push_own(of, *rank, *ticket, 0, line, start_lines),
        Entry::Inited { .. } => Ok(()),
        Entry::Started {
            rank,
            ticket,
            start,
            ..
        } => push_own(of, *rank, *ticket, *start, line, start_lines),
        Entry::Retired { .. } => Ok(()),
        Entry::Freed { .. } => Ok(()),
    }
}

/// Appends a post or start of `rank`, if that is rank `of`.
fn push_own(
    of: u8,
    rank: u8,
    ticket: Ticket,
    start: u32,
    line: u32,
    start_lines: &mut Vec<StartLine>,
) -> Result<(), AllocError>
    ensures { OnOk result (start_lines.new.items ≡ start_lines.old.items ++ own_start_line of rank ticket start line) }
{
    if rank == of {
        start_lines.push(StartLine {
            ticket,
            start,
            line,
        })?;
    }
    Ok(())
}

/// The line of that start of the request; 0 if it isn't among these.
pub(crate) fn line_of(start_lines: &[StartLine], ticket: Ticket, start: u32) -> u32
    ensures { result ≡ line_of start_lines.now ticket start }
{
    match position_of(start_lines, ticket, start) {
        Some(index) => line_at(start_lines, index),
        None => 0,
    }
}

fn line_at(start_lines: &[StartLine], index: usize) -> u32
    ensures { result ≡ line_at start_lines.now index }
{
    match start_lines.get(index) {
        Some(one) => one.line,
        None => 0,
    }
}

fn position_of(start_lines: &[StartLine], ticket: Ticket, start: u32) -> Option<usize>
    ensures { result ≡ position (begins ticket start) start_lines.now }
{
    start_lines
        .iter()
        .position(|one| begins(one, ticket, start))
}

fn begins(one: &StartLine, ticket: Ticket, start: u32) -> bool
    ensures { result ≡ begins ticket start one.now }
{
    one.ticket.slot == ticket.slot
        && one.ticket.generation == ticket.generation
        && one.start == start
}
