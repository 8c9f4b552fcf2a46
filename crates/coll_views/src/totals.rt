//! Sums of rows.

ghost use Rattle.std.specs.Prelude.{◌≡◌, ◌+◌, ◌-◌, IfOk};
ghost use Rattle.coll_views.specs.Totals.{column_sum, most_lent, number_in, totals_of};

use crate::row::TableRow;
use crate::work::sum_of;
use coll_script::ReportFault;
use std::alloc::Global;

/// The sums over the entries of a rank, of a collective or of a whole trace.
#[derive(Clone, Copy, Debug, PartialEq, Eq)]
pub struct Totals {
    /// The number of collectives that were carried out.
    pub times: u64,
    pub posts: u64,
    pub inits: u64,
    pub starts: u64,
    pub completed: u64,
    /// The bytes that posts and starts gave.
    pub given: u64,
    /// The bytes that completions handed out.
    pub got: u64,
    /// The greatest number of bytes that were lent to the engine at one time, from each post or start to its completion.
    pub lent: u64,
    /// The messages that members send by the schedules of the posts and starts.
    pub messages: u64,
    /// The bytes of these messages.
    pub sent: u64,
    /// The pieces that members combine by these schedules.
    pub combinations: u64,
}

/// A number of a row that is summed up.
#[derive(Clone, Copy)]
pub(crate) enum Column {
    Times,
    Posts,
    Inits,
    Starts,
    Completed,
    Given,
    Got,
    Messages,
    Sent,
    Combinations,
}

/// The totals of these rows.
///
/// # Errors
///
/// [`ReportFault::Torn`] if a sum doesn't fit into 64 bits; [`ReportFault::NoMemory`] if memory was refused.
pub fn totals_of(alloc: Global, rows: &[TableRow]) -> Result<Totals, ReportFault>
    ensures { IfOk result (λ totals. totals ≡ totals_of rows.now) }
{
    Ok(Totals {
        times: column_sum(alloc, Column::Times, rows)?,
        posts: column_sum(alloc, Column::Posts, rows)?,
        inits: column_sum(alloc, Column::Inits, rows)?,
        starts: column_sum(alloc, Column::Starts, rows)?,
        completed: column_sum(alloc, Column::Completed, rows)?,
        given: column_sum(alloc, Column::Given, rows)?,
        got: column_sum(alloc, Column::Got, rows)?,
        lent: most_lent(rows)?,
        messages: column_sum(alloc, Column::Messages, rows)?,
        sent: column_sum(alloc, Column::Sent, rows)?,
        combinations: column_sum(alloc, Column::Combinations, rows)?,
    })
}

/// The sum of a column.
fn column_sum(alloc: Global, column: Column, rows: &[TableRow]) -> Result<u64, ReportFault>
    ensures { IfOk result (λ total. total ≡ column_sum column rows.now) }
{
    let numbers: Vec<u64> = rows
        .iter()
        .map(|row| number_in(column, row))
        .collect(alloc)?;
    sum_of(&numbers)
}

/// A row's number for a column.
fn number_in(column: Column, row: &TableRow) -> u64
    ensures { result ≡ number_in column row.now }
{
    match column {
        Column::Times => row.times,
        Column::Posts => row.posts,
        Column::Inits => row.inits,
        Column::Starts => row.starts,
        Column::Completed => row.completed,
        Column::Given => row.given,
        Column::Got => row.got,
        Column::Messages => row.messages,
        Column::Sent => row.sent,
        Column::Combinations => row.combinations,
    }
}

/// The greatest number of bytes that are lent at one time along these rows.
fn most_lent(rows: &[TableRow]) -> Result<u64, ReportFault>
    ensures { IfOk result (λ most. most ≡ most_lent 0 rows.now) }
{
    let mut lent: u64 = 0;
    let mut most: u64 = 0;
    for row in rows {
        lent = lent_after(lent, row)?;
        most = most.max(lent);
    }
    Ok(most)
}

/// The bytes that are lent after a row, if `lent` bytes were lent before it.
fn lent_after(lent: u64, row: &TableRow) -> Result<u64, ReportFault>
    ensures { IfOk result (λ next. next ≡ lent + row.now.lends - row.now.returns) }
{
    match lent.checked_add(row.lends) {
        Some(more) => Ok(more.saturating_sub(row.returns)),
        None => Err(ReportFault::Torn),
    }
}
