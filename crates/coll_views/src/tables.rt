//! Tables by rank and by collective.

ghost use Rattle.std.specs.Prelude.{◌≡◌, ◌<◌, ◌≤◌, ◌++◌, List, filter, flat_map, length, map, replicate, IfOk, OnOk};
ghost use Rattle.std.specs.List.{list_any};
ghost use Rattle.coll_kinds.specs.Sameness.{same_signature};
ghost use Rattle.coll_report.specs.Views.{groups_seen};
ghost use Rattle.coll_sched.specs.Families.{family_exchanges};
ghost use Rattle.coll_plans.specs.Plans.{family};
ghost use Rattle.coll_views.specs.Tables.{added_once, all_comm_lines, asked_on, by_collective, by_rank, collective_line, collectives_text};
ghost use Rattle.coll_views.specs.Tables.{comm_lines, each_once, head_of_collectives, head_of_ranks, is_on, label_of, line_of, numbers_text};
ghost use Rattle.coll_views.specs.Tables.{rank_line, rank_lines, ranks_text, rows_on, tables_text};

use crate::cell::{cells_of, print_aligned, print_cells};
use crate::request::{RankRequests, TracedRequest};
use crate::row::TableRow;
use crate::totals::totals_of;
use crate::words::signature_text;
use coll_draw::Drawing;
use coll_kinds::Signature;
use coll_script::ReportFault;
use std::alloc::{AllocError, Global};

const HEAD_OF_RANKS: &str =
    "rank  posts  inits  starts  completed  bytes given  bytes got  most lent  messages  their bytes  combinations\n";

const HEAD_OF_COLLECTIVES: &str =
    "\ncommunicator  members  times  exchanges each  posts  inits  starts  completed  bytes given  bytes got  most lent  messages  their bytes  combinations  collective\n";

/// Two tables, of this number of ranks on these communicators. The first has a line for each rank and one for all; the second
/// one for each signature that was asked for on a communicator, in the order in which the communicator's first member asked for
/// it. The rows are those of the requests. Linear in the rows for each line, and in the schedules of all members of each
/// signature.
///
/// # Errors
///
/// [`ReportFault::Torn`] if a sum doesn't fit into 64 bits, or a communicator doesn't have 1 to 64 members;
/// [`ReportFault::NoMemory`] if memory was refused.
pub fn tables_text(
    alloc: Global,
    ranks: u8,
    groups: &[Vec<u8>],
    requests: &RankRequests,
    rows: &[TableRow],
) -> Result<Vec<u8>, ReportFault>
    ensures { IfOk result (λ text. text.items ≡ tables_text ranks (groups_seen groups.now) requests.now rows.now) }
{
    let mut out = Vec::new(alloc);
    print_ranks(alloc, ranks, rows, &mut out)?;
    print_collectives(alloc, groups, requests, rows, &mut out)?;
    Ok(out)
}

/// Appends a line for each rank, and one for all.
fn print_ranks(
    alloc: Global,
    ranks: u8,
    rows: &[TableRow],
    out: &mut Vec<u8>,
) -> Result<(), ReportFault>
    ensures { OnOk result (out.new.items ≡ out.old.items ++ ranks_text ranks rows.now) }
{
    push_head_of_ranks(out)?;
    print_rank_lines(alloc, ranks, rows, out)?;
    out.extend_from_slice(b" all")?;
    print_numbers(alloc, rows, out)?;
    out.extend_from_slice(b"\n")?;
    Ok(())
}

#[tactic(auto, unfolding(crate::specs::Tables::head_of_ranks))]
fn push_head_of_ranks(out: &mut Vec<u8>) -> Result<(), ReportFault>
    ensures { OnOk result (out.new.items ≡ out.old.items ++ head_of_ranks) }
{
    out.extend_from_slice(HEAD_OF_RANKS.as_bytes())?;
    Ok(())
}

#[tactic(auto, unfolding(crate::specs::Tables::head_of_collectives))]
fn push_head_of_collectives(out: &mut Vec<u8>) -> Result<(), ReportFault>
    ensures { OnOk result (out.new.items ≡ out.old.items ++ head_of_collectives) }
{
    out.extend_from_slice(HEAD_OF_COLLECTIVES.as_bytes())?;
    Ok(())
}

/// Appends a line for each rank.
fn print_rank_lines(
    alloc: Global,
    ranks: u8,
    rows: &[TableRow],
    out: &mut Vec<u8>,
) -> Result<(), ReportFault>
    ensures { OnOk result (out.new.items ≡ out.old.items ++ rank_lines ranks rows.now) }
{
    for rank in 0..ranks {
        print_rank(alloc, rank, rows, out)?;
    }
    Ok(())
}

/// Appends the line of a rank.
fn print_rank(
    alloc: Global,
    rank: u8,
    rows: &[TableRow],
    out: &mut Vec<u8>,
) -> Result<(), ReportFault>
    ensures { OnOk result (out.new.items ≡ out.old.items ++ rank_line rows.now rank) }
{
    let own = rows_by(alloc, rank, rows)?;
    let label = format!(in alloc; "{rank}")?;
    print_aligned(alloc, 4, label.as_bytes(), out)?;
    print_numbers(alloc, &own, out)?;
    out.extend_from_slice(b"\n")?;
    Ok(())
}

/// The rows of a rank.
fn rows_by(alloc: Global, rank: u8, rows: &[TableRow]) -> Result<Vec<TableRow>, AllocError>
    ensures { IfOk result (λ own. own.items ≡ filter (by_rank rank) rows.now) }
{
    rows.iter()
        .filter(|row| row.rank == rank)
        .copied()
        .collect(alloc)
}

/// Appends a line for each collective, by communicator.
fn print_collectives(
    alloc: Global,
    groups: &[Vec<u8>],
    requests: &RankRequests,
    rows: &[TableRow],
    out: &mut Vec<u8>,
) -> Result<(), ReportFault>
    ensures { OnOk result (out.new.items ≡ out.old.items ++ collectives_text requests.now (groups_seen groups.now) rows.now) }
{
    push_head_of_collectives(out)?;
    print_communicators(alloc, groups, requests, rows, out)
}

fn print_communicators(
    alloc: Global,
    groups: &[Vec<u8>],
    requests: &RankRequests,
    rows: &[TableRow],
    out: &mut Vec<u8>,
) -> Result<(), ReportFault>
    ensures { OnOk result (out.new.items ≡ out.old.items ++ all_comm_lines requests.now (groups_seen groups.now) rows.now) }
{
    for (comm, group) in groups.iter().enumerate() {
        print_communicator(alloc, comm, group, requests, rows, out)?;
    }
    Ok(())
}

/// Appends a line for each collective of a communicator.
fn print_communicator(
    alloc: Global,
    comm: usize,
    group: &[u8],
    requests: &RankRequests,
    rows: &[TableRow],
    out: &mut Vec<u8>,
) -> Result<(), ReportFault>
    ensures { OnOk result (out.new.items ≡ out.old.items ++ comm_lines requests.now rows.now comm group.now) }
{
    let members = size_of(group)?;
    let asked = asked_on(alloc, requests, comm, group)?;
    let collectives = each_once(alloc, &asked)?;
    print_lines(alloc, comm, members, &collectives, rows, out)
}

/// The number of a group's members. `Torn` if it isn't from 1 to 64.
fn size_of(group: &[u8]) -> Result<u8, ReportFault>
    ensures size { IfOk result (λ size. size ≡ length group.now) }
    ensures not_none { IfOk result (λ size. 0 < size) }
    ensures few { IfOk result (λ size. size ≤ 64) }
{
    let size = group.len();
    if size == 0 || size > 64 {
        return Err(ReportFault::Torn);
    }
    Ok(size as u8)
}

/// The signatures for which the first member of a group asked on a communicator, in the order in which it asked.
fn asked_on(
    alloc: Global,
    requests: &RankRequests,
    comm: usize,
    group: &[u8],
) -> Result<Vec<Signature>, AllocError>
    ensures { IfOk result (λ asked. asked.items ≡ asked_on requests.now comm group.now) }
{
    let first = match group.first() {
        Some(first) => *first,
        None => 0,
    };
    let own = requests.by(first);
    own.iter()
        .filter(|request| is_on(request, comm))
        .map(|request| request.sig)
        .collect(alloc)
}

fn is_on(request: &TracedRequest, comm: usize) -> bool
    ensures { result ≡ is_on comm request.now }
{
    request.comm as usize == comm
}

/// The signatures, each once, in the order of their first occurrences.
fn each_once(alloc: Global, sigs: &[Signature]) -> Result<Vec<Signature>, AllocError>
    ensures { IfOk result (λ once. once.items ≡ each_once sigs.now) }
{
    let mut once = Vec::new(alloc);
    for sig in sigs {
        add_once(sig, &mut once)?;
    }
    Ok(once)
}

/// Appends a signature, if it isn't in the list.
fn add_once(sig: &Signature, sigs: &mut Vec<Signature>) -> Result<(), AllocError>
    ensures { OnOk result (sigs.new.items ≡ added_once sigs.old.items sig.now) }
{
    if !is_among(sig, sigs) {
        sigs.push(*sig)?;
    }
    Ok(())
}

fn is_among(sig: &Signature, sigs: &[Signature]) -> bool
    ensures { result ≡ list_any (same_signature sig.now) sigs.now }
{
    sigs.iter().any(|one| sig.is_same(one))
}

/// Appends a line for each of these collectives of a communicator of this number of members.
fn print_lines(
    alloc: Global,
    comm: usize,
    members: u8,
    collectives: &[Signature],
    rows: &[TableRow],
    out: &mut Vec<u8>,
) -> Result<(), ReportFault>
    requires not_none { 0 < members }
    requires few { members ≤ 64 }
    ensures { OnOk result (out.new.items ≡ out.old.items ++ flat_map (collective_line rows.now comm members) collectives.now) }
{
    for sig in collectives {
        print_collective(alloc, comm, members, sig, rows, out)?;
    }
    Ok(())
}

/// Appends the line of a collective.
fn print_collective(
    alloc: Global,
    comm: usize,
    members: u8,
    sig: &Signature,
    rows: &[TableRow],
    out: &mut Vec<u8>,
) -> Result<(), ReportFault>
    requires not_none { 0 < members }
    requires few { members ≤ 64 }
    ensures { OnOk result (out.new.items ≡ out.old.items ++ collective_line rows.now comm members sig.now) }
{
    let own = rows_on(alloc, comm, sig, rows)?;
    print_line(alloc, comm, members, sig, &own, out)
}

/// Appends the line of a collective with these rows.
fn print_line(
    alloc: Global,
    comm: usize,
    members: u8,
    sig: &Signature,
    rows: &[TableRow],
    out: &mut Vec<u8>,
) -> Result<(), ReportFault>
    requires not_none { 0 < members }
    requires few { members ≤ 64 }
    ensures { OnOk result (out.new.items ≡ out.old.items ++ line_of comm members sig.now rows.now) }
{
    let totals = totals_of(alloc, rows)?;
    print_label(alloc, comm, members, sig, totals.times, out)?;
    print_numbers(alloc, rows, out)?;
    out.extend_from_slice(b"  ")?;
    let words = signature_text(alloc, sig, members)?;
    out.extend_from_slice(words.as_bytes())?;
    out.extend_from_slice(b"\n")?;
    Ok(())
}

/// The rows of a collective on a communicator.
fn rows_on(
    alloc: Global,
    comm: usize,
    sig: &Signature,
    rows: &[TableRow],
) -> Result<Vec<TableRow>, AllocError>
    ensures { IfOk result (λ own. own.items ≡ rows_on rows.now comm sig.now) }
{
    rows.iter()
        .filter(|row| is_of(row, comm, sig))
        .copied()
        .collect(alloc)
}

fn is_of(row: &TableRow, comm: usize, sig: &Signature) -> bool
    ensures { result ≡ by_collective comm sig.now row.now }
{
    row.comm as usize == comm && sig.is_same(&row.sig)
}

/// Appends the part of a collective's line before its numbers.
fn print_label(
    alloc: Global,
    comm: usize,
    members: u8,
    sig: &Signature,
    times: u64,
    out: &mut Vec<u8>,
) -> Result<(), ReportFault>
    requires not_none { 0 < members }
    requires few { members ≤ 64 }
    ensures { OnOk result (out.new.items ≡ out.old.items ++ label_of comm members sig.now times) }
{
    let exchanges = exchanges_of(alloc, sig, members)?;
    let communicator = format!(in alloc; "{comm}")?;
    let size = format!(in alloc; "{members}")?;
    let often = format!(in alloc; "{times}")?;
    let each = format!(in alloc; "{exchanges}")?;
    print_aligned(alloc, 12, communicator.as_bytes(), out)?;
    print_aligned(alloc, 9, size.as_bytes(), out)?;
    print_aligned(alloc, 7, often.as_bytes(), out)?;
    print_aligned(alloc, 16, each.as_bytes(), out)
}

/// The number of rounds with messages in the schedules of a collective.
fn exchanges_of(alloc: Global, sig: &Signature, members: u8) -> Result<usize, ReportFault>
    requires not_none { 0 < members }
    requires few { members ≤ 64 }
    ensures { IfOk result (λ count. count ≡ family_exchanges members (family sig.now members)) }
{
    let drawing = Drawing::of(alloc, *sig, members)?;
    Ok(drawing.totals().exchanges)
}

/// Appends the totals of these rows.
fn print_numbers(alloc: Global, rows: &[TableRow], out: &mut Vec<u8>) -> Result<(), ReportFault>
    ensures { OnOk result (out.new.items ≡ out.old.items ++ numbers_text rows.now) }
{
    let totals = totals_of(alloc, rows)?;
    print_cells(alloc, &cells_of(totals), out)
}
