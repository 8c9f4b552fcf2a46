//! Whether ranks at their stands can go on.

ghost use Rattle.std.specs.Prelude.{◌≡◌, length, slice_get};
ghost use Rattle.std.specs.List.{list_any, list_all, range_with_len};
ghost use Rattle.coll_verdict.specs.Checking.{all_stay, awaited_at, cant_at, is_held_up, is_late, is_short, lacks, lacks_by, lacks_heard};
ghost use Rattle.coll_verdict.specs.Checking.{lacks_member, lacks_some, lacks_told, late_at, peer_is_late, rank_stays, size_in, waits};

use crate::known::KnownRequest;
use crate::library::{HeardRows, Library};
use crate::stood::Stood;
use crate::view::{GroupRequest, View};
use coll_kinds::{MAX_RANKS, member_of};
use coll_parser::{Command, Named};

/// Whether no rank can go on from its stand, while no other is beyond its own. For each request that a rank's next
/// command names, the cost is linear in the requests of all ranks.
pub fn all_stay(view: &View<'_>) -> bool
    ensures { result ≡ all_stay view.now.library.now view.now.ranks.now view.now.groups.now }
{
    view.ranks.iter().all(|own| stays(view, own))
}

/// Whether a rank isn't at its end.
pub(crate) fn one_is_short(ranks: &[Stood]) -> bool
    ensures { result ≡ list_any is_short ranks.now }
{
    ranks.iter().any(|own| own.stand < own.commands.len())
}

/// Whether the rank is at its end, or can't go on.
pub fn stays(view: &View<'_>, own: &Stood) -> bool
    ensures { result ≡ rank_stays view.now.library.now view.now.ranks.now view.now.groups.now own.now }
{
    match own.commands.get(own.stand) {
        Some(command) => is_held_up(view, own, command),
        None => true,
    }
}

/// Whether the rank can't carry the command out.
fn is_held_up(view: &View<'_>, own: &Stood, command: &Command) -> bool
    ensures { result ≡ is_held_up view.now.library.now view.now.ranks.now view.now.groups.now own.now command.now }
{
    match command {
        Command::Wait(q) => is_awaited(view, own, *q as usize),
        Command::WaitAll(named) => one_is_awaited(view, own, named),
        Command::WaitAny(named) => {
            one_is_awaited(view, own, named) && none_can_be_done(view, own, named)
        }
        Command::WaitSome(named) => {
            one_is_awaited(view, own, named) && none_can_be_done(view, own, named)
        }
        Command::Post { .. } | Command::Init { .. } | Command::Start { .. } => false,
        Command::Test(_) | Command::Free(_) => false,
    }
}

fn one_is_awaited(view: &View<'_>, own: &Stood, named: &Named) -> bool
    ensures { result ≡ list_any (awaited_at view.now.library.now view.now.ranks.now view.now.groups.now own.now) named.now }
{
    let mut is_found = false;
    for index in 0..named.len() {
        is_found = is_found || is_awaited(view, own, named.get(index));
    }
    is_found
}

fn none_can_be_done(view: &View<'_>, own: &Stood, named: &Named) -> bool
    ensures { result ≡ list_all (cant_at view.now.library.now view.now.ranks.now view.now.groups.now own.now) named.now }
{
    let mut holds = true;
    for index in 0..named.len() {
        holds = holds && cant_be_done(view, own, named.get(index));
    }
    holds
}

/// Whether the request was started and lacks a member.
fn is_awaited(view: &View<'_>, own: &Stood, q: usize) -> bool
    ensures { result ≡ awaited_at view.now.library.now view.now.ranks.now view.now.groups.now own.now q }
{
    match own.requests.get(q) {
        Some(request) => waits(view, own.rank, request),
        None => false,
    }
}

fn waits(view: &View<'_>, rank: u8, request: &KnownRequest) -> bool
    ensures { result ≡ waits view.now.library.now view.now.ranks.now view.now.groups.now rank request.now }
{
    request.starts > 0 && lacks(view, rank, request)
}

/// Whether the request was never started, has been waited for, or lacks a member.
fn cant_be_done(view: &View<'_>, own: &Stood, q: usize) -> bool
    ensures { result ≡ cant_at view.now.library.now view.now.ranks.now view.now.groups.now own.now q }
{
    match own.requests.get(q) {
        Some(request) => {
            request.starts == 0 || request.is_rested || lacks(view, own.rank, request)
        }
        None => false,
    }
}

/// Whether a rank's request waits for a member that has not come to its start.
fn lacks(view: &View<'_>, rank: u8, own: &KnownRequest) -> bool
    ensures { result ≡ lacks view.now.library.now view.now.ranks.now view.now.groups.now rank own.now }
{
    let Some(group) = view.groups.get(own.comm as usize) else {
        return false;
    };
    let request = GroupRequest {
        ranks: view.ranks,
        group: group.as_slice(),
        own,
    };
    lacks_some(view.library, &request, member_of(rank, group))
}

fn lacks_some(library: &Library, request: &GroupRequest<'_>, member: Option<usize>) -> bool
    ensures { result ≡ lacks_some library.now request.now.ranks.now request.now.group.now request.now.own.now member }
{
    match member {
        Some(member) => lacks_by(library, request, member),
        None => false,
    }
}

fn lacks_by(library: &Library, request: &GroupRequest<'_>, member: usize) -> bool
    ensures { result ≡ lacks_by library.now request.now.ranks.now request.now.group.now request.now.own.now member }
{
    match library {
        Library::Any => member < MAX_RANKS && lacks_any(request, member as u8),
        Library::Hears(tables) => lacks_by_some(tables, request, member),
    }
}

fn lacks_by_some(tables: &[HeardRows], request: &GroupRequest<'_>, member: usize) -> bool
    ensures { result ≡ list_any (lacks_heard request.now.ranks.now request.now.group.now request.now.own.now member) tables.now }
{
    tables
        .iter()
        .any(|table| lacks_heard(table, request, member))
}

/// Whether this is the collective's table, and the request of a member waits by it for another, which has not come to its start.
fn lacks_heard(table: &HeardRows, request: &GroupRequest<'_>, member: usize) -> bool
    ensures { result ≡ lacks_heard request.now.ranks.now request.now.group.now request.now.own.now member table.now }
{
    table.is_of(&request.own.sig, request.group.len()) && lacks_some_told(table, request, member)
}

fn lacks_some_told(table: &HeardRows, request: &GroupRequest<'_>, member: usize) -> bool
    ensures { result ≡ list_any (lacks_told request.now.ranks.now request.now.group.now request.now.own.now member table.now)
        (range_with_len 0 (length request.now.group.now)) }
{
    (0..request.group.len()).any(|other| lacks_told(table, request, member, other))
}

fn lacks_told(table: &HeardRows, request: &GroupRequest<'_>, member: usize, other: usize) -> bool
    ensures { result ≡ lacks_told request.now.ranks.now request.now.group.now request.now.own.now member table.now other }
{
    table.says_yes(member, other) && peer_is_late(request, other)
}

fn lacks_any(request: &GroupRequest<'_>, member: u8) -> bool
    ensures { result ≡ list_any (lacks_member request.now.ranks.now request.now.group.now request.now.own.now member)
        (range_with_len 0 (size_in request.now.group.now)) }
{
    (0..size_in(request.group)).any(|other| lacks_member(request, member, other))
}

/// Whether the request of a member waits for another, which has not come to its start.
fn lacks_member(request: &GroupRequest<'_>, member: u8, other: u8) -> bool
    ensures { result ≡ lacks_member request.now.ranks.now request.now.group.now request.now.own.now member other }
{
    request.own.sig.needs(size_in(request.group), member, other)
        && peer_is_late(request, other as usize)
}

fn peer_is_late(request: &GroupRequest<'_>, other: usize) -> bool
    ensures { result ≡ peer_is_late request.now.ranks.now request.now.own.now (slice_get request.now.group.now other) }
{
    match request.group.get(other) {
        Some(peer) => rank_is_late(request, *peer),
        None => false,
    }
}

fn rank_is_late(request: &GroupRequest<'_>, peer: u8) -> bool
    ensures { result ≡ is_late request.now.own.now (slice_get request.now.ranks.now peer) }
{
    match request.ranks.get(peer as usize) {
        Some(peer) => all_are_late(&peer.requests, request.own),
        None => false,
    }
}

fn all_are_late(requests: &[KnownRequest], own: &KnownRequest) -> bool
    ensures { result ≡ list_all (late_at own.now.comm own.now.place own.now.starts) requests.now }
{
    requests
        .iter()
        .all(|request| request.is_late(own.comm, own.place, own.starts))
}

/// How many members there are; 0 of a group that is too large to be one.
fn size_in(group: &[u8]) -> u8
    ensures { result ≡ size_in group.now }
{
    if group.len() <= MAX_RANKS {
        group.len() as u8
    } else {
        0
    }
}
