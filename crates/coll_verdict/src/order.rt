//! Ranks that carry their commands out, one after the other, each when it can.

ghost use Rattle.std.specs.Prelude.{◌≡◌, true, IsTrue, IfOk, Some, count_by, length, slice_get};
ghost use Rattle.std.specs.List.{list_any, list_all, range_with_len};
ghost use Rattle.coll_parser.specs.Code.{rows_view};
ghost use Rattle.coll_parser.specs.Histories.{History};
ghost use Rattle.coll_verdict.specs.Checking.{all_come, apart_at, are_apart, begun_as, can_pass, free_at, has_come, has_made, has_made_before};
ghost use Rattle.coll_verdict.specs.Checking.{has_seat, init_returns, is_at_beginning, is_at_end, is_come, is_joined, is_seat, joined_by};
ghost use Rattle.coll_verdict.specs.Checking.{joined_heard, joined_member, joined_told, made_as, member_has_begun, next_can_pass, peer_has_begun};
ghost use Rattle.coll_verdict.specs.Checking.{peer_is_come, sure_at};
ghost use Rattle.coll_verdict.specs.Stalls.{makes_in, makes_on};
ghost use Rattle.coll_verdict.specs.Code.{Advances, AreStood, IsAhead};

use crate::known::{KnownRequest, note, place_on};
use crate::library::{HeardRows, Library};
use crate::stood::Stood;
use crate::view::{GroupRequest, View};
use coll_kinds::member_of;
use coll_parser::{Command, Named};
use std::alloc::AllocError;

/// Lets a rank carry its next command out. Returns whether it could.
pub fn pass(
    library: &Library,
    ranks: &mut Vec<Stood>,
    groups: &[Vec<u8>],
    rank: u8,
) -> Result<bool, AllocError>
    ensures { IfOk result (λ has_passed. IsTrue has_passed → (h : History) → AreStood h ranks.old.items
        → rows_view groups.now ≡ h.groups → are_apart groups.now ≡ true → Advances library.now h ranks.old.items ranks.new.items) }
{
    if rank as usize >= ranks.len() {
        return Ok(false);
    }
    let view = View {
        library,
        ranks: ranks.as_slice(),
        groups,
    };
    if !can_go_on(&view, &ranks[rank as usize]) {
        return Ok(false);
    }
    let own = &mut ranks[rank as usize];
    let has_gone = go_on(own)?;
    Ok(has_gone)
}

/// Whether no rank has carried anything out.
pub fn are_at_beginnings(ranks: &[Stood]) -> bool
    ensures { result ≡ list_all is_at_beginning ranks.now }
{
    ranks.iter().all(|own| own.stand == 0)
}

/// Whether each rank has carried all its commands out.
pub fn are_at_ends(ranks: &[Stood]) -> bool
    ensures { result ≡ list_all is_at_end ranks.now }
{
    ranks.iter().all(|own| own.stand == own.commands.len())
}

/// Takes in a rank's next command. Returns whether there is one, and the request that it starts was made.
pub fn go_on(own: &mut Stood) -> Result<bool, AllocError>
    ensures { IfOk result (λ has_gone. IsTrue has_gone → IsAhead own.old own.new) }
{
    let Some(command) = own.commands.get(own.stand) else {
        return Ok(false);
    };
    if !note(&mut own.requests, command)? {
        return Ok(false);
    }
    if own.stand == usize::MAX {
        return Ok(false);
    }
    own.stand += 1;
    Ok(true)
}

/// Whether a rank can carry its next command out.
pub fn can_go_on(view: &View<'_>, own: &Stood) -> bool
    ensures { result ≡ next_can_pass view.now.library.now view.now.ranks.now view.now.groups.now own.now (slice_get own.now.commands.items own.now.stand) }
{
    match own.commands.get(own.stand) {
        Some(command) => can_pass(view, own, command),
        None => false,
    }
}

fn can_pass(view: &View<'_>, own: &Stood, command: &Command) -> bool
    ensures { result ≡ can_pass view.now.library.now view.now.ranks.now view.now.groups.now own.now command.now }
{
    match command {
        Command::Post { .. } | Command::Start { .. } => true,
        Command::Test(_) | Command::Free(_) => true,
        Command::Init { comm, .. } => init_returns(view, own, *comm),
        Command::Wait(q) => is_free(view, own, *q as usize),
        Command::WaitAny(named) => {
            all_are_free(view, own, named) || one_is_sure(view, own, named)
        }
        Command::WaitSome(named) => {
            all_are_free(view, own, named) || one_is_sure(view, own, named)
        }
        Command::WaitAll(named) => all_are_free(view, own, named),
    }
}

/// Whether an initialisation returns: with any library once all members have come to it.
fn init_returns(view: &View<'_>, own: &Stood, comm: u8) -> bool
    ensures { result ≡ init_returns view.now.library.now view.now.ranks.now view.now.groups.now own.now comm }
{
    match view.library {
        Library::Any => all_come(view.ranks, view.groups, own, comm),
        Library::Hears(_) => true,
    }
}

/// Whether each member has come to the request that the rank makes next on the communicator.
fn all_come(ranks: &[Stood], groups: &[Vec<u8>], own: &Stood, comm: u8) -> bool
    ensures { result ≡ all_come ranks.now groups.now own.now comm }
{
    match groups.get(comm as usize) {
        Some(group) => are_come(ranks, group, comm, place_on(&own.requests, comm)),
        None => false,
    }
}

fn are_come(ranks: &[Stood], group: &[u8], comm: u8, place: usize) -> bool
    ensures { result ≡ list_all (peer_is_come ranks.now comm place) group.now }
{
    group
        .iter()
        .all(|peer| peer_is_come(ranks, comm, place, *peer))
}

fn peer_is_come(ranks: &[Stood], comm: u8, place: usize, peer: u8) -> bool
    ensures { result ≡ peer_is_come ranks.now comm place peer }
{
    match ranks.get(peer as usize) {
        Some(peer) => is_come(peer, comm, place),
        None => false,
    }
}

/// Whether a rank has made its request at that place of a communicator, or makes it next.
fn is_come(peer: &Stood, comm: u8, place: usize) -> bool
    ensures { result ≡ is_come comm place (Some peer.now) }
{
    has_made(peer, comm, place) || (makes_next(peer, comm) && has_made_before(peer, comm, place))
}

/// Whether a rank has made its request before that place of a communicator, if there is one.
fn has_made_before(peer: &Stood, comm: u8, place: usize) -> bool
    ensures { result ≡ has_made_before comm place peer.now }
{
    place == 0 || has_made(peer, comm, place - 1)
}

/// Whether a rank has made its request at that place of a communicator.
fn has_made(peer: &Stood, comm: u8, place: usize) -> bool
    ensures { result ≡ has_made comm place peer.now }
{
    match peer.numbers.get(comm as usize) {
        Some(numbers) => one_is_at(numbers, &peer.requests, comm, place),
        None => false,
    }
}

fn one_is_at(numbers: &[usize], requests: &[KnownRequest], comm: u8, place: usize) -> bool
    ensures { result ≡ made_as comm place requests.now (slice_get numbers.now place) }
{
    match numbers.get(place) {
        Some(q) => is_at(requests, *q, comm, place),
        None => false,
    }
}

fn is_at(requests: &[KnownRequest], q: usize, comm: u8, place: usize) -> bool
    ensures { result ≡ made_as comm place requests.now (Some q) }
{
    match requests.get(q) {
        Some(request) => request.comm == comm && request.place == place,
        None => false,
    }
}

fn makes_next(peer: &Stood, comm: u8) -> bool
    ensures { result ≡ makes_in comm (slice_get peer.now.commands.items peer.now.stand) }
{
    match peer.commands.get(peer.stand) {
        Some(command) => makes_on(command, comm),
        None => false,
    }
}

/// Whether the command makes a request on that communicator.
fn makes_on(command: &Command, on: u8) -> bool
    ensures { result ≡ makes_on on command.now }
{
    match command {
        Command::Post { comm, .. } => *comm == on,
        Command::Init { comm, .. } => *comm == on,
        Command::Start { .. } | Command::Wait(_) | Command::Test(_) | Command::Free(_) => false,
        Command::WaitAny(_) | Command::WaitSome(_) | Command::WaitAll(_) => false,
    }
}

fn all_are_free(view: &View<'_>, own: &Stood, named: &Named) -> bool
    ensures { result ≡ list_all (free_at view.now.library.now view.now.ranks.now view.now.groups.now own.now) named.now }
{
    let mut holds = true;
    for index in 0..named.len() {
        holds = holds && is_free(view, own, named.get(index));
    }
    holds
}

fn one_is_sure(view: &View<'_>, own: &Stood, named: &Named) -> bool
    ensures { result ≡ list_any (sure_at view.now.library.now view.now.ranks.now view.now.groups.now own.now) named.now }
{
    let mut is_found = false;
    for index in 0..named.len() {
        is_found = is_found || is_sure(view, own, named.get(index));
    }
    is_found
}

/// Whether a request is inactive, or whom it awaits has come to its start.
fn is_free(view: &View<'_>, own: &Stood, q: usize) -> bool
    ensures { result ≡ free_at view.now.library.now view.now.ranks.now view.now.groups.now own.now q }
{
    match own.requests.get(q) {
        Some(request) => request.starts == 0
            || request.is_rested
            || is_joined(view, own.rank, request),
        None => false,
    }
}

/// Whether a request is active in every run, and whom it awaits has come to its start.
fn is_sure(view: &View<'_>, own: &Stood, q: usize) -> bool
    ensures { result ≡ sure_at view.now.library.now view.now.ranks.now view.now.groups.now own.now q }
{
    match own.requests.get(q) {
        Some(request) => request.starts > 0
            && !request.is_named
            && is_joined(view, own.rank, request),
        None => false,
    }
}

fn is_joined(view: &View<'_>, rank: u8, own: &KnownRequest) -> bool
    ensures { result ≡ is_joined view.now.library.now view.now.ranks.now view.now.groups.now rank own.now }
{
    let Some(group) = view.groups.get(own.comm as usize) else {
        return false;
    };
    let request = GroupRequest {
        ranks: view.ranks,
        group: group.as_slice(),
        own,
    };
    joined_by(view.library, &request, rank)
}

fn joined_by(library: &Library, request: &GroupRequest<'_>, rank: u8) -> bool
    ensures { result ≡ joined_by library.now request.now.ranks.now request.now.group.now rank request.now.own.now }
{
    match library {
        Library::Any => all_have_begun(request),
        Library::Hears(tables) => joined_member(tables, request, member_of(rank, request.group)),
    }
}

fn all_have_begun(request: &GroupRequest<'_>) -> bool
    ensures { result ≡ list_all (peer_has_begun request.now.ranks.now request.now.own.now) request.now.group.now }
{
    request
        .group
        .iter()
        .all(|peer| peer_has_begun(request, *peer))
}

fn joined_member(tables: &[HeardRows], request: &GroupRequest<'_>, member: Option<usize>) -> bool
    ensures { result ≡ joined_member tables.now request.now.ranks.now request.now.group.now request.now.own.now member }
{
    match member {
        Some(member) => joined_by_some(tables, request, member),
        None => false,
    }
}

fn joined_by_some(tables: &[HeardRows], request: &GroupRequest<'_>, member: usize) -> bool
    ensures { result ≡ list_any (joined_heard request.now.ranks.now request.now.group.now request.now.own.now member) tables.now }
{
    tables
        .iter()
        .any(|table| joined_heard(table, request, member))
}

/// Whether this is the collective's table, and whom the request of a member waits for by it has come to its start.
fn joined_heard(table: &HeardRows, request: &GroupRequest<'_>, member: usize) -> bool
    ensures { result ≡ joined_heard request.now.ranks.now request.now.group.now request.now.own.now member table.now }
{
    table.is_of(&request.own.sig, request.group.len()) && all_joined_told(table, request, member)
}

fn all_joined_told(table: &HeardRows, request: &GroupRequest<'_>, member: usize) -> bool
    ensures { result ≡ list_all (joined_told request.now.ranks.now request.now.group.now request.now.own.now member table.now)
        (range_with_len 0 (length request.now.group.now)) }
{
    (0..request.group.len()).all(|other| joined_told(table, request, member, other))
}

fn joined_told(table: &HeardRows, request: &GroupRequest<'_>, member: usize, other: usize) -> bool
    ensures { result ≡ joined_told request.now.ranks.now request.now.group.now request.now.own.now member table.now other }
{
    table.says_no(member, other) || member_has_begun(request, other)
}

fn member_has_begun(request: &GroupRequest<'_>, member: usize) -> bool
    ensures { result ≡ member_has_begun request.now.ranks.now request.now.own.now (slice_get request.now.group.now member) }
{
    match request.group.get(member) {
        Some(peer) => peer_has_begun(request, *peer),
        None => false,
    }
}

fn peer_has_begun(request: &GroupRequest<'_>, peer: u8) -> bool
    ensures { result ≡ peer_has_begun request.now.ranks.now request.now.own.now peer }
{
    match request.ranks.get(peer as usize) {
        Some(peer) => has_come(peer, request.own),
        None => false,
    }
}

/// Whether a rank has come to the start that the request is in.
fn has_come(peer: &Stood, own: &KnownRequest) -> bool
    ensures { result ≡ has_come own.now peer.now }
{
    match peer.numbers.get(own.comm as usize) {
        Some(numbers) => one_has_begun(numbers, &peer.requests, own),
        None => false,
    }
}

fn one_has_begun(numbers: &[usize], requests: &[KnownRequest], own: &KnownRequest) -> bool
    ensures { result ≡ begun_as own.now requests.now (slice_get numbers.now own.now.place) }
{
    match numbers.get(own.place) {
        Some(q) => has_begun(requests, *q, own),
        None => false,
    }
}

fn has_begun(requests: &[KnownRequest], q: usize, own: &KnownRequest) -> bool
    ensures { result ≡ begun_as own.now requests.now (Some q) }
{
    match requests.get(q) {
        Some(request) => request.comm == own.comm
            && request.place == own.place
            && own.starts <= request.starts,
        None => false,
    }
}

/// Whether no rank is a member of a communicator twice.
pub fn are_apart(groups: &[Vec<u8>]) -> bool
    ensures { result ≡ are_apart groups.now }
{
    (0..groups.len()).all(|comm| is_apart(groups, comm))
}

fn is_apart(groups: &[Vec<u8>], comm: usize) -> bool
    ensures { result ≡ apart_at groups.now comm }
{
    match groups.get(comm) {
        Some(group) => all_have_seats(group),
        None => false,
    }
}

fn all_have_seats(group: &[u8]) -> bool
    ensures { result ≡ list_all (has_seat group.now) (range_with_len 0 (length group.now)) }
{
    (0..group.len()).all(|i| has_seat(group, i))
}

fn has_seat(group: &[u8], i: usize) -> bool
    ensures { result ≡ has_seat group.now i }
{
    match group.get(i) {
        Some(peer) => is_seat(group, i, *peer),
        None => false,
    }
}

/// Whether no earlier member is that rank, which is the member of that number.
fn is_seat(group: &[u8], i: usize, peer: u8) -> bool
    ensures { result ≡ is_seat group.now i (Some peer) }
{
    match member_of(peer, group) {
        Some(member) => member == i,
        None => false,
    }
}
