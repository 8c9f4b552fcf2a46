//! The requests of a trace.

ghost use Rattle.std.specs.Prelude.{◌≡◌, ◌==◌, ◌++◌, [], OnOk, ◌<◌, ◌≤◌, ◌-◌, List, map, filter_map, length, slice_index_or, Some, None, IfOk, IfSome};
ghost use Rattle.std.specs.List.{cons_option, position, range_with_len};
ghost use Rattle.std.specs.Arc.{arc_value};
ghost use Rattle.coll_report.specs.Views.{groups_seen, seen, trace_seen};
ghost use Rattle.coll_views.specs.Requests.{all_requests, made_by, member_at, named, named_at, named_in, names, own_named, request_on, requests_by, ticket_of};

use crate::work::{MessageCounts, work_of};
use coll_kinds::{Signature, Ticket};
use coll_plans::plan;
use coll_report::Entry;
use coll_script::ReportFault;
use std::alloc::{AllocError, Global};
use std::marker::Model;

/// What a trace says about a request.
#[derive(Clone, Copy, Debug)]
pub struct TracedRequest {
    pub ticket: Ticket,
    pub comm: u32,
    /// Its index in its member's posting list on the communicator.
    pub place: u32,
    pub sig: Signature,
    /// The number of the communicator's members.
    pub members: u8,
    /// The rank's member number in it.
    pub member: u8,
    /// What the member sends and combines by each start of it.
    pub work: MessageCounts,
}

/// A request with its number among those of its rank, from 0.
#[derive(Clone, Copy, Debug)]
pub struct NumberedRequest {
    pub number: usize,
    pub request: TracedRequest,
}

/// The requests that each rank made, in their order.
#[derive(Debug, Drop)]
pub struct RankRequests {
    ranks: Vec<Vec<TracedRequest>>,
}

impl Model for RankRequests {
    ghost use Rattle.std.specs.Prelude.{List, map};
    ghost use Rattle.coll_views.specs.declared.request.TracedRequest.{TracedRequest};

    ghost Value = { List (List TracedRequest) };

    ghost view = { λ r. map (λ own. own.items) r.ranks.items };
}

impl RankRequests {
    /// The requests of a trace, of this number of ranks on these communicators. Linear in the trace for each rank, and in the
    /// schedules of the requests.
    ///
    /// # Errors
    ///
    /// [`ReportFault::Torn`] if a request's communicator doesn't exist, doesn't have its rank, or has no plan for its signature;
    /// [`ReportFault::NoMemory`] if memory was refused.
    pub fn of(
        alloc: Global,
        ranks: u8,
        groups: &[Vec<u8>],
        trace: &[Entry],
    ) -> Result<RankRequests, ReportFault>
        ensures { IfOk result (λ requests. requests ≡ all_requests ranks (groups_seen groups.now) (trace_seen trace.now)) }
    {
        let mut all = Vec::new(alloc);
        for rank in 0..ranks {
            let own = requests_by(alloc, groups, rank, trace)?;
            all.push(own)?;
        }
        Ok(RankRequests { ranks: all })
    }

    /// The requests of a rank; empty if there is no such rank.
    pub fn by(&self, rank: u8) -> &[TracedRequest]
        ensures { result.now ≡ slice_index_or self.now rank [] }
    {
        match self.ranks.get(usize::from(rank)) {
            Some(own) => own.as_slice(),
            None => &[],
        }
    }

    /// The request that an entry makes or names.
    ///
    /// # Errors
    ///
    /// [`ReportFault::Torn`] if its rank didn't make it.
    pub fn named_by(&self, entry: &Entry) -> Result<NumberedRequest, ReportFault>
        ensures { IfOk result (λ found. named self.now (seen entry.now) ≡ Some found) }
    {
        match find(&self.ranks, entry.rank(), ticket_of(entry)) {
            Some(found) => Ok(found),
            None => Err(ReportFault::Torn),
        }
    }
}

/// The request that a rank made with the ticket, if it made one.
fn find(ranks: &[Vec<TracedRequest>], rank: u8, ticket: Ticket) -> Option<NumberedRequest>
    ensures { result ≡ named_in (map (λ own. own.items) ranks.now) rank ticket }
{
    find_own(ranks.get(usize::from(rank))?, ticket)
}

/// The request among these that was made with the ticket, if one was.
fn find_own(own: &[TracedRequest], ticket: Ticket) -> Option<NumberedRequest>
    ensures { result ≡ own_named ticket own.now }
{
    let number = number_of(own, ticket)?;
    named_at(own, number)
}

/// The request of that number.
fn named_at(own: &[TracedRequest], number: usize) -> Option<NumberedRequest>
    ensures { result ≡ named_at own.now number }
{
    match own.get(number) {
        Some(request) => Some(NumberedRequest {
            number,
            request: *request,
        }),
        None => None,
    }
}

/// The number of the request that was made with the ticket, if one was.
fn number_of(own: &[TracedRequest], ticket: Ticket) -> Option<usize>
    ensures { result ≡ position (names ticket) own.now }
{
    own.iter().position(|request| has_ticket(request, ticket))
}

fn has_ticket(request: &TracedRequest, ticket: Ticket) -> bool
    ensures { result ≡ names ticket request.now }
{
    request.ticket.slot == ticket.slot && request.ticket.generation == ticket.generation
}

/// The ticket of the request that an entry makes or names.
fn ticket_of(entry: &Entry) -> Ticket
    ensures { result ≡ ticket_of (seen entry.now) }
{
    match entry {
        Entry::Posted { ticket, .. } => *ticket,
        Entry::Inited { ticket, .. } => *ticket,
        Entry::Started { ticket, .. } => *ticket,
        Entry::Retired { ticket, .. } => *ticket,
        Entry::Freed { ticket, .. } => *ticket,
    }
}

/// The requests that a rank made, in their order.
fn requests_by(
    alloc: Global,
    groups: &[Vec<u8>],
    rank: u8,
    trace: &[Entry],
) -> Result<Vec<TracedRequest>, ReportFault>
    ensures { IfOk result (λ own. own.items ≡ requests_by (groups_seen groups.now) (trace_seen trace.now) rank) }
{
    let mut own = Vec::new(alloc);
    for entry in trace {
        let made = made_by(alloc, groups, rank, entry)?;
        push_made(made, &mut own)?;
    }
    Ok(own)
}

/// Appends a request, if there is one.
fn push_made(made: Option<TracedRequest>, own: &mut Vec<TracedRequest>) -> Result<(), AllocError>
    ensures { OnOk result (own.new.items ≡ own.old.items ++ cons_option made []) }
{
    match made {
        Some(request) => {
            own.push(request)?;
            Ok(())
        }
        None => Ok(()),
    }
}

/// The request that the rank makes by the entry, if it makes one.
fn made_by(
    alloc: Global,
    groups: &[Vec<u8>],
    by: u8,
    entry: &Entry,
) -> Result<Option<TracedRequest>, ReportFault>
    ensures { IfOk result (λ made. made ≡ made_by (groups_seen groups.now) by (seen entry.now)) }
{
    match entry {
        Entry::Posted {
            rank,
            ticket,
            comm,
            place,
            sig,
            ..
        } if *rank == by => {
            let request = request_on(alloc, groups, by, *ticket, *comm, *place, **sig)?;
            Ok(Some(request))
        }
        Entry::Inited {
            rank,
            ticket,
            comm,
            place,
            sig,
        } if *rank == by => {
            let request = request_on(alloc, groups, by, *ticket, *comm, *place, **sig)?;
            Ok(Some(request))
        }
        Entry::Posted { .. } => Ok(None),
        Entry::Inited { .. } => Ok(None),
        Entry::Started { .. } => Ok(None),
        Entry::Retired { .. } => Ok(None),
        Entry::Freed { .. } => Ok(None),
    }
}

/// A request of the rank on a communicator, with the work of the rank's plan.
fn request_on(
    alloc: Global,
    groups: &[Vec<u8>],
    rank: u8,
    ticket: Ticket,
    comm: u32,
    place: u32,
    sig: Signature,
) -> Result<TracedRequest, ReportFault>
    ensures { IfOk result (λ request. request ≡ request_on (groups_seen groups.now) rank ticket comm place sig) }
{
    let Some(group) = groups.get(comm as usize) else {
        return Err(ReportFault::Torn);
    };
    let (members, member) = member_in(group, rank)?;
    let plan = plan(alloc, sig, members, member)?;
    let work = work_of(alloc, plan.schedule().rounds())?;
    Ok(TracedRequest {
        ticket,
        comm,
        place,
        sig,
        members,
        member,
        work,
    })
}

/// The number of a group's members, and the rank's member number among them.
fn member_in(group: &[u8], rank: u8) -> Result<(u8, u8), ReportFault>
    ensures members { IfOk result (λ found. found.0 ≡ length group.now) }
    ensures member { IfOk result (λ found. found.1 ≡ member_at group.now rank) }
    ensures low { IfOk result (λ found. found.1 < found.0) }
    ensures few { IfOk result (λ found. found.0 ≤ 64) }
{
    let Some(member) = place_in(group, rank) else {
        return Err(ReportFault::Torn);
    };
    let members = group.len();
    if members > 64 || member >= members {
        return Err(ReportFault::Torn);
    }
    Ok((members as u8, member as u8))
}

/// The index of the rank in a group.
fn place_in(group: &[u8], rank: u8) -> Option<usize>
    ensures { result ≡ position (λ one. one == rank) group.now }
{
    group.iter().position(|one| *one == rank)
}
