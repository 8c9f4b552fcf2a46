//! Requests at one place of a communicator that don't belong together.

use crate::difference::{Difference, differences};
use crate::draft::Written;
use crate::member_requests::{MemberRequest, earliest, requests_by_place};
use coll_parser::{History, Start};
use coll_script::Cause;
use std::alloc::{AllocError, Global};

/// A request that a member has at a place.
#[derive(Clone, Copy, Debug)]
pub struct PlacedRequest {
    pub rank: u8,
    pub line: u32,
    /// Whether it has the signature of the earliest one.
    pub agrees: bool,
}

/// Requests at one place that have different signatures.
#[derive(Debug, Drop)]
pub struct Mismatch {
    pub comm: usize,
    pub place: usize,
    /// The earliest request at the place.
    pub first: PlacedRequest,
    /// The request whose line is the fault's.
    pub differs: PlacedRequest,
    pub fields: Vec<Difference>,
    /// All requests at the place, in member order.
    pub members: Vec<PlacedRequest>,
    /// The place and the line at which the rank that differs has the signature of the earliest, if it has it at another place.
    pub elsewhere: Option<(usize, u32)>,
}

/// A place that some members of a communicator lack.
#[derive(Debug, Drop)]
pub struct MissingPlace {
    pub comm: usize,
    pub place: usize,
    /// The earliest request at the place.
    pub first: PlacedRequest,
    /// The ranks that lack the place; each has all places before it.
    pub lacking: Vec<u8>,
}

/// A place whose members start it different numbers of times.
#[derive(Debug, Drop)]
pub struct MissingStart {
    pub comm: usize,
    pub place: usize,
    /// Each rank with the line that made its request, and the lines of its starts.
    pub members: Vec<(u8, u32, Vec<u32>)>,
}

/// What is wrong at a place.
#[derive(Debug, Drop)]
pub enum PlaceFault {
    Mismatch(Mismatch),
    MissingPlace(MissingPlace),
    MissingStart(MissingStart),
}

impl PlaceFault {
    /// The rule that is broken.
    pub fn cause(&self) -> Cause {
        match self {
            PlaceFault::Mismatch(_) => Cause::PlaceMismatch,
            PlaceFault::MissingPlace(_) => Cause::PlaceMissing,
            PlaceFault::MissingStart(_) => Cause::StartMissing,
        }
    }

    /// The line of the fault; None if it is the text's last one.
    pub fn line(&self) -> Option<u32> {
        match self {
            PlaceFault::Mismatch(mismatch) => Some(mismatch.differs.line),
            PlaceFault::MissingPlace(_) | PlaceFault::MissingStart(_) => None,
        }
    }
}

/// The faults of a text's requests: first those of signatures in the order of their lines, then those of places, then those of
/// starts. Only one is reported for each communicator, since later ones may follow from it.
pub(crate) fn place_faults(
    alloc: Global,
    written: &Written,
    history: &History,
) -> Result<Vec<PlaceFault>, AllocError> {
    let requests = history.requests(alloc)?;
    let mut mismatches = Vec::new(alloc);
    let mut places = Vec::new(alloc);
    let mut starts = Vec::new(alloc);
    for (comm, group) in history.groups().iter().enumerate() {
        let by_place = requests_by_place(alloc, comm, group, &requests)?;
        match fault_on(alloc, written, comm, group, &by_place)? {
            Some(PlaceFault::Mismatch(fault)) => push_by_line(&mut mismatches, fault)?,
            Some(PlaceFault::MissingPlace(fault)) => {
                places.push(PlaceFault::MissingPlace(fault))?;
            }
            Some(PlaceFault::MissingStart(fault)) => {
                starts.push(PlaceFault::MissingStart(fault))?;
            }
            None => {}
        }
    }
    let mut faults = Vec::new(alloc);
    for mismatch in mismatches {
        faults.push(PlaceFault::Mismatch(mismatch))?;
    }
    faults.extend(places)?;
    faults.extend(starts)?;
    Ok(faults)
}

/// The fault of a communicator's requests: of signatures, else of places, else of starts.
fn fault_on(
    alloc: Global,
    written: &Written,
    comm: usize,
    group: &[u8],
    places: &[Vec<MemberRequest<'_, '_>>],
) -> Result<Option<PlaceFault>, AllocError> {
    if let Some(fault) = mismatch_on(alloc, written, comm, places)? {
        return Ok(Some(PlaceFault::Mismatch(fault)));
    }
    if let Some(fault) = missing_place(alloc, written, comm, group, places)? {
        return Ok(Some(PlaceFault::MissingPlace(fault)));
    }
    match missing_start(alloc, written, comm, places)? {
        Some(fault) => Ok(Some(PlaceFault::MissingStart(fault))),
        None => Ok(None),
    }
}

/// Inserts a mismatch after those of earlier lines.
fn push_by_line(mismatches: &mut Vec<Mismatch>, mismatch: Mismatch) -> Result<(), AllocError> {
    let mut at: usize = 0;
    for other in mismatches.iter() {
        if other.differs.line < mismatch.differs.line {
            at = at.saturating_add(1);
        }
    }
    let at = at.min(mismatches.len());
    mismatches.insert(at, mismatch)?;
    Ok(())
}

fn placed(
    written: &Written,
    member: MemberRequest<'_, '_>,
    first: MemberRequest<'_, '_>,
) -> PlacedRequest {
    PlacedRequest {
        rank: member.rank,
        line: written.of(member.request.line),
        agrees: member.request.sig == first.request.sig,
    }
}

/// The request in the earliest line, of those that differ from the earliest request at their place.
fn first_to_differ<'r, 'h>(places: &[Vec<MemberRequest<'r, 'h>>]) -> Option<MemberRequest<'r, 'h>> {
    let mut least: Option<MemberRequest<'r, 'h>> = None;
    for requests in places {
        if let Some(first) = earliest(requests) {
            least = lesser(least, first, requests);
        }
    }
    least
}

/// The request in the earliest line: `least`, or one of this place that differs from the earliest request there.
fn lesser<'r, 'h>(
    least: Option<MemberRequest<'r, 'h>>,
    first: MemberRequest<'r, 'h>,
    requests: &[MemberRequest<'r, 'h>],
) -> Option<MemberRequest<'r, 'h>> {
    let mut least = least;
    for member in requests {
        let is_lesser = match least {
            Some(other) => member.request.line < other.request.line,
            None => true,
        };
        if is_lesser && member.request.sig != first.request.sig {
            least = Some(*member);
        }
    }
    least
}

/// The mismatch of a communicator, by the request in the earliest line that differs.
fn mismatch_on(
    alloc: Global,
    written: &Written,
    comm: usize,
    places: &[Vec<MemberRequest<'_, '_>>],
) -> Result<Option<Mismatch>, AllocError> {
    let Some(differs) = first_to_differ(places) else {
        return Ok(None);
    };
    let place = differs.request.place;
    let Some(requests) = places.get(place) else {
        return Ok(None);
    };
    let Some(first) = earliest(requests) else {
        return Ok(None);
    };
    let mut members = Vec::new(alloc);
    for member in requests {
        members.push(placed(written, *member, first))?;
    }
    Ok(Some(Mismatch {
        comm,
        place,
        first: placed(written, first, first),
        differs: placed(written, differs, first),
        fields: differences(alloc, &differs.request.sig, &first.request.sig)?,
        members,
        elsewhere: elsewhere(written, places, differs, first),
    }))
}

/// The place and the line at which the rank of `differs` has the signature of `first`.
fn elsewhere(
    written: &Written,
    places: &[Vec<MemberRequest<'_, '_>>],
    differs: MemberRequest<'_, '_>,
    first: MemberRequest<'_, '_>,
) -> Option<(usize, u32)> {
    for requests in places {
        for member in requests {
            if member.rank == differs.rank && member.request.sig == first.request.sig {
                return Some((member.request.place, written.of(member.request.line)));
            }
        }
    }
    None
}

/// The first place that some member lacks and another has.
fn missing_place(
    alloc: Global,
    written: &Written,
    comm: usize,
    group: &[u8],
    places: &[Vec<MemberRequest<'_, '_>>],
) -> Result<Option<MissingPlace>, AllocError> {
    for (place, requests) in places.iter().enumerate() {
        if let Some(first) = earliest(requests) {
            if requests.len() < group.len() {
                return Ok(Some(MissingPlace {
                    comm,
                    place,
                    first: placed(written, first, first),
                    lacking: lacking(alloc, group, requests)?,
                }));
            }
        }
    }
    Ok(None)
}

/// The ranks of the group that have none of these requests.
fn lacking(
    alloc: Global,
    group: &[u8],
    requests: &[MemberRequest<'_, '_>],
) -> Result<Vec<u8>, AllocError> {
    let mut lacking = Vec::new(alloc);
    for rank in group {
        if !requests.iter().any(|member| member.rank == *rank) {
            lacking.push(*rank)?;
        }
    }
    Ok(lacking)
}

/// The first place whose members start it different numbers of times.
fn missing_start(
    alloc: Global,
    written: &Written,
    comm: usize,
    places: &[Vec<MemberRequest<'_, '_>>],
) -> Result<Option<MissingStart>, AllocError> {
    for (place, requests) in places.iter().enumerate() {
        if !are_started_alike(requests) {
            return Ok(Some(MissingStart {
                comm,
                place,
                members: all_started(alloc, written, requests)?,
            }));
        }
    }
    Ok(None)
}

/// Each rank with the line of its request, and the lines of the request's starts.
fn all_started(
    alloc: Global,
    written: &Written,
    requests: &[MemberRequest<'_, '_>],
) -> Result<Vec<(u8, u32, Vec<u32>)>, AllocError> {
    let mut members = Vec::new(alloc);
    for member in requests {
        members.push((
            member.rank,
            written.of(member.request.line),
            started_in(alloc, written, &member.request.starts)?,
        ))?;
    }
    Ok(members)
}

fn started_in(
    alloc: Global,
    written: &Written,
    starts: &[Start<'_>],
) -> Result<Vec<u32>, AllocError> {
    let mut lines = Vec::new(alloc);
    for start in starts {
        lines.push(written.of(start.line))?;
    }
    Ok(lines)
}

fn are_started_alike(requests: &[MemberRequest<'_, '_>]) -> bool {
    match requests.first() {
        Some(first) => {
            let starts = first.request.starts.len();
            requests
                .iter()
                .all(|member| member.request.starts.len() == starts)
        }
        None => true,
    }
}
