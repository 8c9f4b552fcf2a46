//! The requests at the places of a communicator.

use coll_parser::Request;
use std::alloc::{AllocError, Global};

/// A request that a member of a communicator makes, with the member's rank in the job.
#[derive(Clone, Copy)]
pub(crate) struct MemberRequest<'r, 'h> {
    pub rank: u8,
    pub request: &'r Request<'h>,
}

/// The requests at each place of a communicator of this group, in member order; `requests` are those of each rank. Linear in
/// those of the members.
pub(crate) fn requests_by_place<'r, 'h>(
    alloc: Global,
    comm: usize,
    group: &[u8],
    requests: &'r [Vec<Request<'h>>],
) -> Result<Vec<Vec<MemberRequest<'r, 'h>>>, AllocError> {
    let mut places = Vec::new(alloc);
    for rank in group {
        if let Some(requests) = requests.get(usize::from(*rank)) {
            lay(alloc, comm, *rank, requests, &mut places)?;
        }
    }
    Ok(places)
}

/// Adds a rank's requests on the communicator to their places.
fn lay<'r, 'h>(
    alloc: Global,
    comm: usize,
    rank: u8,
    requests: &'r [Request<'h>],
    places: &mut Vec<Vec<MemberRequest<'r, 'h>>>,
) -> Result<(), AllocError> {
    for request in requests {
        if usize::from(request.comm) == comm {
            if request.place >= places.len() {
                places.push(Vec::new(alloc))?;
            }
            if let Some(here) = places.get_mut(request.place) {
                here.push(MemberRequest { rank, request })?;
            }
        }
    }
    Ok(())
}

/// The request in the earliest line.
pub(crate) fn earliest<'r, 'h>(
    requests: &[MemberRequest<'r, 'h>],
) -> Option<MemberRequest<'r, 'h>> {
    let mut earliest: Option<MemberRequest<'r, 'h>> = None;
    for member in requests {
        let is_earlier = match earliest {
            Some(first) => member.request.line < first.request.line,
            None => true,
        };
        if is_earlier {
            earliest = Some(*member);
        }
    }
    earliest
}
