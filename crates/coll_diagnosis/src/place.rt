use coll_kinds::{MAX_RANKS, Signature};
use coll_parser::Request;
use std::alloc::Global;

/// A request of a job: the rank that made it, and its number there.
#[derive(Clone, Copy, Debug, PartialEq, Eq)]
pub struct Peer {
    pub rank: u8,
    pub request: usize,
}

/// The requests that the members of a communicator have at one place, which belong together.
#[derive(Debug, Drop)]
pub struct Place {
    pub comm: u8,
    /// The place's number in the communicator, from 0 on.
    pub number: usize,
    pub sig: Signature,
    /// The index of its collective in the job's.
    pub collective: usize,
    /// The members' requests, in the order of the members.
    pub peers: Vec<Peer>,
}

impl Place {
    /// The place of that collective, for the first request that has it.
    pub(crate) fn new(alloc: Global, request: &Request<'_>, collective: usize) -> Place {
        Place {
            comm: request.comm,
            number: request.place,
            sig: request.sig,
            collective,
            peers: Vec::new(alloc),
        }
    }

    /// Whether the outcome of `member` needs what `other` gives.
    pub fn needs(&self, member: u8, other: u8) -> bool {
        let n = self.peers.len().min(MAX_RANKS) as u8;
        self.sig.needs(n, member, other)
    }
}
