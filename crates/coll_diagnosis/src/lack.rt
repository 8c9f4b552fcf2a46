use crate::course::Course;
use crate::facts::{Facts, is_start_in, waits};
use crate::pending::Pending;
use crate::place::{Peer, Place};
use coll_kinds::MAX_RANKS;
use coll_parser::{IssuedCommand, Request};
use serde::Serialize;
use std::alloc::{AllocError, Global};

/// A member that hasn't joined.
#[derive(Clone, Copy, Debug, Serialize)]
pub struct Lack {
    pub rank: u8,
    pub member: u8,
    /// Its request at the place.
    #[serde(skip)]
    pub request: usize,
    /// Whether the outcome of the request needs what the member gives.
    #[serde(rename = "needed")]
    pub is_needed: bool,
    /// The line in which it would join.
    pub line: u32,
    /// The line of the call in which the member waits.
    pub behind: u32,
}

impl Lack {
    ghost use Rattle.std.specs.Prelude.{◌≡◌, ◌==◌, slice_get};
    ghost use Rattle.std.specs.List.{list_any};
    ghost use Rattle.coll_diagnosis.specs.Standing.{lack_holds, need_holds, peer_holds, theirs_hold, waits_in};

    pub(crate) fn holds(
        &self,
        facts: &Facts<'_>,
        n: u8,
        own: &Request<'_>,
        pending: &Pending,
    ) -> bool
        ensures { result ≡ lack_holds facts.now.issued.now facts.now.ranks.now n own.now pending.now self.now }
    {
        self.behind < self.line
            && self.waits(facts.issued)
            && self.theirs_hold(facts, pending)
            && self.need_holds(own, n)
    }

    fn waits(&self, issued: &[IssuedCommand]) -> bool
        ensures { result ≡ list_any (waits_in self.now.rank self.now.behind) issued.now }
    {
        let (rank, line) = (self.rank, self.behind);
        issued.iter().any(|issued| issued.line == line
            && issued.rank == rank
            && waits(&issued.command))
    }

    /// Whether the lacking rank has a request at the place of the pending one, and starts it in the line that is reported.
    fn theirs_hold(&self, facts: &Facts<'_>, pending: &Pending) -> bool
        ensures { result ≡ theirs_hold pending.now self.now (slice_get facts.now.ranks.now self.now.rank) }
    {
        match facts.ranks.get(usize::from(self.rank)) {
            Some(theirs) => self.peer_holds(pending, theirs),
            None => false,
        }
    }

    fn peer_holds(&self, pending: &Pending, theirs: &[Request<'_>]) -> bool
        ensures { result ≡ peer_holds pending.now self.now (slice_get theirs.now self.now.request) }
    {
        match theirs.get(self.request) {
            Some(request) => {
                request.comm == pending.comm
                    && request.place == pending.place
                    && request.member == self.member
                    && is_start_in(request, pending.start, self.line)
            }
            None => false,
        }
    }

    fn need_holds(&self, own: &Request<'_>, n: u8) -> bool
        ensures { result ≡ need_holds own.now n self.now }
    {
        if own.sig.needs(n, own.member, self.member) {
            self.is_needed
        } else {
            !self.is_needed
        }
    }

    pub(crate) fn is_among(&self, circle: &[u8]) -> bool
        ensures { result ≡ list_any (λ rank. rank == self.now.rank) circle.now }
    {
        let lacking = self.rank;
        circle.iter().any(|rank| *rank == lacking)
    }
}

/// The members at a place that haven't joined the start of that number, of those for which this member waits.
pub(crate) fn lacks(
    alloc: Global,
    course: &Course<'_>,
    place: &Place,
    made: &Request<'_>,
    start: u32,
) -> Result<Vec<Lack>, AllocError> {
    let mut lacks = Vec::new(alloc);
    for (member, peer) in (0..MAX_RANKS as u8).zip(&place.peers) {
        if course.lacks(place, start, made.member, member, *peer) {
            let is_needed = place.needs(made.member, member);
            if let Some(lack) = absence(course, *peer, start, member, is_needed) {
                lacks.push(lack)?;
            }
        }
    }
    Ok(lacks)
}

/// The line in which a member that hasn't joined would join, and the line in which it waits.
fn absence(
    course: &Course<'_>,
    peer: Peer,
    start: u32,
    member: u8,
    is_needed: bool,
) -> Option<Lack> {
    let (theirs, _) = course.made(peer.rank, peer.request)?;
    let line = theirs.starts.get(start as usize)?.line;
    let behind = course.step_of(peer.rank)?.line?;
    Some(Lack {
        rank: peer.rank,
        member,
        request: peer.request,
        is_needed,
        line,
        behind,
    })
}
