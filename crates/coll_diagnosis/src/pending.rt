use crate::course::Course;
use crate::facts::{Facts, awaits, ends_after, is_start_in, size_of};
use crate::lack::{Lack, lacks};
use crate::step::Act;
use crate::stuck::Stuck;
use coll_kinds::Mode;
use coll_parser::{IssuedCommand, Request};
use serde::Serialize;
use std::alloc::{AllocError, Global};

/// An active request that isn't done.
#[derive(Debug, Drop, Serialize)]
pub struct Pending {
    #[serde(rename = "req")]
    pub request: usize,
    /// The line of the post or start that it is active with.
    pub line: u32,
    pub comm: u8,
    pub place: usize,
    pub start: u32,
    /// The word of the collective.
    pub kind: &'static str,
    #[serde(rename = "persistent")]
    pub is_persistent: bool,
    /// The members for which it waits.
    pub lacks: Vec<Lack>,
}

impl Pending {
    ghost use Rattle.std.specs.Prelude.{◌≡◌, slice_get};
    ghost use Rattle.std.specs.List.{list_any, list_all};
    ghost use Rattle.coll_diagnosis.specs.Standing.{awaits_in, call_awaits, ends_after, fits, lack_holds, lacks_hold, lacks_one, mode_holds};
    ghost use Rattle.coll_diagnosis.specs.Standing.{pending_holds, request_holds, size_of};

    pub(crate) fn holds(&self, facts: &Facts<'_>, stuck: &Stuck, own: &[Request<'_>]) -> bool
        ensures { result ≡ pending_holds facts.now.issued.now facts.now.ranks.now facts.now.groups.now stuck.now own.now self.now }
    {
        self.is_awaited(facts.issued, stuck.rank, stuck.line) && self.request_holds(facts, own)
    }

    /// Whether the call in that line waits for the request, which was started before. No line is that of the unwritten `waitall`: then
    /// no line ends the request after its start.
    fn is_awaited(&self, issued: &[IssuedCommand], rank: u8, line: Option<u32>) -> bool
        ensures { result ≡ call_awaits issued.now rank line self.now }
    {
        match line {
            Some(line) => self.line < line && self.awaits(issued, rank, line),
            None => !ends_after(issued, rank, self.request, self.line),
        }
    }

    fn awaits(&self, issued: &[IssuedCommand], rank: u8, line: u32) -> bool
        ensures { result ≡ list_any (awaits_in rank line self.now.request) issued.now }
    {
        let request = self.request;
        issued.iter().any(|issued| issued.line == line
            && issued.rank == rank
            && awaits(request, &issued.command))
    }

    /// Whether the rank's own request of that number is as reported.
    fn request_holds(&self, facts: &Facts<'_>, own: &[Request<'_>]) -> bool
        ensures { result ≡ request_holds facts.now.issued.now facts.now.ranks.now facts.now.groups.now self.now (slice_get own.now self.now.request) }
    {
        match own.get(self.request) {
            Some(request) => self.fits(request) && self.lacks_hold(facts, request),
            None => false,
        }
    }

    /// Whether the request has the communicator, the place, the start with its line, the kind and the mode that are reported.
    fn fits(&self, request: &Request<'_>) -> bool
        ensures { result ≡ fits self.now request.now }
    {
        request.comm == self.comm
            && request.place == self.place
            && is_start_in(request, self.start, self.line)
            && self.kind.as_bytes() == request.sig.kind.word().as_bytes()
            && self.mode_holds(request.sig.mode)
    }

    /// Whether some members lack, and all that is reported of them is true.
    fn lacks_hold(&self, facts: &Facts<'_>, request: &Request<'_>) -> bool
        ensures { result ≡ lacks_hold facts.now.issued.now facts.now.ranks.now facts.now.groups.now self.now request.now }
    {
        !self.lacks.is_empty() && self.all_hold(facts, size_of(facts.groups, self.comm), request)
    }

    fn mode_holds(&self, mode: Mode) -> bool
        ensures { result ≡ mode_holds self.now mode }
    {
        match mode {
            Mode::Persistent => self.is_persistent,
            Mode::Once => !self.is_persistent,
        }
    }

    fn all_hold(&self, facts: &Facts<'_>, n: u8, own: &Request<'_>) -> bool
        ensures { result ≡ list_all (lack_holds facts.now.issued.now facts.now.ranks.now n own.now self.now) self.now.lacks.items }
    {
        self.lacks
            .iter()
            .all(|lack| lack.holds(facts, n, own, self))
    }

    pub(crate) fn lacks_one(&self, circle: &[u8]) -> bool
        ensures { result ≡ lacks_one circle.now self.now }
    {
        self.lacks.iter().any(|lack| lack.is_among(circle))
    }
}

/// The requests for which a call waits.
pub(crate) fn all_pending(
    alloc: Global,
    course: &Course<'_>,
    rank: u8,
    act: &Act,
) -> Result<Vec<Pending>, AllocError> {
    let mut pending = Vec::new(alloc);
    let Act::Complete { requests, .. } = act else {
        return Ok(pending);
    };
    for index in 0..requests.len() {
        let request = requests.get(index);
        if let Some(found) = pending_request(alloc, course, rank, request)? {
            pending.push(found)?;
        }
    }
    Ok(pending)
}

/// The request, if it is active and some member hasn't joined.
fn pending_request(
    alloc: Global,
    course: &Course<'_>,
    rank: u8,
    request: usize,
) -> Result<Option<Pending>, AllocError> {
    let Some((made, place)) = course.made(rank, request) else {
        return Ok(None);
    };
    let Some(start) = course.start_of(rank, request) else {
        return Ok(None);
    };
    let Some(started) = made.starts.get(start as usize) else {
        return Ok(None);
    };
    let lacks = lacks(alloc, course, place, made, start)?;
    if lacks.is_empty() {
        return Ok(None);
    }
    Ok(Some(Pending {
        request,
        line: started.line,
        comm: place.comm,
        place: place.number,
        start,
        kind: place.sig.kind.word(),
        is_persistent: place.sig.mode == Mode::Persistent,
        lacks,
    }))
}
