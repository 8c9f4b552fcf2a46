use crate::facts::{Facts, is_among};
use crate::pending::Pending;
use coll_parser::Request;

/// A rank that waits.
#[derive(Debug, Drop)]
pub struct Stuck {
    pub rank: u8,
    /// The line of the call in which it waits; None for the unwritten `waitall` at its end.
    pub line: Option<u32>,
    /// The requests that the call waits for.
    pub requests: Vec<Pending>,
}

impl Stuck {
    ghost use Rattle.std.specs.Prelude.{◌≡◌, slice_get};
    ghost use Rattle.std.specs.List.{list_any, list_all};
    ghost use Rattle.coll_diagnosis.specs.Standing.{stuck_holds, own_hold, pending_holds, lacks_one, behind_holds};

    pub(crate) fn holds(&self, facts: &Facts<'_>) -> bool
        ensures { result ≡ stuck_holds facts.now.issued.now facts.now.ranks.now facts.now.groups.now self.now }
    {
        !self.requests.is_empty() && self.own_hold(facts)
    }

    fn own_hold(&self, facts: &Facts<'_>) -> bool
        ensures { result ≡ own_hold facts.now.issued.now facts.now.ranks.now facts.now.groups.now self.now (slice_get facts.now.ranks.now self.now.rank) }
    {
        match facts.ranks.get(usize::from(self.rank)) {
            Some(own) => self.all_hold(facts, own),
            None => false,
        }
    }

    fn all_hold(&self, facts: &Facts<'_>, own: &[Request<'_>]) -> bool
        ensures { result ≡ list_all (pending_holds facts.now.issued.now facts.now.ranks.now facts.now.groups.now self.now own.now) self.now.requests.items }
    {
        self.requests
            .iter()
            .all(|pending| pending.holds(facts, self, own))
    }

    pub(crate) fn waits_for_one(&self, circle: &[u8]) -> bool
        ensures { result ≡ list_any (lacks_one circle.now) self.now.requests.items }
    {
        self.requests
            .iter()
            .any(|request| request.lacks_one(circle))
    }

    pub(crate) fn is_behind(&self, circle: &[u8], behind: &[u8]) -> bool
        ensures { result ≡ behind_holds circle.now behind.now self.now }
    {
        if is_among(self.rank, circle) {
            !is_among(self.rank, behind)
        } else {
            is_among(self.rank, behind)
        }
    }
}
