use crate::circle::circle;
use crate::course::Course;
use crate::facts::Facts;
use crate::pending::all_pending;
use crate::stuck::Stuck;
use std::alloc::{AllocError, Global};

/// Which rank waits in which line for which, if no rank can go on.
#[derive(Debug, Drop)]
pub struct Standstill {
    /// The ranks that haven't come to their end, in rising order.
    pub stuck: Vec<Stuck>,
    /// Those among them that wait for themselves by way of others.
    pub circle: Vec<u8>,
    /// The others among them, which wait for those of the cycle.
    pub behind: Vec<u8>,
    /// The ranks that have come to their end.
    pub ended: Vec<u8>,
}

impl Standstill {
    ghost use Rattle.std.specs.Prelude.{◌≡◌};
    ghost use Rattle.std.specs.List.{list_any, list_all};
    ghost use Rattle.coll_kinds.specs.Groups.{is_among};
    ghost use Rattle.coll_diagnosis.specs.Standing.{behind_holds, circle_holds, end_holds, ends_hold, is_stuck, standstill_holds, stuck_holds, waits_for_one};

    /// Where the ranks of the course stand. If all have come to their ends, none is stuck.
    pub fn of(alloc: Global, course: &Course<'_>) -> Result<Standstill, AllocError> {
        let mut stuck = Vec::new(alloc);
        let mut ended = Vec::new(alloc);
        for rank in 0..course.job().ranks {
            match course.step_of(rank) {
                Some(step) => stuck.push(Stuck {
                    rank,
                    line: step.line,
                    requests: all_pending(alloc, course, rank, &step.act)?,
                })?,
                None => ended.push(rank)?,
            }
        }
        let circle = circle(alloc, &stuck)?;
        let behind = outside(alloc, &stuck, &circle)?;
        Ok(Standstill {
            stuck,
            circle,
            behind,
            ended,
        })
    }

    /// The entry of a rank, if it waits.
    pub fn stuck_rank(&self, rank: u8) -> Option<&Stuck> {
        self.stuck.iter().find(|stuck| stuck.rank == rank)
    }

    /// Whether all that is reported is true of the script, and some ranks wait for one another. The cost for each member that
    /// lacks is linear in the commands.
    pub(crate) fn holds(&self, facts: &Facts<'_>) -> bool
        ensures { result ≡ standstill_holds facts.now.issued.now facts.now.ranks.now facts.now.groups.now self.now }
    {
        self.all_hold(facts)
            && self.is_circle(&self.circle)
            && self.rest_holds()
            && self.ends_hold(facts.ranks.len())
    }

    /// Whether all that is reported of the ranks that wait is true.
    fn all_hold(&self, facts: &Facts<'_>) -> bool
        ensures { result ≡ list_all (stuck_holds facts.now.issued.now facts.now.ranks.now facts.now.groups.now) self.now.stuck.items }
    {
        self.stuck.iter().all(|stuck| stuck.holds(facts))
    }

    /// Whether there are ranks here, and each of them waits for one of them.
    pub(crate) fn is_circle(&self, ranks: &[u8]) -> bool
        ensures { result ≡ circle_holds ranks.now self.now.stuck.items }
    {
        !ranks.is_empty() && self.all_wait(ranks)
    }

    fn all_wait(&self, ranks: &[u8]) -> bool
        ensures { result ≡ list_all (λ rank. list_any (waits_for_one ranks.now rank) self.now.stuck.items) ranks.now }
    {
        ranks.iter().all(|rank| self.waits_for_one(*rank, ranks))
    }

    /// Whether that rank waits for one of these ranks.
    fn waits_for_one(&self, rank: u8, ranks: &[u8]) -> bool
        ensures { result ≡ list_any (waits_for_one ranks.now rank) self.now.stuck.items }
    {
        self.stuck
            .iter()
            .any(|stuck| stuck.rank == rank && stuck.waits_for_one(ranks))
    }

    /// Whether each rank that waits is in the cycle or in `behind`.
    fn rest_holds(&self) -> bool
        ensures { result ≡ list_all (behind_holds self.now.circle.items self.now.behind.items) self.now.stuck.items }
    {
        self.stuck
            .iter()
            .all(|stuck| stuck.is_behind(&self.circle, &self.behind))
    }

    /// Whether each of the first `ranks` ranks either waits or has ended.
    fn ends_hold(&self, ranks: usize) -> bool
        ensures { result ≡ ends_hold ranks self.now.stuck.items self.now.ended.items }
    {
        (0..ranks).all(|rank| self.end_holds(rank))
    }

    /// Whether the rank either waits or has ended.
    fn end_holds(&self, rank: usize) -> bool
        ensures { result ≡ end_holds self.now.stuck.items self.now.ended.items rank }
    {
        if self.is_stuck(rank) {
            !self.has_ended(rank)
        } else {
            self.has_ended(rank)
        }
    }

    fn is_stuck(&self, rank: usize) -> bool
        ensures { result ≡ is_stuck self.now.stuck.items rank }
    {
        self.stuck
            .iter()
            .any(|stuck| usize::from(stuck.rank) == rank)
    }

    fn has_ended(&self, rank: usize) -> bool
        ensures { result ≡ is_among rank self.now.ended.items }
    {
        self.ended.iter().any(|ended| usize::from(*ended) == rank)
    }
}

/// The stuck ranks outside the cycle.
fn outside(alloc: Global, stuck: &[Stuck], circle: &[u8]) -> Result<Vec<u8>, AllocError> {
    stuck
        .iter()
        .map(|stuck| stuck.rank)
        .filter(|rank| !circle.contains(rank))
        .collect(alloc)
}
