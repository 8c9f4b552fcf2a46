use crate::job::Job;
use crate::place::{Peer, Place};
use crate::step::{Act, Completes, Step};
use crate::waiting::{Reading, hears};
use coll_kinds::MAX_RANKS;
use coll_parser::Request;
use coll_script::Named;
use std::alloc::{AllocError, Global};

/// Which of several requests a call completes if that depends on time.
#[derive(Clone, Copy, Debug, PartialEq, Eq)]
pub enum Choice {
    /// The choice that hinders the ranks most: a rank goes on only if it does in every run. Where all members are waited for,
    /// an initialisation waits for them too.
    Worst,
    /// The choice that helps the ranks most: a rank stands still only if it does in every run.
    Best,
    /// The first named of the requests that are done, as in some run.
    First,
    /// The last named of the requests that are done, as in some run.
    Last,
}

/// How far the ranks of a job come if each goes on while it can.
#[derive(Debug, Drop)]
pub struct Course<'j> {
    job: &'j Job<'j>,
    reading: Reading<'j>,
    choice: Choice,
    stands: Vec<Stand>,
    /// The ranks that passed a step, in the order in which they did.
    order: Vec<u8>,
}

/// How far a rank has come.
#[derive(Debug, Drop)]
struct Stand {
    /// The number of steps that it has passed.
    at: usize,
    requests: Vec<RequestStanding>,
}

/// What a rank has done with a request.
#[derive(Clone, Copy, Debug, PartialEq, Eq)]
struct RequestStanding {
    starts: u32,
    activity: Activity,
}

#[derive(Clone, Copy, Debug, PartialEq, Eq)]
enum Activity {
    Inactive,
    Active,
    /// A call may have completed it, or may not.
    Unsure,
}

/// What a call finds about the requests that it names.
#[derive(Clone, Copy, Debug)]
struct Found {
    /// Some are active, or may be. The fields below speak of these.
    any_live: bool,
    /// Some of the active ones are done.
    any_done: bool,
    /// All of the active ones are done.
    all_done: bool,
    /// Some are surely active and are done.
    any_sure: bool,
}

impl<'j> Course<'j> {
    /// Lets all ranks go on until none can. The cost is at most quadratic in the steps, and linear for most texts.
    pub fn of(
        alloc: Global,
        job: &'j Job<'j>,
        reading: Reading<'j>,
        choice: Choice,
    ) -> Result<Course<'j>, AllocError> {
        let mut course = Course {
            job,
            reading,
            choice,
            stands: stands(alloc, job)?,
            order: Vec::new(alloc),
        };
        for _ in 0..=job.step_count() {
            if !course.advance_all()? {
                break;
            }
        }
        Ok(course)
    }

    /// The job whose ranks go on.
    pub fn job(&self) -> &'j Job<'j> {
        self.job
    }

    /// The step that a rank hasn't passed; None at its end.
    pub fn step_of(&self, rank: u8) -> Option<&'j Step> {
        let section = self.job.sections.get(usize::from(rank))?;
        let stand = self.stands.get(usize::from(rank))?;
        section.steps.get(stand.at)
    }

    /// How many steps each rank has passed.
    pub fn stands(&self, alloc: Global) -> Result<Vec<usize>, AllocError> {
        self.stands.iter().map(|stand| stand.at).collect(alloc)
    }

    /// The ranks in the order in which they passed their steps: each as often as it passed one.
    pub fn order(&self) -> &[u8] {
        &self.order
    }

    /// Whether some rank hasn't come to its end.
    pub fn is_stuck(&self) -> bool {
        self.job
            .sections
            .iter()
            .zip(&self.stands)
            .any(|(section, stand)| stand.at < section.steps.len())
    }

    /// The number of the start with which a request is active; None if it surely isn't active.
    pub fn start_of(&self, rank: u8, request: usize) -> Option<u32> {
        let standing = self.standing(rank, request)?;
        if standing.activity == Activity::Inactive {
            return None;
        }
        standing.starts.checked_sub(1)
    }

    /// Whether `member` waits at this place for `other` to join the start of that number, and `other`, whose request is `peer`,
    /// hasn't joined it yet.
    pub fn lacks(&self, place: &Place, start: u32, member: u8, other: u8, peer: Peer) -> bool {
        self.waits_for(place, member, other) && !self.has_joined(peer, start)
    }

    /// Whether the completion of `member` waits at this place for `other` to join.
    fn waits_for(&self, place: &Place, member: u8, other: u8) -> bool {
        match self.reading {
            Reading::Needed => place.needs(member, other),
            Reading::Heard(tables) => hears(tables, place.collective, member, other),
            Reading::All => true,
        }
    }

    /// Lets each rank go on while it can. Returns whether some rank passed a step.
    fn advance_all(&mut self) -> Result<bool, AllocError> {
        let mut has_moved = false;
        for rank in 0..self.job.ranks {
            has_moved = self.advance(rank)? || has_moved;
        }
        Ok(has_moved)
    }

    /// Lets a rank go on while it can. Returns whether it passed a step.
    fn advance(&mut self, rank: u8) -> Result<bool, AllocError> {
        let mut has_moved = false;
        for _ in 0..self.job.step_count() {
            if !self.pass(rank)? {
                break;
            }
            has_moved = true;
        }
        Ok(has_moved)
    }

    /// Lets a rank pass one step, if it can, and notes it. Returns whether it did.
    fn pass(&mut self, rank: u8) -> Result<bool, AllocError> {
        let Some(step) = self.step_of(rank) else {
            return Ok(false);
        };
        match &step.act {
            Act::Still => {}
            Act::Make(request) => {
                if !self.makes(rank, *request) {
                    return Ok(false);
                }
            }
            Act::Give(request) => self.give(rank, *request),
            Act::Complete { call, requests } => {
                if !self.ends(rank, *call, requests) {
                    return Ok(false);
                }
                self.complete(rank, *call, requests);
            }
        }
        self.step_over(rank);
        self.order.push(rank)?;
        Ok(true)
    }

    /// Whether an initialisation returns: MPI lets a library wait in it until all members have come to it (MPI 4.1, 6.13).
    fn makes(&self, rank: u8, request: usize) -> bool {
        if self.choice != Choice::Worst || !matches!(self.reading, Reading::All) {
            return true;
        }
        match self.made(rank, request) {
            Some((_, place)) => place.peers.iter().all(|peer| self.has_come(*peer)),
            None => true,
        }
    }

    /// Whether a rank has made its request, or makes it next.
    fn has_come(&self, peer: Peer) -> bool {
        let Some((made, _)) = self.made(peer.rank, peer.request) else {
            return false;
        };
        match self.step_of(peer.rank).and_then(|step| step.line) {
            Some(line) => made.line <= line,
            None => true,
        }
    }

    fn step_over(&mut self, rank: u8) {
        if let Some(stand) = self.stands.get_mut(usize::from(rank)) {
            stand.at = stand.at.saturating_add(1);
        }
    }

    fn give(&mut self, rank: u8, request: usize) {
        if let Some(standing) = self.standing_mut(rank, request) {
            standing.starts = standing.starts.saturating_add(1);
            standing.activity = Activity::Active;
        }
    }

    /// Whether the call of a rank returns.
    fn ends(&self, rank: u8, call: Completes, requests: &Named) -> bool {
        let found = self.found(rank, requests);
        match call {
            Completes::Test => true,
            Completes::All => found.all_done,
            Completes::Any | Completes::Some if !found.any_live => true,
            Completes::Any | Completes::Some => match self.choice {
                Choice::Worst => found.any_sure || found.all_done,
                Choice::Best | Choice::First | Choice::Last => found.any_done,
            },
        }
    }

    fn found(&self, rank: u8, requests: &Named) -> Found {
        let mut found = Found {
            any_live: false,
            any_done: false,
            all_done: true,
            any_sure: false,
        };
        for index in 0..requests.len() {
            found.note(self.look(rank, requests.get(index)));
        }
        found
    }

    /// Whether a request is active, and whether it is done.
    fn look(&self, rank: u8, request: usize) -> (Activity, bool) {
        match self.standing(rank, request) {
            Some(standing) if standing.activity != Activity::Inactive => (
                standing.activity,
                self.is_done(rank, request),
            ),
            _ => (Activity::Inactive, false),
        }
    }

    /// Notes what a call that returns has done to the requests that it names.
    fn complete(&mut self, rank: u8, call: Completes, requests: &Named) {
        let picked = self.picked(rank, requests);
        for index in 0..requests.len() {
            let request = requests.get(index);
            let activity = self.activity_behind(rank, call, request, picked);
            if let Some(standing) = self.standing_mut(rank, request) {
                standing.activity = activity;
            }
        }
    }

    /// How active a request is after a call that names it. `picked` is the one that the call completes if it completes one alone.
    fn activity_behind(
        &self,
        rank: u8,
        call: Completes,
        request: usize,
        picked: Option<usize>,
    ) -> Activity {
        let (activity, is_done) = self.look(rank, request);
        if activity == Activity::Inactive || call == Completes::All {
            return Activity::Inactive;
        }
        if self.choice == Choice::Worst || self.choice == Choice::Best {
            return Activity::Unsure;
        }
        let is_completed = match call {
            Completes::Any => picked == Some(request),
            _ => is_done,
        };
        if is_completed {
            Activity::Inactive
        } else {
            activity
        }
    }

    /// Of these requests, the one that a call for one of them completes.
    fn picked(&self, rank: u8, requests: &Named) -> Option<usize> {
        let mut picked = None;
        for index in 0..requests.len() {
            let request = requests.get(index);
            let (_, is_done) = self.look(rank, request);
            if is_done && (picked.is_none() || self.choice == Choice::Last) {
                picked = Some(request);
            }
        }
        picked
    }

    /// Whether an active request is done: all members for which its completion waits have joined.
    fn is_done(&self, rank: u8, request: usize) -> bool {
        let Some((made, place)) = self.made(rank, request) else {
            return false;
        };
        let Some(start) = self.start_of(rank, request) else {
            return false;
        };
        let mut members = (0..MAX_RANKS as u8).zip(&place.peers);
        !members.any(|(other, peer)| self.lacks(place, start, made.member, other, *peer))
    }

    /// A request of a rank, and its place.
    pub fn made(&self, rank: u8, request: usize) -> Option<(&'j Request<'j>, &'j Place)> {
        let section = self.job.sections.get(usize::from(rank))?;
        let made = section.requests.get(request)?;
        let place = self.job.place_of(made)?;
        Some((made, place))
    }

    /// Whether a rank has posted or started its request often enough to take part in the start of that number.
    fn has_joined(&self, peer: Peer, start: u32) -> bool {
        match self.standing(peer.rank, peer.request) {
            Some(standing) => standing.starts > start,
            None => false,
        }
    }

    fn standing(&self, rank: u8, request: usize) -> Option<RequestStanding> {
        let stand = self.stands.get(usize::from(rank))?;
        stand.requests.get(request).copied()
    }

    fn standing_mut(&mut self, rank: u8, request: usize) -> Option<&mut RequestStanding> {
        let stand = self.stands.get_mut(usize::from(rank))?;
        stand.requests.get_mut(request)
    }
}

impl Found {
    /// Takes in one more request: how active it is, and whether it is done.
    fn note(&mut self, (activity, is_done): (Activity, bool)) {
        if activity == Activity::Inactive {
            return;
        }
        self.any_live = true;
        self.any_done = self.any_done || is_done;
        self.all_done = self.all_done && is_done;
        self.any_sure = self.any_sure || (is_done && activity == Activity::Active);
    }
}

/// The state of all ranks at the beginning.
fn stands(alloc: Global, job: &Job) -> Result<Vec<Stand>, AllocError> {
    let mut stands = Vec::new(alloc);
    for section in &job.sections {
        let standing = RequestStanding {
            starts: 0,
            activity: Activity::Inactive,
        };
        stands.push(Stand {
            at: 0,
            requests: vec![in alloc; standing; section.requests.len()]?,
        })?;
    }
    Ok(stands)
}
