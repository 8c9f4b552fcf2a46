//! A search over what the calls of a job complete whose effect depends on time. Nothing is proved of it: a run is believed only once it
//! was replayed.

use crate::pick::Pick;
use coll_diagnosis::{Act, Choice, Completes, Course, Job, RankSection, Reading};
use coll_kinds::MAX_RANKS;
use coll_script::Named;
use std::alloc::{AllocError, Global};

/// A search in depth. A pick is made by putting, in place of its call, a wait for what the call completes.
#[derive(Drop)]
pub(crate) struct Search<'s> {
    alloc: Global,
    /// The job with the picks of all branches made.
    job: Job<'s>,
    branches: Vec<Branch>,
}

/// A call whose effect depends on time, and what it may complete.
#[derive(Drop)]
struct Branch {
    rank: u8,
    at: usize,
    call: Completes,
    requests: Named,
    options: Vec<Vec<usize>>,
    /// The number of the option that is taken.
    taken: usize,
}

/// What the picks that are made mean for all runs with them.
#[derive(Clone, Copy, Debug)]
pub(crate) enum Judged {
    /// Each of them ends.
    End,
    /// Each of them deadlocks.
    Stall,
    /// There are none: some call can't complete what is picked.
    Unreal,
    /// It depends on further picks: for that call of that rank. None if no call is left.
    Open(Option<(u8, usize)>),
}

impl<'s> Search<'s> {
    /// The search before its first pick.
    pub(crate) fn new(alloc: Global, job: Job<'s>) -> Search<'s> {
        Search {
            alloc,
            job,
            branches: Vec::new(alloc),
        }
    }

    /// Judges the picks that are made: that runs end by the course that hinders the ranks most, and that they deadlock by the one
    /// that helps them most.
    pub(crate) fn judged(&self) -> Result<Judged, AllocError> {
        let hindered = Course::of(self.alloc, &self.job, Reading::All, Choice::Worst)?;
        if !hindered.is_stuck() {
            return Ok(Judged::End);
        }
        let helped = Course::of(self.alloc, &self.job, Reading::Needed, Choice::Best)?;
        if self.is_unreal(&helped.stands(self.alloc)?) {
            return Ok(Judged::Unreal);
        }
        if helped.is_stuck() {
            return Ok(Judged::Stall);
        }
        let stands = hindered.stands(self.alloc)?;
        Ok(Judged::Open(self.next_call(&stands)))
    }

    /// Whether a rank that stands so waits in a call for what is picked there, though the call may complete something else.
    fn is_unreal(&self, stands: &[usize]) -> bool {
        for branch in &self.branches {
            let stand = stands.get(usize::from(branch.rank)).copied();
            if branch.options.len() > 1 && stand == Some(branch.at) {
                return true;
            }
        }
        false
    }

    /// The call for which a pick is made next: the first open one of a rank, preferred if the rank stands there, or stands behind it.
    fn next_call(&self, stands: &[usize]) -> Option<(u8, usize)> {
        let mut next = None;
        let mut least: u8 = 3;
        for (rank, section) in (0..MAX_RANKS as u8).zip(&self.job.sections) {
            if let Some(at) = first_open(section) {
                let stand = stands.get(usize::from(rank)).copied().unwrap_or(0);
                let weight = weight(section, at, stand);
                if weight < least {
                    least = weight;
                    next = Some((rank, at));
                }
            }
        }
        next
    }

    /// Makes the first pick for that call.
    pub(crate) fn branch(&mut self, rank: u8, at: usize) -> Result<(), AllocError> {
        let Some(branch) = self.branch_at(rank, at)? else {
            return Ok(());
        };
        self.take(&branch)?;
        self.branches.push(branch)?;
        Ok(())
    }

    fn branch_at(&self, rank: u8, at: usize) -> Result<Option<Branch>, AllocError> {
        let Some(section) = self.job.sections.get(usize::from(rank)) else {
            return Ok(None);
        };
        let Some(step) = section.steps.get(at) else {
            return Ok(None);
        };
        let Act::Complete { call, requests } = &step.act else {
            return Ok(None);
        };
        let live = live_before(self.alloc, section, at)?;
        let among = live_among(self.alloc, requests, &live)?;
        Ok(Some(Branch {
            rank,
            at,
            call: *call,
            requests: requests.copied(self.alloc)?,
            options: options(self.alloc, *call, among)?,
            taken: 0,
        }))
    }

    /// Makes the next pick that wasn't made. Returns false if none is left.
    pub(crate) fn turn(&mut self) -> Result<bool, AllocError> {
        for _ in 0..self.branches.len() {
            let Some(mut branch) = self.branches.pop() else {
                break;
            };
            branch.taken = branch.taken.saturating_add(1);
            if self.take(&branch)? {
                self.branches.push(branch)?;
                return Ok(true);
            }
            self.reopen(branch);
        }
        Ok(false)
    }

    /// Makes the pick that is taken in a branch. Returns false if there is none.
    fn take(&mut self, branch: &Branch) -> Result<bool, AllocError> {
        let Some(completes) = branch.options.get(branch.taken) else {
            return Ok(false);
        };
        let act = if completes.is_empty() {
            Act::Still
        } else {
            Act::Complete {
                call: Completes::All,
                requests: named(self.alloc, completes)?,
            }
        };
        self.put(branch.rank, branch.at, act);
        Ok(true)
    }

    /// Puts the call of a branch in its place again.
    fn reopen(&mut self, branch: Branch) {
        let Branch {
            rank,
            at,
            call,
            requests,
            ..
        } = branch;
        self.put(rank, at, Act::Complete { call, requests });
    }

    fn put(&mut self, rank: u8, at: usize, act: Act) {
        if let Some(section) = self.job.sections.get_mut(usize::from(rank)) {
            if let Some(step) = section.steps.get_mut(at) {
                step.act = act;
            }
        }
    }

    /// The picks that are made.
    pub(crate) fn path(&self) -> Result<Vec<Pick>, AllocError> {
        let mut path = Vec::new(self.alloc);
        for branch in &self.branches {
            if let Some(completes) = branch.options.get(branch.taken) {
                path.push(Pick::of(self.alloc, branch.rank, branch.at, completes)?)?;
            }
        }
        Ok(path)
    }
}

/// How late a pick for a call is made whose rank stands there, behind it, or neither.
fn weight(section: &RankSection<'_>, at: usize, stand: usize) -> u8 {
    if at == stand {
        0
    } else if at < stand && stand < section.steps.len() {
        1
    } else {
        2
    }
}

/// The first call of a rank of which it depends on time what it completes, unless it is a test on whose answer no later call depends.
fn first_open(section: &RankSection<'_>) -> Option<usize> {
    for (at, step) in section.steps.iter().enumerate() {
        if let Act::Complete { call, requests } = &step.act {
            if call.is_open()
                && (*call != Completes::Test || is_chosen_later(section, at, requests))
            {
                return Some(at);
            }
        }
    }
    None
}

/// Whether a call after a test chooses among requests of which the tested one is one, before a call waits for that one.
fn is_chosen_later(section: &RankSection<'_>, at: usize, tested: &Named) -> bool {
    for (later, step) in section.steps.iter().enumerate() {
        if let Act::Complete { call, requests } = &step.act {
            if later > at && *call != Completes::Test && names_one(requests, tested) {
                return *call != Completes::All;
            }
        }
    }
    false
}

/// Whether some of these requests are among the others.
fn names_one(requests: &Named, others: &Named) -> bool {
    for index in 0..others.len() {
        if names(requests, others.get(index)) {
            return true;
        }
    }
    false
}

fn names(requests: &Named, request: usize) -> bool {
    for index in 0..requests.len() {
        if requests.get(index) == request {
            return true;
        }
    }
    false
}

/// Of each request of a rank, whether it may be active before that step.
fn live_before(
    alloc: Global,
    section: &RankSection<'_>,
    at: usize,
) -> Result<Vec<bool>, AllocError> {
    let mut live = vec![in alloc; false; section.requests.len()]?;
    for (index, step) in section.steps.iter().enumerate() {
        if index < at {
            note(&step.act, &mut live);
        }
    }
    Ok(live)
}

/// Notes which requests are active after an act, and which aren't.
fn note(act: &Act, live: &mut [bool]) {
    match act {
        Act::Give(request) => set(live, *request, true),
        Act::Complete {
            call: Completes::All,
            requests,
        } => note_completed(requests, live),
        Act::Complete { .. } | Act::Make(_) | Act::Still => {}
    }
}

fn note_completed(requests: &Named, live: &mut [bool]) {
    for index in 0..requests.len() {
        set(live, requests.get(index), false);
    }
}

fn set(live: &mut [bool], request: usize, is_live: bool) {
    if let Some(entry) = live.get_mut(request) {
        *entry = is_live;
    }
}

/// Those of these requests that may be active, each once.
fn live_among(alloc: Global, requests: &Named, live: &[bool]) -> Result<Vec<usize>, AllocError> {
    let mut among = Vec::new(alloc);
    for index in 0..requests.len() {
        let request = requests.get(index);
        if live.get(request).copied() == Some(true) && !among.contains(&request) {
            among.push(request)?;
        }
    }
    Ok(among)
}

/// What a call may complete that names these requests, which are active: one of them; a test none; a `waitsome` also all of them.
fn options(
    alloc: Global,
    call: Completes,
    among: Vec<usize>,
) -> Result<Vec<Vec<usize>>, AllocError> {
    let mut options = Vec::new(alloc);
    for request in &among {
        options.push(Vec::from_slice(alloc, &[*request])?)?;
    }
    if call == Completes::Test || among.is_empty() {
        options.push(Vec::new(alloc))?;
    }
    if call == Completes::Some && among.len() > 1 {
        options.push(among)?;
    }
    Ok(options)
}

/// These requests, as a command names them.
fn named(alloc: Global, requests: &[usize]) -> Result<Named, AllocError> {
    let mut numbers = Vec::new(alloc);
    for request in requests {
        numbers.push(u32::try_from(*request).unwrap_or(u32::MAX))?;
    }
    Ok(Named::these(numbers))
}
