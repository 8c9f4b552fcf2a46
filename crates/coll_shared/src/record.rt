//! A port's publication record.

ghost use Rattle.std.specs.Prelude.{◌≡◌, ◌+◌, IfNone, IfSome, Ok};
ghost use Rattle.std.specs.Bool.{OnFalse, OnTrue};
ghost use Rattle.coll_shared.specs.Publications.{IsAwake, IsExpected, IsUnanswered};

use crate::publication::{Content, Expected, Publication};
use coll_kinds::Ticket;
use coll_spin::WaitHistory;
use coll_traced::{Completed, Entries, Receipt, Tally, TracedCore};
use crossbeam_utils::CachePadded;
use std::sync::atomic::{AtomicBool, AtomicU64, Ordering};
use std::sync::{Mutex, MutexGuard, Wait};

const EMPTY: u64 = 0;

const PUBLISHED: u64 = 1;

const REGISTERED: u64 = 2;

const ANSWERED: u64 = 3;

/// Registered, and the parked port is summoned: it is to take the lock and go on.
const CALLED: u64 = 4;

/// Where a port publishes its call. The word says who owns the slot: the port while it is Empty or
/// Answered, else the combiner. A parked port sleeps on the word.
#[derive(Drop)]
pub(crate) struct PublicationRecord<L: Entries> {
    /// A waiting port spins on the word. The word has cache lines of its own, because the combiner
    /// works on the slot meanwhile.
    word: CachePadded<AtomicU64>,
    /// Whether the port served its last call itself. Only the port uses it.
    leads: AtomicBool,
    history: WaitHistory,
    /// The slot has cache lines of its own too, so that the port keeps the lines before it while
    /// the combiner writes here.
    slot: CachePadded<Mutex<Option<Publication<L>>>>,
}

/// Takes what the port wants out of the slot, or puts the contents back.
fn concluded<L: Entries, T>(
    mut slot: MutexGuard<'_, Option<Publication<L>>>,
    found: Result<T, Publication<L>>,
) -> Option<T>
    ensures { IfSome result (λ wanted. found ≡ Ok wanted) }
{
    match found {
        Ok(wanted) => Some(wanted),
        Err(other) => {
            *slot = Some(other);
            None
        }
    }
}

impl<L: Entries> PublicationRecord<L> {
    pub(crate) fn new() -> Self {
        PublicationRecord {
            word: CachePadded::new(AtomicU64::new(EMPTY)),
            leads: AtomicBool::new(true),
            history: WaitHistory::new(),
            slot: CachePadded::new(Mutex::new(None)),
        }
    }

    /// Tells whether the port served its last call itself. If so, the engine lies in its
    /// processor's caches, and the port tries for the lock before it publishes the next call.
    pub(crate) fn leads(&self) -> bool {
        self.leads.load(Ordering::Relaxed)
    }

    /// Returns what the port has found in its waits.
    pub(crate) fn history(&self) -> &WaitHistory {
        &self.history
    }

    /// Notes whether the port served its call itself. Writes nothing if nothing changes, because
    /// each store of an atomic waits for all stores before it.
    pub(crate) fn set_leads(&self, leads: bool) {
        if self.leads() != leads {
            self.leads.store(leads, Ordering::Relaxed);
        }
    }

    pub(crate) fn is_published(&self) -> bool {
        self.word.load(Ordering::SeqCst) == PUBLISHED
    }

    pub(crate) fn is_answered(&self) -> bool {
        self.word.load(Ordering::SeqCst) == ANSWERED
    }

    /// Publishes what the port wants, with its tally.
    #[inline(always)]
    pub(crate) fn publish<R: Wait>(&self, rt: &R, content: Content<L>, tally: Tally<L>) {
        *self.slot.lock(rt) = Some(Publication { content, tally });
        self.word.store(PUBLISHED, Ordering::SeqCst);
    }

    /// Notes that the port, which holds the lock, has registered a wait for requests of a list.
    pub(crate) fn register<R: Wait>(&self, _rt: &R) {
        self.word.store(REGISTERED, Ordering::SeqCst);
    }

    /// Summons the parked port: it is to take the lock, and goes on waiting.
    pub(crate) fn call(&self) {
        self.word.store(CALLED, Ordering::SeqCst);
    }

    /// Notes that the port has taken the lock, as it was summoned to.
    pub(crate) fn heed(&self) {
        if self.word.load(Ordering::SeqCst) == CALLED {
            self.word.store(REGISTERED, Ordering::SeqCst);
        }
    }

    /// Lets the combiner carry out what was published here, or register the port. Returns whether
    /// there is an answer now; then the port is awake.
    #[inline(always)]
    pub(crate) fn serve(&self, traced: &mut TracedCore<L>, rank: u8) -> bool
        ensures awake { OnTrue result (IsAwake rank traced.new.waits) }
        ensures pending { OnFalse result (IsUnanswered traced.new.core rank traced.old.waits traced.new.waits) }
    {
        let Some(mut slot) = self.slot.try_lock() else {
            return false;
        };
        let Some(publication) = &mut *slot else {
            return false;
        };
        let is_over = publication.serve(traced, rank);
        drop(slot);
        let word = if is_over { ANSWERED } else { REGISTERED };
        self.word.store(word, Ordering::SeqCst);
        is_over
    }

    /// Lets the combiner answer a registered port. The answer is the completion, if the port waits
    /// for exactly one request and that is Done; else the port is to check itself. Returns whether
    /// there is an answer now; then the port is awake.
    pub(crate) fn answer(&self, traced: &mut TracedCore<L>, rank: u8) -> bool
        ensures awake { OnTrue result (IsAwake rank traced.new.waits) }
        ensures pending { OnFalse result (traced.new.waits ≡ traced.old.waits) }
    {
        let Some(mut slot) = self.slot.try_lock() else {
            return false;
        };
        if let Some(publication) = &mut *slot {
            publication.answer(traced, rank);
        }
        drop(slot);
        traced.wake(rank);
        self.word.store(ANSWERED, Ordering::SeqCst);
        true
    }

    /// Takes the answer to the port's post or start, with its tally, if it lies here. Anything else
    /// stays.
    pub(crate) fn take_made<R: Wait>(
        &self,
        rt: &R,
        rank: u8,
        expected: Expected<'_>,
        before: u64,
    ) -> Option<(Tally<L>, Option<(Ticket, Receipt)>)>
        ensures counted { IfSome result (λ r. IfSome r.1 (λ made. r.0 ≡ before + 1)) }
        ensures expected { IfSome result (λ r. IfSome r.1 (λ made. IsExpected rank expected.entry made.0 made.1)) }
        ensures look { IfSome result (λ r. IfNone r.1 (r.0 ≡ before)) }
    {
        if !self.is_answered() {
            return None;
        }
        let mut slot = self.slot.lock(rt);
        let found = slot.take()?.made(rank, expected, before);
        concluded(slot, found)
    }

    /// Takes the answer to a wait for one request in the same way.
    pub(crate) fn take_completed<R: Wait>(
        &self,
        rt: &R,
        rank: u8,
        request: Ticket,
        before: u64,
    ) -> Option<(Tally<L>, Option<Completed<L>>)>
        ensures counted { IfSome result (λ r. IfSome r.1 (λ completed. r.0 ≡ before + 1)) }
        ensures completed { IfSome result (λ r. IfSome r.1 (λ completed. (completed.rank ≡ rank) × (completed.ticket ≡ request) × (completed.made ≡ before))) }
        ensures look { IfSome result (λ r. IfNone r.1 (r.0 ≡ before)) }
    {
        if !self.is_answered() {
            return None;
        }
        let mut slot = self.slot.lock(rt);
        let found = slot.take()?.completed(rank, request, before);
        concluded(slot, found)
    }

    /// Gives the port's wait up, and takes its tally back.
    pub(crate) fn take_back(&self, before: u64) -> Option<Tally<L>>
        ensures { IfSome result (λ tally. tally ≡ before) }
    {
        let mut slot = self.slot.try_lock()?;
        let found = slot.take()?.taken_back(before);
        let tally = concluded(slot, found)?;
        self.word.store(EMPTY, Ordering::SeqCst);
        Some(tally)
    }

    /// Lets the port, which waited for a list, go on.
    pub(crate) fn clear(&self) {
        self.word.store(EMPTY, Ordering::SeqCst);
    }

    /// Parks the port until it is answered or summoned.
    pub(crate) fn park<R: Wait>(&self, rt: &R) {
        for _ in rt.forever() {
            if self.word.load(Ordering::SeqCst) != REGISTERED {
                break;
            }
            self.word.park(rt, REGISTERED as u32);
        }
    }

    /// Wakes the port, after the word was changed.
    pub(crate) fn wake(&self) {
        self.word.wake_one();
    }
}
