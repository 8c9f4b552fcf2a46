//! The engine's lock, and what its holder (the combiner) does for all ports: flat combining.

mod held;

ghost use Rattle.std.specs.Prelude.{◌≡◌, ◌<◌, ◌≤◌, ℕ, [], IfErr, IfOk, IsOkUnless, IsSome, vec_capacity, vec_len};
ghost use Rattle.std.specs.Sync.Mutex.{mutex_guard_value};
ghost use Rattle.coll_traced.specs.Ranks.{IsIn};
ghost use Rattle.crossbeam_utils.specs.Padded.{padded_value};
ghost use Rattle.coll_shared.specs.Sleepers.{AreCalled, Wakes};

use crate::idlers::Idlers;
use crate::locked::{Locked, Successor};
use crate::record::PublicationRecord;
use coll_bytes::Home;
use coll_core::{DoneShortWork, ShortWork};
use coll_kinds::Refusal;
use coll_spin::Processors;
use coll_traced::{Entries, Ranks, TracedCore};
use crossbeam_utils::{Backoff, CachePadded};
pub(crate) use held::Held;
use std::alloc::Global;
use std::sync::atomic::{AtomicU64, Ordering};
use std::sync::{Mutex, Wait};

/// How often a thread that unlocks takes the lock again for what was published meanwhile.
const ROUNDS: u32 = 4;

/// The lock round an engine, and its ports' publication records. The thread that holds the lock is
/// the combiner: it serves the records of all ports.
#[derive(Drop)]
pub(crate) struct Combiner<L: Entries> {
    locked: Mutex<Locked<L>>,
    /// In cache lines of their own, because waiting threads read them while others write what the
    /// lock guards.
    records: CachePadded<Vec<PublicationRecord<L>>>,
    /// How many threads wait for the lock itself.
    wanted: CachePadded<AtomicU64>,
    pub(crate) idlers: Idlers,
    /// How many threads sleep.
    sleepers: CachePadded<AtomicU64>,
    /// The ranks whose ports were dropped unfinished, as bits, until a combiner notes that they
    /// have ended.
    departed: CachePadded<AtomicU64>,
    pub(crate) processors: CachePadded<Processors>,
    /// Where rows come from, which waiting ports prepare.
    home: Option<Home>,
}

fn zero() -> CachePadded<AtomicU64> {
    CachePadded::new(AtomicU64::new(0))
}

impl<L: Entries> Combiner<L> {
    /// Makes the lock and the records for an engine with `ranks` ranks.
    pub(crate) fn open(alloc: Global, traced: TracedCore<L>, ranks: u8) -> Result<Self, Refusal>
        ensures { IfErr result (λ why. why ≡ Refusal.NoMemory) }
    {
        let mut records = Vec::with_capacity(alloc, usize::from(ranks))?;
        for _rank in 0..ranks {
            records.push(PublicationRecord::new())?;
        }
        let home = traced.home();
        Ok(Combiner {
            locked: Mutex::new(Locked::new(traced)),
            records: CachePadded::new(records),
            wanted: zero(),
            idlers: Idlers::new(),
            sleepers: zero(),
            departed: zero(),
            processors: CachePadded::new(Processors::new()),
            home,
        })
    }

    /// Prepares some memory for the next long rows. Returns false if there is none to prepare.
    #[inline(always)]
    pub(crate) fn prepare(&self) -> bool {
        match &self.home {
            Some(home) => home.prepare(),
            None => false,
        }
    }

    /// Returns the record of a rank.
    pub(crate) fn record(&self, rank: u8) -> Option<&PublicationRecord<L>>
        ensures { rank < vec_len (padded_value self.now.records) → IsSome result }
    {
        self.records.get(usize::from(rank))
    }

    /// Takes the lock if it is free. Neither this function nor `release` blocks.
    pub(crate) fn try_enter(&self) -> Option<Held<'_, L>> {
        Some(Held::new(self.locked.try_lock()?))
    }

    /// Takes the lock for a call of the rank's port, if that port leads and the lock is free.
    pub(crate) fn try_lead(&self, rank: u8) -> Option<Held<'_, L>> {
        if !self.record(rank)?.leads() {
            return None;
        }
        self.try_enter()
    }

    /// Notes that the rank's port served its last call itself.
    pub(crate) fn has_led(&self, rank: u8) {
        if let Some(record) = self.record(rank) {
            record.set_leads(true);
        }
    }

    /// Takes the lock, and blocks until it is free.
    #[inline(always)]
    pub(crate) fn enter<R: Wait>(&self, rt: &R) -> Held<'_, L> {
        if let Some(held) = self.try_enter() {
            return held;
        }
        self.wanted.fetch_add(1, Ordering::SeqCst);
        let held = self.await_lock(rt);
        self.wanted.fetch_sub(1, Ordering::SeqCst);
        held
    }

    fn await_lock<R: Wait>(&self, rt: &R) -> Held<'_, L> {
        let backoff = Backoff::new();
        for _ in 0..self.processors.asks() {
            if let Some(held) = self.try_enter() {
                return held;
            }
            backoff.spin();
        }
        Held::new(self.locked.lock(rt))
    }

    /// Tells whether a thread waits for the lock.
    pub(crate) fn is_wanted(&self) -> bool {
        self.wanted.load(Ordering::SeqCst) != 0
    }

    /// Returns an empty vector for the bytes of a contribution.
    ///
    /// # Errors
    ///
    /// NoMemory.
    pub(crate) fn alloc_row(&self, alloc: Global, len: usize) -> Result<Vec<u8>, Refusal>
        ensures empty { IfOk result (λ row. row.items ≡ []) }
        ensures none { IfOk result (λ row. vec_len row ≡ 0) }
        ensures room { IfOk result (λ row. len ≤ vec_capacity row) }
        ensures refusal { IsOkUnless result Refusal.NoMemory }
    {
        match &self.home {
            Some(home) => Ok(home.take(alloc, len)?),
            None => Ok(Vec::with_capacity(alloc, len)?),
        }
    }

    /// Counts the ports whose published call nobody has served yet.
    pub(crate) fn published(&self) -> u64 {
        self.records
            .iter()
            .filter(|record| record.is_published())
            .count() as u64
    }

    /// Returns how many threads sleep.
    pub(crate) fn sleepers(&self) -> u64 {
        self.sleepers.load(Ordering::SeqCst)
    }

    /// Notes that the calling thread is about to sleep.
    pub(crate) fn falls_asleep(&self) {
        self.sleepers.fetch_add(1, Ordering::SeqCst);
    }

    /// Notes that the calling thread is awake.
    pub(crate) fn wakes_up(&self) {
        self.sleepers.fetch_sub(1, Ordering::SeqCst);
    }

    /// Ends a rank whose port is dropped unfinished, without blocking on the lock.
    ///
    /// No departure is missed. If the lock is free, this thread takes it and notes the departure.
    /// Else the departure was published before the lock's holder unlocks, and `release` checks for
    /// departures after each unlock. So that thread notes it, or a later holder does. Whoever notes
    /// it reports a deadlock, if there is one, and so wakes the ports that slept for this rank.
    pub(crate) fn depart(&self, rank: u8) {
        self.departed
            .fetch_or(Ranks::NONE.with(rank).bits(), Ordering::SeqCst);
        if let Some(held) = self.try_enter() {
            self.release(held);
        }
    }

    fn has_departed(&self) -> bool {
        self.departed.load(Ordering::SeqCst) != 0
    }

    /// Ends the ranks whose ports were dropped unfinished.
    fn end_departed(&self, held: &mut Held<'_, L>) {
        if !self.has_departed() {
            return;
        }
        let departed = Ranks::of_bits(self.departed.swap(0, Ordering::SeqCst));
        for rank in 0..64u8 {
            if departed.has(rank) {
                held.locked.traced.end(rank);
            }
        }
    }

    /// Carries out what ports published.
    #[inline(always)]
    fn serve(&self, held: &mut Held<'_, L>) {
        for (rank, record) in (0..=u8::MAX).zip(self.records.iter()) {
            if record.is_published() && record.serve(&mut held.locked.traced, rank) {
                held.wakes(rank);
            }
        }
    }

    /// Answers these ranks, whose ports are registered.
    fn answer(&self, held: &mut Held<'_, L>, ranks: Ranks) {
        if ranks.is_empty() {
            return;
        }
        for (rank, record) in (0..=u8::MAX).zip(self.records.iter()) {
            if ranks.has(rank) && record.answer(&mut held.locked.traced, rank) {
                held.wakes(rank);
            }
        }
    }

    /// Answers the registered ports whose requests are done now.
    #[inline(always)]
    pub(crate) fn answer_met(&self, held: &mut Held<'_, L>) {
        if held.locked.finished {
            held.locked.finished = false;
            let met = held.locked.traced.met();
            self.answer(held, met);
        }
    }

    /// In a deadlock, summons the parked ports: each waiting port then takes the lock, and finds
    /// that it is marked as stalled.
    #[tactic(auto, using(crate::proofs::Sleepers::wakes_none))]
    fn tell_stall(&self, held: &mut Held<'_, L>)
        ensures woken { Wakes (mutex_guard_value held.old.locked).parked held.old.wake (mutex_guard_value held.new.locked).parked held.new.wake }
        ensures called { let then = mutex_guard_value held.new.locked in
            AreCalled (vec_len (padded_value self.now.records)) (mutex_guard_value held.old.locked).traced then.traced then.parked }
    {
        if held.locked.tell_stall() {
            self.call_parked(held);
        }
    }

    /// Summons the parked ports.
    fn call_parked(&self, held: &mut Held<'_, L>)
        ensures traced { (mutex_guard_value held.new.locked).traced ≡ (mutex_guard_value held.old.locked).traced }
        ensures woken { Wakes (mutex_guard_value held.old.locked).parked held.old.wake (mutex_guard_value held.new.locked).parked held.new.wake }
        ensures called { (rank : ℕ) → rank < vec_len (padded_value self.now.records) → rank < 64 → IsIn (mutex_guard_value held.new.locked).parked rank → ⊥ }
    {
        let parked = held.locked.parked;
        for rank in 0..64u8 {
            if parked.has(rank) {
                self.call(held, rank);
            }
        }
    }

    /// Summons a parked port: it is to take the lock, and goes on waiting.
    #[tactic(auto, using(crate::proofs::Sleepers::wakes_none))]
    fn call(&self, held: &mut Held<'_, L>, rank: u8)
        ensures traced { (mutex_guard_value held.new.locked).traced ≡ (mutex_guard_value held.old.locked).traced }
        ensures woken { rank < 64 → Wakes (mutex_guard_value held.old.locked).parked held.old.wake (mutex_guard_value held.new.locked).parked held.new.wake }
        ensures awake { rank < vec_len (padded_value self.now.records) → rank < 64 → IsIn (mutex_guard_value held.new.locked).parked rank → ⊥ }
    {
        if let Some(record) = self.record(rank) {
            record.call();
            held.wakes(rank);
        }
    }

    /// Works for all ports: carries out what they published, makes the steps that need no
    /// combination, and answers.
    #[inline(always)]
    pub(crate) fn combine(&self, held: &mut Held<'_, L>) {
        self.end_departed(held);
        self.serve(held);
        held.locked.advance();
        self.answer_met(held);
    }

    /// Computes a short combination with the lock free, and takes the lock again. Before that it
    /// only wakes the threads that are to be woken. Everything else waits until this thread gives
    /// the lock up for good, because this thread blocks on nothing but the lock.
    pub(crate) fn compute_between<'a, R: Wait>(
        &'a self,
        rt: &R,
        held: Held<'a, L>,
        work: ShortWork,
    ) -> (Held<'a, L>, DoneShortWork) {
        let wake = held.unlock();
        self.wake(wake);
        let done = work.run();
        (self.enter(rt), done)
    }

    /// Gives the lock up for good; no other function does. Takes the lock again, without blocking,
    /// for what was published meanwhile: a few times for calls, and each time for dropped ports,
    /// which are rare.
    pub(crate) fn release<'a>(&'a self, mut held: Held<'a, L>) {
        for round in 1..u32::MAX {
            self.let_go(held);
            let is_asked = round < ROUNDS && self.published() > 0;
            if !is_asked && !self.has_departed() {
                return;
            }
            let Some(again) = self.try_enter() else {
                return;
            };
            held = again;
        }
        self.let_go(held);
    }

    /// Does what is due for all ports, unlocks, and wakes the ports that were answered and the
    /// successor.
    #[inline(always)]
    fn let_go(&self, mut held: Held<'_, L>) {
        self.combine(&mut held);
        self.tell_stall(&mut held);
        let next = held.locked.successor();
        if let Successor::Port(rank) = next {
            self.call(&mut held, rank);
        }
        let wake = held.unlock();
        self.wake(wake);
        if next == Successor::Worker {
            self.idlers.call();
        }
    }

    fn wake(&self, wake: Ranks) {
        if wake.is_empty() {
            return;
        }
        for (rank, record) in (0..=u8::MAX).zip(self.records.iter()) {
            if wake.has(rank) {
                record.wake();
            }
        }
    }
}
