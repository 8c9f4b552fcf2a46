ghost use Rattle.std.specs.Prelude.{◌≡◌, ◌+◌, ◌<◌, ◌≤◌, length, IfSome, IsTrue, vec_capacity, vec_len};
ghost use Rattle.std.specs.List.{sum_by};
ghost use Rattle.coll_bytes.specs.declared.shelf.TheConstants.{MOST_BYTES};

use crate::demand::{Demand, is_prepared};
use counted_slot::{Counted, FREE, Fits, PRESENT, TAKEN};
use crossbeam_utils::CachePadded;
use std::alloc::{AllocError, Global};
use std::hint::spin_loop;
use std::sync::atomic::{AtomicBool, Ordering};

/// The most vectors that are kept, as many as an allreduce among 64 ranks has results.
const MOST_ROWS: usize = 64;

/// The most bytes that are kept, twice the buffers of an allgather of 512 KiB among eight ranks.
const MOST_BYTES: usize = 134_217_728;

/// Shorter vectors aren't kept, because the allocator has these at hand.
const LEAST_BYTES: usize = 4_096;

/// How many bytes of a vector are written at a time: four pages, which take some ten microseconds.
const PIECE: usize = 16_384;

/// A thread that finds the vectors away looks this often before it goes on without them.
const TRIES: usize = 16;

/// Vectors that nobody uses now, in the order in which they came.
#[derive(Drop)]
struct Kept {
    rows: Vec<Vec<u8>>,
    bytes: usize,
    ghost counted: { bytes ≡ sum_by vec_capacity rows.items },
    ghost bounded: { bytes ≤ MOST_BYTES },
}

impl Fits for Kept {
    type Tag = ();

    ghost fits = { λ _ _. Unit {0} };
}

// Returns the index of the vector of that length that is written most, of those that have `least`
// to `most` bytes. Of several it is the last.
fn place_of(rows: &[Vec<u8>], len: usize, least: usize, most: usize) -> Option<usize>
    ensures { IfSome result (λ at. at < length rows.now) }
{
    let mut place = None;
    let mut bound = least;
    let mut at = rows.len();
    while at > 0 {
        at -= 1;
        let written = rows[at].len();
        if rows[at].capacity() == len && (bound..=most).contains(&written) {
            place = Some(at);
            if written == most {
                return place;
            }
            bound = written + 1;
        }
    }
    place
}

// Counts the vectors of that length that are written to their ends.
fn count_written(rows: &[Vec<u8>], len: usize) -> usize {
    let mut count = 0;
    for row in rows {
        if row.capacity() == len && row.len() == len {
            count += 1;
        }
    }
    count
}

impl Kept {
    // Takes out the vector of that length that is written most, with `least` to `most` bytes.
    fn take(&mut self, len: usize, least: usize, most: usize) -> Option<Vec<u8>> {
        let at = place_of(&self.rows, len, least, most)?;
        Some(self.remove(at))
    }

    fn remove(&mut self, at: usize) -> Vec<u8>
        requires { at < vec_len self.old.rows }
    {
        let row = self.rows.remove(at);
        self.bytes -= row.capacity();
        row
    }

    // Adds a vector. Takes no memory.
    fn push(&mut self, row: Vec<u8>)
        requires place { vec_len self.old.rows < vec_capacity self.old.rows }
        requires room { self.old.bytes + vec_capacity row ≤ MOST_BYTES }
    {
        self.bytes += row.capacity();
        self.rows.push_reserved(row);
    }

    // Tells whether a vector of `size` bytes can be kept beside these.
    fn has_room(&self, size: usize) -> bool
        ensures place { IsTrue result → vec_len self.now.rows < vec_capacity self.now.rows }
        ensures room { IsTrue result → self.now.bytes + size ≤ MOST_BYTES }
    {
        self.rows.len() < self.rows.capacity() && size <= MOST_BYTES - self.bytes
    }

    // Adds a vector, in place of the first if there is no room. Returns what isn't kept.
    fn put(&mut self, row: Vec<u8>) -> (Option<Vec<u8>>, Option<Vec<u8>>) {
        let size = row.capacity();
        let first = if self.has_room(size) || self.rows.is_empty() {
            None
        } else {
            Some(self.remove(0))
        };
        if !self.has_room(size) {
            return (first, Some(row));
        }
        self.push(row);
        (first, None)
    }
}

/// Vectors that several threads keep and take. One thread at a time has them in its hands, for a
/// few instructions without an allocation; no other thread waits until it gives them back.
#[derive(Drop)]
pub(crate) struct Shelf {
    /// None while a thread has the vectors, and after the end.
    kept: Counted<Option<Kept>>,
    is_closed: AtomicBool,
    alloc: Global,
    /// On a cache line of its own, because the threads that wait read it while others take vectors.
    demand: CachePadded<Demand>,
}

// Tells whether vectors of that length are kept.
fn is_kept(len: usize) -> bool {
    (LEAST_BYTES..=MOST_BYTES).contains(&len)
}

impl Shelf {
    /// Makes place for the vectors.
    ///
    /// # Errors
    ///
    /// No memory.
    pub(crate) fn new(alloc: Global) -> Result<Shelf, AllocError> {
        let rows = Vec::with_capacity(alloc, MOST_ROWS)?;
        let kept = Counted::new(Some(Kept { rows, bytes: 0 }), &());
        Ok(Shelf {
            kept,
            is_closed: AtomicBool::new(false),
            alloc,
            demand: CachePadded::new(Demand::none()),
        })
    }

    /// Takes out the vector of that length that is written most, with `least` to `most` bytes.
    pub(crate) fn take(&self, len: usize, least: usize, most: usize) -> Option<Vec<u8>> {
        if !is_kept(len) {
            return None;
        }
        let mut kept = self.lend()?;
        let row = kept.take(len, least, most);
        self.give_back(kept);
        row
    }

    /// The same for a vector that is to be written to its end, preferably one that was written to its
    /// end before. If few such ones are left, others are to be prepared.
    pub(crate) fn take_written(&self, len: usize, least: usize) -> Option<Vec<u8>> {
        if !is_prepared(len) {
            return self.take(len, least, len);
        }
        let mut row = self.take(len, len, len);
        if row.is_none() {
            self.demand.hold(len);
            row = self.take(len, least, len);
        }
        self.demand.note(len, self.count_written(len));
        row
    }

    // Counts the vectors of that length that are written to their ends. Counts none if other threads
    // have the vectors.
    fn count_written(&self, len: usize) -> u64 {
        let Some(kept) = self.lend() else {
            return 0;
        };
        let written = count_written(&kept.rows, len);
        self.give_back(kept);
        written as u64
    }

    /// Writes the next bytes of a vector that is lacking. Returns whether there was one.
    #[inline(always)]
    pub(crate) fn prepare(&self) -> bool {
        match self.demand.claim() {
            Some(len) => self.prepare_one(len),
            None => false,
        }
    }

    #[inline(never)]
    fn prepare_one(&self, len: usize) -> bool {
        let Some(mut row) = self.begun(len) else {
            self.demand.give_back(true);
            return false;
        };
        let end = len.min(row.len().saturating_add(PIECE));
        let is_written = row.resize(end, 0).is_ok();
        self.put(row);
        self.demand.give_back(end < len);
        is_written
    }

    // Takes out the vector of that length of which most is written, but not all, or makes one.
    fn begun(&self, len: usize) -> Option<Vec<u8>> {
        match self.take(len, 1, len.saturating_sub(1)) {
            Some(row) => Some(row),
            None => Vec::with_capacity(self.alloc, len).ok(),
        }
    }

    /// Adds a vector, or frees it.
    pub(crate) fn put(&self, row: Vec<u8>) {
        if !is_kept(row.capacity()) {
            return;
        }
        let Some(mut kept) = self.lend() else {
            return;
        };
        let _freed = kept.put(row);
        self.give_back(kept);
    }

    /// Frees the vectors. Those that come later are freed at once.
    pub(crate) fn close(&self) {
        self.is_closed.store(true, Ordering::SeqCst);
        let _kept = self.lend();
    }

    // Takes the vectors into this thread's hands, unless other threads have them all the time.
    fn lend(&self) -> Option<Kept> {
        for _try in 0..TRIES {
            if let Some(kept) = self.try_lend() {
                return Some(kept);
            }
            spin_loop();
        }
        None
    }

    fn try_lend(&self) -> Option<Kept> {
        let (found, claim) = self.kept.turn(FREE, TAKEN);
        if found != FREE {
            claim.done();
            return None;
        }
        claim.put(None, PRESENT)
    }

    // Gives the vectors back. If the shelf was closed meanwhile, they are freed.
    fn give_back(&self, kept: Kept) {
        let (found, claim) = self.kept.turn(PRESENT, TAKEN);
        if found != PRESENT {
            claim.done();
            return;
        }
        let _none = claim.put(Some(kept), FREE);
        if self.is_closed.load(Ordering::SeqCst) {
            let _kept = self.try_lend();
        }
    }
}
