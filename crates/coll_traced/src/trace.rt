//! The trace of the calls that a core accepted, and the receipts of its entries.

mod appended;
mod receipt;
mod receipts;

ghost use Rattle.std.specs.Prelude.{◌≡◌, ◌⊎◌, ◌↔◌, ◌+◌, ◌<◌, ◌≤◌, ℕ, [], ◌∷◌, ◌++◌, drop, length, IfErr, IfSome, IsNone, IsTrue, OnOk};
ghost use Rattle.coll_report.specs.Views.{seen, trace_seen};
ghost use Rattle.coll_traced.specs.Places.{IsLast, NamesLast, place_in};
ghost use Rattle.coll_traced.specs.Recorded.{IsFilled};
ghost use Rattle.coll_traced.specs.Closings.{AreEnds, IsBalanced};

use crate::balance::{are_ends, first_unbalanced};
use crate::spent::Spent;
use crate::tally::{Entries, Tally};
pub use appended::Appended;
use coll_kinds::Refusal;
use coll_report::Entry;
pub use receipt::Receipt;
pub use receipts::Receipts;
use std::alloc::Global;
use std::marker::Model;
use std::mem;
use std::snapshot::Snapshot;
use std::sync::ledger::{Book, Share};

/// The entries so far, with memory for the completions and frees still to come.
#[derive(Drop)]
pub(crate) struct Trace<L: Entries> {
    entries: Vec<Entry>,
    book: Book<L>,
    reserved: usize,
}

impl<L: Entries> Model for Trace<L> {
    ghost use Rattle.std.specs.Prelude.{vec_capacity};
    ghost use Rattle.coll_report.specs.Views.{trace_seen};
    ghost use Rattle.coll_traced.specs.Recorded.{IsRecorded, Recorded};

    ghost Value = { Recorded };

    ghost view = { λ t. record { entries = trace_seen t.entries.items; reserved = t.reserved; capacity = vec_capacity t.entries } };

    ghost invariant = { λ t. IsRecorded
        (record { entries = trace_seen t.entries.items; reserved = t.reserved; capacity = vec_capacity t.entries }) t.book.total };
}

/// Returns the entry's place on its communicator; of a start, the number of the start.
fn place(entry: &Entry) -> u32
    ensures { result ≡ place_in (seen entry.now) }
{
    match entry {
        Entry::Posted { place, .. } => *place,
        Entry::Inited { place, .. } => *place,
        Entry::Started { start, .. } => *start,
        Entry::Retired { place, .. } => *place,
        Entry::Freed { .. } => 0,
    }
}

impl<L: Entries> Trace<L> {
    /// Makes an empty trace.
    pub(crate) fn new(alloc: Global, book: Book<L>) -> Self
        requires { book.total ≡ 0 }
        ensures entries { result.entries ≡ [] }
        ensures reserved { result.reserved ≡ 0 }
    {
        Trace {
            entries: Vec::new(alloc),
            book,
            reserved: 0,
        }
    }

    /// Shows that the trace has at least the entries that the tally counts. Does nothing at run
    /// time.
    pub(crate) fn audit(&mut self, mine: &mut Tally<L>)
        ensures same { self.new ≡ self.old }
        ensures made { mine.new ≡ mine.old }
        ensures bound { mine.old ≤ length self.old.entries }
    {
        let book = &mut self.book;
        mine.audit(book);
    }

    /// Makes memory for an entry and for the one reserved by it. Refuses TraceFull if they would
    /// pass the limit, then NoMemory.
    pub(crate) fn make_room(&mut self, limit: u32) -> Result<(), Refusal>
        requires { length self.old.entries + self.old.reserved ≤ limit }
        ensures entries { self.new.entries ≡ self.old.entries }
        ensures reserved { self.new.reserved ≡ self.old.reserved }
        ensures room { OnOk result (length self.new.entries + self.new.reserved + 2 ≤ self.new.capacity) }
        ensures fits { OnOk result (IsFilled self.old limit → ⊥) }
        ensures refused { IfErr result
            (λ why. ((why ≡ Refusal.TraceFull) × IsFilled self.old limit) ⊎ ((IsFilled self.old limit → ⊥) × (why ≡ Refusal.NoMemory))) }
    {
        if limit as usize - self.entries.len() - self.reserved < 2 {
            return Err(Refusal::TraceFull);
        }
        if self.entries.reserve(self.reserved + 2).is_err() {
            return Err(Refusal::NoMemory);
        }
        Ok(())
    }

    /// Appends an entry that reserves one more.
    pub(crate) fn begin(&mut self, mine: &mut Tally<L>, entry: Entry) -> Receipt
        requires { length self.old.entries + self.old.reserved + 2 ≤ self.old.capacity }
        ensures entries { self.new.entries ≡ self.old.entries ++ seen entry ∷ [] }
        ensures reserved { self.new.reserved ≡ self.old.reserved + 1 }
        ensures made { mine.new ≡ mine.old + 1 }
        ensures receipt { result ≡ seen entry }
    {
        let receipt = Receipt::of_entry(&entry);
        self.entries.push_reserved(entry);
        self.reserved += 1;
        let book = &mut self.book;
        mine.count(book);
        receipt
    }

    /// Appends an entry whose room was reserved.
    pub(crate) fn end(&mut self, mine: &mut Tally<L>, entry: Entry) -> Receipt
        requires { 0 < self.old.reserved }
        ensures entries { self.new.entries ≡ self.old.entries ++ seen entry ∷ [] }
        ensures reserved { self.new.reserved + 1 ≡ self.old.reserved }
        ensures made { mine.new ≡ mine.old + 1 }
        ensures receipt { result ≡ seen entry }
    {
        let receipt = Receipt::of_entry(&entry);
        self.entries.push_reserved(entry);
        self.reserved -= 1;
        let book = &mut self.book;
        mine.count(book);
        receipt
    }

    /// Returns the last entry's place on its communicator; of a start, the number of the start.
    pub(crate) fn last_place(&self) -> u32
        ensures { NamesLast self.now.entries result }
    {
        match self.entries.last() {
            Some(entry) => place(entry),
            None => 0,
        }
    }

    /// Returns a copy of the last entry.
    pub(crate) fn last(&self, copy: Entry) -> Appended
        requires { IsLast self.now.entries (seen copy) }
        ensures { result ≡ seen copy }
    {
        Appended::of(copy)
    }

    /// Takes a snapshot of the entries, for receipts.
    pub(crate) fn moment(&self) -> Snapshot<Vec<Entry>>
        ensures { trace_seen result.value.items ≡ self.now.entries }
    {
        Snapshot::of(&self.entries)
    }

    /// Returns what was appended since the snapshot.
    pub(crate) fn since(&self, before: Snapshot<Vec<Entry>>) -> Receipts
        ensures { result ≡ drop (length (trace_seen before.value.items)) self.now.entries }
    {
        Receipts::between(before, self.moment())
    }

    /// Returns the lowest rank with more posts and starts than completions.
    pub(crate) fn first_unbalanced(&self, ranks: u8) -> Option<u8>
        ensures none { IsNone result → (r : ℕ) → r < ranks → IsBalanced r self.now.entries }
        ensures some { IfSome result (λ rank. IsBalanced rank self.now.entries → ⊥) }
        ensures first { IfSome result (λ rank. (r : ℕ) → r < rank → IsBalanced r self.now.entries) }
    {
        first_unbalanced(&self.entries, ranks)
    }

    /// Tells whether `ends` are the ends of one port of each rank, in the order of ranks, each with
    /// as many entries as its rank has.
    pub(crate) fn has_ends(&self, ranks: u8, ends: &[Spent<L>]) -> bool
        ensures { IsTrue result ↔ AreEnds ranks self.now.entries ends.now }
    {
        are_ends(&self.entries, ranks, ends)
    }

    /// Takes all entries, once all shares of the ledger came back, and leaves an empty trace.
    pub(crate) fn take(&mut self, alloc: Global, all: &mut Share<L>) -> Vec<Entry>
        requires { all.old.parts ≡ L.parts }
        ensures entries { trace_seen result.items ≡ self.old.entries }
        ensures left { self.new.entries ≡ [] }
        ensures reserved { self.new.reserved ≡ 0 }
        ensures total { all.old.amount ≡ length self.old.entries }
    {
        let book = &mut self.book;
        book.audit(all);
        book.sub(all, self.entries.len() as u64);
        self.reserved = 0;
        mem::replace(&mut self.entries, Vec::new(alloc))
    }
}
