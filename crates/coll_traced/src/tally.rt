//! The ledger of the trace's entries, and each rank's count of its own.

ghost use Rattle.std.specs.Prelude.{◌≡◌, ◌+◌, ◌<◌, ◌≤◌, ◌^◌, ℕ};

use std::marker::{Brand, Model};
use std::sync::ledger::{Blank, Book, Ledger, Share};

/// The ledger of an engine's entries, in one part for each rank. The type names the engine: what
/// calls with it return belongs to a state of an engine with exactly this setting.
pub trait Entries: Ledger {
    ghost use Rattle.coll_machine.specs.Settings.{Setting};

    /// The setting with which the engine was opened.
    ghost setting: { Setting };
}

impl Entries for Brand {
    ghost use Rattle.std.specs.Prelude.{[]};

    ghost setting = { record { ranks = 0; groups = []; slots = 0; places = 0; wear = 0; starts = 0; trace = 0 } };
}

/// Makes a ledger for an engine with this many ranks.
pub fn ledger_for(ranks: u8) -> Blank
    ensures { result.parts ≡ ranks }
{
    Blank::new(u64::from(ranks))
}

/// How many entries of the trace are one rank's. All tallies add up to the length of the trace.
/// Contracts see the number.
#[derive(Drop)]
pub struct Tally<L: Entries> {
    share: Share<L>,
    made: u64,
}

impl<L: Entries> Model for Tally<L> {
    ghost Value = { ℕ };

    ghost view = { λ t. t.made };

    ghost invariant = { λ t. (t.share.parts ≡ 1) × (t.share.amount ≡ t.made) };
}

impl<L: Entries> Tally<L> {
    /// Makes the tally of a rank without entries.
    pub fn new(share: Share<L>) -> Self
        requires { (share.parts ≡ 1) × (share.amount ≡ 0) }
        ensures { result ≡ 0 }
    {
        Tally { share, made: 0 }
    }

    /// Returns the number of entries.
    pub fn made(&self) -> u64
        ensures { result ≡ self.now }
    {
        self.made
    }

    /// Returns the rank's part of the ledger.
    pub fn into_share(self) -> Share<L>
        ensures parts { result.parts ≡ 1 }
        ensures amount { result.amount ≡ self }
    {
        let Tally { share, .. } = self;
        share
    }

    /// Shows that the trace has at least as many entries. Does nothing at run time.
    pub(crate) fn audit(&mut self, book: &mut Book<L>)
        ensures made { self.new ≡ self.old }
        ensures total { book.new.total ≡ book.old.total }
        ensures bound { self.old ≤ book.old.total }
    {
        book.audit(&mut self.share);
    }

    /// Counts one more entry.
    pub(crate) fn count(&mut self, book: &mut Book<L>)
        requires { book.old.total + 1 < 2 ^ 64 }
        ensures made { self.new ≡ self.old + 1 }
        ensures total { book.new.total ≡ book.old.total + 1 }
    {
        book.audit(&mut self.share);
        book.add(&mut self.share, 1);
        self.made += 1;
    }
}
