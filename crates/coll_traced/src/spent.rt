ghost use Rattle.std.specs.Prelude.{◌≡◌};

use crate::tally::{Entries, Tally};
use std::marker::Model;
use std::sync::ledger::Share;

/// What is left of a finished port. Contracts see its rank and how many entries it made.
#[derive(Drop)]
pub struct Spent<L: Entries> {
    rank: u8,
    tally: Tally<L>,
}

impl<L: Entries> Model for Spent<L> {
    ghost use Rattle.std.specs.Prelude.{ℕ};

    ghost Value = { ℕ × ℕ };

    ghost view = { λ s. (s.rank, s.tally) };
}

impl<L: Entries> Spent<L> {
    /// Makes the end of a port from its rank and tally.
    pub fn new(rank: u8, tally: Tally<L>) -> Self
        ensures { result ≡ (rank, tally) }
    {
        Spent { rank, tally }
    }

    /// Returns the port's part of the ledger.
    pub fn into_share(self) -> Share<L>
        ensures parts { result.parts ≡ 1 }
        ensures amount { result.amount ≡ self.1 }
    {
        let Spent { tally, .. } = self;
        tally.into_share()
    }

    /// Returns the port's world rank.
    pub fn rank(&self) -> u8
        ensures { result ≡ self.now.0 }
    {
        self.rank
    }

    /// Returns how many entries of the trace are the port's.
    pub fn made(&self) -> u64
        ensures { result ≡ self.now.1 }
    {
        self.tally.made()
    }
}
