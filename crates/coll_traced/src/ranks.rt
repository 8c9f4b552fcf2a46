ghost use Rattle.std.specs.Prelude.{◌≡◌, ◌↔◌, ◌<◌, ◌^◌, ◌*◌, ◌%◌, ◌-◌, IsTrue, MatchOption, false, true};
ghost use Rattle.coll_traced.specs.Ranks.{AreBut, AreNone, AreWith, AreWithout, IsIn, IsLowest};

use std::marker::Model;

/// A set of an engine's ranks, of which there are at most 64: one bit for each. What a contract says of a rank, it says of those below 64.
#[derive(Clone, Copy, Debug, PartialEq, Eq)]
pub struct Ranks(u64);

impl Model for Ranks {
    ghost use Rattle.std.specs.Prelude.{ℕ, ◌<◌, ◌^◌};

    ghost Value = { ℕ };

    ghost view = { λ ranks. ranks.0 };

    ghost invariant = { λ ranks. ranks.0 < 2 ^ 64 };

    ghost inverse = { λ n. record { 0 = n } };
}

/// Returns the bit of a rank.
fn bit(rank: u8) -> u64
    ensures { rank < 64 → result ≡ 1 * 2 ^ rank % 2 ^ 64 }
{
    1u64.wrapping_shl(u32::from(rank))
}

impl Ranks {
    pub const NONE: Ranks = Ranks(0);

    pub fn has(self, rank: u8) -> bool
        ensures { rank < 64 → (IsTrue result ↔ IsIn self rank) }
    {
        self.0 & bit(rank) != 0
    }

    /// Adds a rank.
    pub fn with(self, rank: u8) -> Ranks
        ensures { rank < 64 → AreWith self rank result }
    {
        Ranks(self.0 | bit(rank))
    }

    /// Removes a rank.
    pub fn without(self, rank: u8) -> Ranks
        ensures { rank < 64 → AreWithout self rank result }
    {
        Ranks(self.0 & !bit(rank))
    }

    /// Adds a rank if `has`, else removes it.
    pub fn set(self, rank: u8, has: bool) -> Ranks
        ensures with { rank < 64 → has ≡ true → AreWith self rank result }
        ensures without { rank < 64 → has ≡ false → AreWithout self rank result }
    {
        if has {
            self.with(rank)
        } else {
            self.without(rank)
        }
    }

    /// Removes the ranks of `others`.
    pub fn but(self, others: Ranks) -> Ranks
        ensures { AreBut self others result }
    {
        Ranks(self.0 & !others.0)
    }

    pub fn is_empty(self) -> bool
        ensures { IsTrue result ↔ AreNone self }
    {
        self.0 == 0
    }

    /// Returns the lowest rank of the set.
    pub fn lowest(self) -> Option<u8>
        ensures { MatchOption result (AreNone self) (IsLowest self) }
    {
        if self.is_empty() {
            return None;
        }
        Some(self.0.trailing_zeros() as u8)
    }

    /// Returns the set as bits.
    pub fn bits(self) -> u64
        ensures { result ≡ self }
    {
        self.0
    }

    /// Makes a set of bits.
    pub fn of_bits(bits: u64) -> Ranks
        ensures { result ≡ bits }
    {
        Ranks(bits)
    }
}
