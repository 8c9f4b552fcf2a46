ghost use Rattle.std.specs.Prelude.{◌≡◌, ◌≤◌};

/// A member's part in the fold, which leaves as many members to act as a power of two: of each of the first pairs of
/// neighbours one acts for both.
#[derive(Clone, Copy, Debug, PartialEq, Eq)]
pub(crate) enum FoldPart {
    /// The even member of a pair, the lower one, which acts for both.
    Lower,
    /// The odd one: it gives its row at first, and gets the result in the end.
    Upper,
    /// In no pair.
    Alone,
}

impl FoldPart {
    ghost use Rattle.coll_plans.specs.RecursiveDoublingHypercube.{fold_part};

    /// How member `r` stands where the first `extra` pairs of neighbours are pairs.
    pub fn new(extra: u8, r: u8) -> Self
        requires { extra ≤ 64 }
        ensures { result ≡ fold_part extra r }
    {
        if r >= extra + extra {
            FoldPart::Alone
        } else if r % 2 == 0 {
            FoldPart::Lower
        } else {
            FoldPart::Upper
        }
    }
}
