ghost use Rattle.std.specs.Prelude.{◌≡◌};

/// Which members have bytes for which others.
#[derive(Clone, Copy, Debug)]
pub(crate) enum Pattern {
    /// Each member for each.
    ToAll,
    /// Each member for the root.
    ToRoot { root: u8 },
    /// The root for each member.
    FromRoot { root: u8 },
}

impl Pattern {
    ghost use Rattle.coll_plans.specs.DirectExchange.{carries, crosses};

    /// Whether member `q` has bytes for member `r`, which may be itself.
    pub fn carries(self, q: u8, r: u8) -> bool
        ensures { result ≡ carries self q r }
    {
        match self {
            Pattern::ToAll => true,
            Pattern::ToRoot { root } => r == root,
            Pattern::FromRoot { root } => q == root,
        }
    }

    /// Whether it has bytes for another member `r`.
    pub fn crosses(self, q: u8, r: u8) -> bool
        ensures { result ≡ crosses self q r }
    {
        q != r && self.carries(q, r)
    }

    /// For how many actions of member `r` of `n` to make room: a hint, on which no promise rests.
    pub fn most_actions(self, n: u8, r: u8) -> usize {
        let n = usize::from(n);
        match self {
            Pattern::ToAll => 2 * n,
            Pattern::ToRoot { root } | Pattern::FromRoot { root } => if r == root { n } else { 1 },
        }
    }
}
