ghost use Rattle.std.specs.Prelude.{◌≡◌, ◌<◌, ◌≤◌};

/// What a member does in a step of the binomial tree from the root to all.
#[derive(Clone, Copy, Debug, PartialEq, Eq)]
pub(crate) enum BcastStep {
    /// It passes its block on to its child.
    SendsToChild,
    /// It gets the block from its parent.
    ReceivesFromParent,
    /// It does nothing.
    Idles,
}

impl BcastStep {
    ghost use Rattle.coll_trees.specs.BinomialTreeBcast.{bcast_step};

    /// What the member with that number, counted from the root on, does in the step at that distance.
    pub fn new(n: u8, number: u8, distance: u8) -> Self
        requires member { number < n }
        requires few { n ≤ 64 }
        requires near { distance ≤ 64 }
        ensures { result ≡ bcast_step n number distance }
    {
        if number < distance {
            if number + distance < n {
                BcastStep::SendsToChild
            } else {
                BcastStep::Idles
            }
        } else if number < distance + distance {
            BcastStep::ReceivesFromParent
        } else {
            BcastStep::Idles
        }
    }
}
