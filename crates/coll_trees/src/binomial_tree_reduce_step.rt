ghost use Rattle.std.specs.Prelude.{◌≡◌, ◌<◌, ◌≤◌};

/// What a member does in a step of the binomial tree from all to member 0.
#[derive(Clone, Copy, Debug, PartialEq, Eq)]
pub(crate) enum ReduceStep {
    /// It gives what it holds to its parent, the member below.
    SendsToParent,
    /// It takes what its child, the member above, holds, and combines it as the right operand of its own.
    ReceivesFromChild,
    /// It does nothing.
    Rests,
}

impl ReduceStep {
    ghost use Rattle.coll_trees.specs.BinomialTreeReduce.{reduce_step};

    /// What member `r` of `n` does in the step at that distance.
    pub fn new(n: u8, r: u8, distance: u8) -> Self
        requires member { r < n }
        requires few { n ≤ 64 }
        requires some { 0 < distance }
        requires near { distance ≤ 64 }
        ensures { result ≡ reduce_step n r distance }
    {
        let place = r % (distance + distance);
        if place == distance {
            ReduceStep::SendsToParent
        } else if place == 0 && r + distance < n {
            ReduceStep::ReceivesFromChild
        } else {
            ReduceStep::Rests
        }
    }
}
