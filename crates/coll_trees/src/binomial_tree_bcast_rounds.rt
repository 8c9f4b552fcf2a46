ghost use Rattle.std.specs.Prelude.{◌≡◌, ◌+◌, ◌++◌, ◌<◌, ◌≤◌, IfOk, OnOk, IsOkUnless};
ghost use Rattle.coll_trees.specs.Columns.{rounds_of};
ghost use Rattle.coll_trees.specs.Depths.{depth};

use crate::binomial_tree_bcast_step::BcastStep;
use crate::depth::depth_of;
use crate::numbering::{from_root, member_at};
use crate::rounds::one_action;
use coll_kinds::Refusal;
use coll_sched::{Action, Region, Round};
use std::alloc::Global;

/// The binomial tree that carries a block from the root to all members.
#[derive(Clone, Copy, Debug)]
pub(crate) struct BcastTree {
    /// How many members there are.
    pub n: u8,
    /// The root's member number.
    pub root: u8,
    /// The bytes of the block.
    pub len: u32,
    ghost root_low: { root < n },
    ghost few: { n ≤ 64 },
}

impl BcastTree {
    ghost use Rattle.coll_trees.specs.BinomialTreeBcast.{bcast_step, hop, bcast_tree_rounds};

    /// Appends the rounds of member `r`, one for each step.
    pub fn push_rounds(self, alloc: Global, r: u8, rounds: &mut Vec<Round>) -> Result<(), Refusal>
        requires { r < self.n }
        ensures ok { OnOk result (rounds.new.items ≡ rounds.old.items ++ rounds_of (bcast_tree_rounds self.len self.n self.root 0 (depth self.n)) r) }
        ensures refusal { IsOkUnless result Refusal.NoMemory }
    {
        let number = from_root(self.n, self.root, r);
        let steps = depth_of(self.n);
        for step in 0..steps {
            let round = self.hop(alloc, number, 2u8.pow(u32::from(step)))?;
            rounds.push(round)?;
        }
        Ok(())
    }

    // The round of the member with that number in the step at that distance.
    fn hop(self, alloc: Global, number: u8, distance: u8) -> Result<Round, Refusal>
        requires member { number < self.n }
        requires near { distance ≤ 64 }
        ensures ok { IfOk result (λ round. round ≡ hop self.len self.n self.root number distance (bcast_step self.n number distance)) }
        ensures refusal { IsOkUnless result Refusal.NoMemory }
    {
        let block = Region {
            at: 0,
            len: self.len,
        };
        match BcastStep::new(self.n, number, distance) {
            BcastStep::SendsToChild => one_action(
                alloc,
                Action::Send {
                    to: member_at(self.n, self.root, number + distance),
                    from: block,
                },
            ),
            BcastStep::ReceivesFromParent => one_action(
                alloc,
                Action::Recv {
                    of: member_at(self.n, self.root, number - distance),
                    into: block,
                },
            ),
            BcastStep::Idles => Ok(Round::new(alloc)),
        }
    }
}
