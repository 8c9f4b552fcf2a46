ghost use Rattle.std.specs.Prelude.{◌≡◌, ◌+◌, ◌++◌, ◌<◌, ◌≤◌, ◌^◌, IfOk, OnOk, IsOkUnless};
ghost use Rattle.coll_trees.specs.Columns.{rounds_of};
ghost use Rattle.coll_trees.specs.Depths.{depth};
ghost use Rattle.coll_sched.specs.Regions.{front, behind};

use crate::binomial_tree_reduce_step::ReduceStep;
use crate::depth::depth_of;
use crate::rounds::one_action;
use coll_kinds::{Datatype, Op, Refusal};
use coll_sched::{Action, Region, Round};
use std::alloc::Global;

/// The binomial tree that brings the combination of all members' blocks to member 0, in member order.
#[derive(Clone, Copy, Debug)]
pub(crate) struct ReduceTree {
    pub op: Op,
    pub ty: Datatype,
    /// How many members there are.
    pub n: u8,
    /// The bytes of a block.
    pub len: u32,
    ghost few: { n ≤ 64 },
    ghost small: { len < 2 ^ 31 },
}

impl ReduceTree {
    ghost use Rattle.coll_trees.specs.BinomialTreeReduce.{reduce_step, moves, combines, reduce_tree_rounds};

    /// Appends the rounds of member `r`, two for each step.
    pub fn push_rounds(self, alloc: Global, r: u8, rounds: &mut Vec<Round>) -> Result<(), Refusal>
        requires { r < self.n }
        ensures ok { OnOk result (rounds.new.items ≡ rounds.old.items ++ rounds_of (reduce_tree_rounds self.op self.ty self.len self.n 0 (depth self.n)) r) }
        ensures refusal { IsOkUnless result Refusal.NoMemory }
    {
        let steps = depth_of(self.n);
        for step in 0..steps {
            let distance = 2u8.pow(u32::from(step));
            let part = ReduceStep::new(self.n, r, distance);
            let moves = self.moves(alloc, r, distance, part)?;
            rounds.push(moves)?;
            let combines = self.combines(alloc, part)?;
            rounds.push(combines)?;
        }
        Ok(())
    }

    // The round in which blocks move, of member r whose step is known.
    fn moves(self, alloc: Global, r: u8, distance: u8, part: ReduceStep) -> Result<Round, Refusal>
        requires member { r < self.n }
        requires some { 0 < distance }
        requires near { distance ≤ 64 }
        requires is { part ≡ reduce_step self.n r distance }
        ensures ok { IfOk result (λ round. round ≡ moves self.len r distance part) }
        ensures refusal { IsOkUnless result Refusal.NoMemory }
    {
        match part {
            ReduceStep::SendsToParent => one_action(
                alloc,
                Action::Send {
                    to: r - distance,
                    from: Region::front(self.len),
                },
            ),
            ReduceStep::ReceivesFromChild => one_action(
                alloc,
                Action::Recv {
                    of: r + distance,
                    into: Region::behind(self.len),
                },
            ),
            ReduceStep::Rests => Ok(Round::new(alloc)),
        }
    }

    // The round in which what was taken is combined, as the right operand, with what the member holds.
    fn combines(self, alloc: Global, part: ReduceStep) -> Result<Round, Refusal>
        ensures ok { IfOk result (λ round. round ≡ combines self.op self.ty self.len part) }
        ensures refusal { IsOkUnless result Refusal.NoMemory }
    {
        match part {
            ReduceStep::ReceivesFromChild => one_action(
                alloc,
                Action::Combine {
                    op: self.op,
                    ty: self.ty,
                    left: Region::front(self.len),
                    right: Region::behind(self.len),
                    into: Region::front(self.len),
                },
            ),
            ReduceStep::SendsToParent | ReduceStep::Rests => Ok(Round::new(alloc)),
        }
    }
}
