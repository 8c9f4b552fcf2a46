ghost use Rattle.std.specs.Prelude.{◌≡◌, ◌<◌, ◌≤◌, ◌^◌, IfOk, IsOkUnless};
ghost use Rattle.coll_trees.specs.Columns.{rounds_of};
ghost use Rattle.coll_trees.specs.Depths.{depth};

use coll_kinds::Refusal;
use coll_sched::{Action, Region, Round};
use coll_trees::depth_of;
use std::alloc::Global;

/// The rounds of an allgather by the algorithm of J. Bruck et al.: the blocks that a member holds double in each step.
#[derive(Clone, Copy, Debug)]
pub(crate) struct Bruck {
    /// How many members there are.
    pub n: u8,
    /// The bytes of a block.
    pub len: u32,
    ghost few: { n ≤ 64 },
    ghost short: { len ≤ 2 ^ 19 },
}

impl Bruck {
    ghost use Rattle.coll_plans.specs.BruckAllgather.{blocks_at, bruck_step, bruck_rounds, rotation};

    /// The rounds of member `r`, one for each step and one of copies.
    pub fn rounds(self, alloc: Global, r: u8) -> Result<Vec<Round>, Refusal>
        requires { r < self.n }
        ensures ok { IfOk result (λ rounds. rounds.items ≡ rounds_of (bruck_rounds self.len self.n 0 (depth self.n)) r) }
        ensures refusal { IsOkUnless result Refusal.NoMemory }
    {
        let steps = depth_of(self.n);
        let mut rounds = Vec::with_capacity(alloc, usize::from(steps) + 1)?;
        for step in 0..steps {
            let round = self.step(alloc, r, 2u8.pow(u32::from(step)))?;
            rounds.push(round)?;
        }
        let last = self.rotation(alloc, r)?;
        rounds.push(last)?;
        Ok(rounds)
    }

    // The round at that distance: what the member before lacks goes there, and as much comes from the member further.
    fn step(self, alloc: Global, r: u8, distance: u8) -> Result<Round, Refusal>
        requires member { r < self.n }
        requires near { distance < self.n }
        ensures ok { IfOk result (λ round. round ≡ bruck_step self.len self.n distance r) }
        ensures refusal { IsOkUnless result Refusal.NoMemory }
    {
        let count = distance.min(self.n - distance);
        let mut round = Round::new(alloc);
        round.push(Action::Send {
            to: (r + (self.n - distance)) % self.n,
            from: self.blocks(0, count),
        })?;
        round.push(Action::Recv {
            of: (r + distance) % self.n,
            into: self.blocks(distance, count),
        })?;
        Ok(round)
    }

    // The round in which the blocks, which begin with the member's own, are copied into member order.
    fn rotation(self, alloc: Global, r: u8) -> Result<Round, Refusal>
        requires { r < self.n }
        ensures ok { IfOk result (λ round. round ≡ rotation self.len self.n r) }
        ensures refusal { IsOkUnless result Refusal.NoMemory }
    {
        let mut round = Round::new(alloc);
        round.push(Action::Copy {
            from: self.blocks(0, self.n - r),
            into: self.blocks(self.n + r, self.n - r),
        })?;
        round.push(Action::Copy {
            from: self.blocks(self.n - r, r),
            into: self.blocks(self.n, r),
        })?;
        Ok(round)
    }

    /// So many blocks in a row, from block `first` of the buffer on.
    pub fn blocks(self, first: u8, count: u8) -> Region
        ensures { result ≡ blocks_at self.len first count }
    {
        Region {
            at: u32::from(first) * self.len,
            len: u32::from(count) * self.len,
        }
    }
}
