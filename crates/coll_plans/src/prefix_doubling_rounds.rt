ghost use Rattle.std.specs.Prelude.{◌≡◌, ◌<◌, ◌≤◌, ◌^◌, IfOk, IsOkUnless};
ghost use Rattle.coll_trees.specs.Columns.{rounds_of};
ghost use Rattle.coll_trees.specs.Depths.{depth};
ghost use Rattle.coll_sched.specs.Regions.{front, behind};

use coll_kinds::{Datatype, Op, Refusal};
use coll_sched::{Action, Region, Round};
use coll_trees::depth_of;
use std::alloc::Global;

/// The doubling of ranges that scan and exscan share.
#[derive(Clone, Copy, Debug)]
pub(crate) struct PrefixDoubling {
    pub op: Op,
    pub ty: Datatype,
    /// How many members there are.
    pub n: u8,
    /// The bytes of a block.
    pub len: u32,
    /// Whether the rows before the member's own are collected too.
    pub exclusive: bool,
    ghost few: { n ≤ 64 },
    ghost small: { len < 2 ^ 30 },
}

impl PrefixDoubling {
    ghost use Rattle.coll_sched.specs.declared.action.Action.TheVariants.{Combine};
    ghost use Rattle.coll_plans.specs.PrefixDoubling.{third, shift, collect, joins, doubling};

    /// The rounds of member `r`, two for each step.
    pub fn rounds(self, alloc: Global, r: u8) -> Result<Vec<Round>, Refusal>
        requires { r < self.n }
        ensures ok { IfOk result
            (λ rounds. rounds.items ≡ rounds_of (doubling self.len self.n (joins self.exclusive self.op self.ty self.len) 0 (depth self.n)) r) }
        ensures refusal { IsOkUnless result Refusal.NoMemory }
    {
        let steps = depth_of(self.n);
        let mut rounds = Vec::with_capacity(alloc, 2 * usize::from(steps))?;
        for step in 0..steps {
            let distance = 2u8.pow(u32::from(step));
            let shift = self.shift(alloc, r, distance)?;
            rounds.push(shift)?;
            let join = self.join(alloc, r, distance)?;
            rounds.push(join)?;
        }
        Ok(rounds)
    }

    // The round in which blocks move up.
    fn shift(self, alloc: Global, r: u8, distance: u8) -> Result<Round, Refusal>
        requires member { r < self.n }
        requires near { distance ≤ 64 }
        ensures ok { IfOk result (λ round. round ≡ shift self.len self.n distance r) }
        ensures refusal { IsOkUnless result Refusal.NoMemory }
    {
        let mut round = Round::new(alloc);
        if r + distance < self.n {
            round.push(Action::Send {
                to: r + distance,
                from: Region::front(self.len),
            })?;
        }
        if distance <= r {
            round.push(Action::Recv {
                of: r - distance,
                into: Region::behind(self.len),
            })?;
        }
        Ok(round)
    }

    // The round in which what came joins in front of what the member holds.
    fn join(self, alloc: Global, r: u8, distance: u8) -> Result<Round, Refusal>
        ensures ok { IfOk result (λ round. round ≡ joins self.exclusive self.op self.ty self.len distance r) }
        ensures refusal { IsOkUnless result Refusal.NoMemory }
    {
        let mut round = Round::new(alloc);
        if r < distance {
            return Ok(round);
        }
        if self.exclusive {
            round.push(self.collect(distance))?;
        }
        round.push(self.combine(Region::front(self.len)))?;
        Ok(round)
    }

    // How it joins in front of the rows before the member's own, of which there are none at distance 1.
    fn collect(self, distance: u8) -> Action
        ensures { result ≡ collect self.op self.ty self.len distance }
    {
        if distance == 1 {
            Action::Copy {
                from: Region::behind(self.len),
                into: self.third(),
            }
        } else {
            self.combine(self.third())
        }
    }

    // The combination of what came, as the left operand, with what the region holds, into that region.
    fn combine(self, held: Region) -> Action
        ensures { result ≡ Combine self.op self.ty (behind self.len) held held }
    {
        Action::Combine {
            op: self.op,
            ty: self.ty,
            left: Region::behind(self.len),
            right: held,
            into: held,
        }
    }

    // Behind what it receives, the rows before its own.
    fn third(self) -> Region
        ensures { result ≡ third self.len }
    {
        Region {
            at: self.len + self.len,
            len: self.len,
        }
    }
}
