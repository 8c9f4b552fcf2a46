ghost use Rattle.std.specs.Prelude.{◌≡◌, ◌++◌, ◌<◌, ◌≤◌, ◌^◌, IfOk, OnOk, IsOkUnless};
ghost use Rattle.coll_trees.specs.Columns.{rounds_of};
ghost use Rattle.coll_sched.specs.Regions.{front, behind};

use crate::recursive_doubling_fold::FoldPart;
use crate::recursive_doubling_hypercube::{Hypercube, is_before};
use coll_kinds::{Datatype, Op, Refusal};
use coll_sched::{Action, Region, Round};
use std::alloc::Global;

/// The rounds of an allreduce by recursive doubling: the odd members of pairs fold, the corners of a hypercube exchange what
/// they hold, and the odd members get the result.
#[derive(Clone, Copy, Debug)]
pub(crate) struct RecursiveDoubling {
    pub op: Op,
    pub ty: Datatype,
    pub cube: Hypercube,
    /// The bytes of a block.
    pub len: u32,
    ghost small: { len < 2 ^ 30 },
}

impl RecursiveDoubling {
    ghost use Rattle.coll_sched.specs.declared.action.Action.TheVariants.{Combine};
    ghost use Rattle.coll_plans.specs.RecursiveDoublingHypercube.{fold_part, lowest, across};
    ghost use Rattle.coll_plans.specs.RecursiveDoubling.{fold_gives, fold_joins, exchanges, joins_by, tells, hypercube_rounds, recursive_doubling};

    /// The rounds of member `r`: two of the fold, two for each dimension, and one in which the odd
    /// members of pairs get the result.
    pub fn rounds(self, alloc: Global, r: u8) -> Result<Vec<Round>, Refusal>
        requires { r < 64 }
        ensures ok { IfOk result (λ rounds. rounds.items ≡ rounds_of (recursive_doubling self.op self.ty self.len self.cube.extra self.cube.dimension) r) }
        ensures refusal { IsOkUnless result Refusal.NoMemory }
    {
        let part = FoldPart::new(self.cube.extra, r);
        let mut rounds = Vec::with_capacity(alloc, 2 * usize::from(self.cube.dimension) + 3)?;
        let give = self.fold_gives(alloc, r, part)?;
        rounds.push(give)?;
        let join = self.fold_joins(alloc, part)?;
        rounds.push(join)?;
        self.push_exchanges(alloc, r, &mut rounds)?;
        let tell = self.tells(alloc, r, part)?;
        rounds.push(tell)?;
        Ok(rounds)
    }

    // Appends the rounds of the exchanges, two for each dimension.
    fn push_exchanges(self, alloc: Global, r: u8, rounds: &mut Vec<Round>) -> Result<(), Refusal>
        requires { r < 64 }
        ensures ok { OnOk result
            (rounds.new.items ≡ rounds.old.items ++ rounds_of (hypercube_rounds self.op self.ty self.len self.cube.extra 0 self.cube.dimension) r) }
        ensures refusal { IsOkUnless result Refusal.NoMemory }
    {
        let part = FoldPart::new(self.cube.extra, r);
        let corner = self.cube.corner(r);
        for step in 0..self.cube.dimension {
            let distance = 2u8.pow(u32::from(step));
            let exchange = self.exchanges(alloc, corner, distance, part)?;
            rounds.push(exchange)?;
            let join = self.joins(alloc, corner, distance, part)?;
            rounds.push(join)?;
        }
        Ok(())
    }

    // The odd member of a pair, the upper one, gives its row to the even one.
    fn fold_gives(self, alloc: Global, r: u8, part: FoldPart) -> Result<Round, Refusal>
        requires member { r < 64 }
        requires is { part ≡ fold_part self.cube.extra r }
        ensures ok { IfOk result (λ round. round ≡ fold_gives self.len r part) }
        ensures refusal { IsOkUnless result Refusal.NoMemory }
    {
        let mut round = Round::new(alloc);
        match part {
            FoldPart::Lower => round.push(Action::Recv {
                of: r + 1,
                into: Region::behind(self.len),
            })?,
            FoldPart::Upper => round.push(Action::Send {
                to: r - 1,
                from: Region::front(self.len),
            })?,
            FoldPart::Alone => {}
        }
        Ok(round)
    }

    // The even one combines it as the right operand of its own.
    fn fold_joins(self, alloc: Global, part: FoldPart) -> Result<Round, Refusal>
        ensures ok { IfOk result (λ round. round ≡ fold_joins self.op self.ty self.len part) }
        ensures refusal { IsOkUnless result Refusal.NoMemory }
    {
        let mut round = Round::new(alloc);
        if matches!(part, FoldPart::Lower) {
            round.push(self.behind_own())?;
        }
        Ok(round)
    }

    // A corner gives what it holds, and gets what the corner across holds.
    fn exchanges(
        self,
        alloc: Global,
        corner: u8,
        distance: u8,
        part: FoldPart,
    ) -> Result<Round, Refusal>
        requires low { corner ≤ 64 }
        requires some { 0 < distance }
        requires near { distance ≤ 32 }
        ensures ok { IfOk result (λ round. round ≡ exchanges self.len (lowest self.cube.extra (across corner distance)) part) }
        ensures refusal { IsOkUnless result Refusal.NoMemory }
    {
        let mut round = Round::new(alloc);
        if !matches!(part, FoldPart::Upper) {
            let mate = self.cube.mate(corner, distance);
            round.push(Action::Send {
                to: mate,
                from: Region::front(self.len),
            })?;
            round.push(Action::Recv {
                of: mate,
                into: Region::behind(self.len),
            })?;
        }
        Ok(round)
    }

    // What came joins what the corner holds, in member order.
    fn joins(
        self,
        alloc: Global,
        corner: u8,
        distance: u8,
        part: FoldPart,
    ) -> Result<Round, Refusal>
        requires some { 0 < distance }
        requires near { distance ≤ 32 }
        ensures ok { IfOk result (λ round. round ≡ joins_by self.op self.ty self.len corner distance part) }
        ensures refusal { IsOkUnless result Refusal.NoMemory }
    {
        let mut round = Round::new(alloc);
        if !matches!(part, FoldPart::Upper) {
            if is_before(corner, distance) {
                round.push(self.behind_own())?;
            } else {
                round.push(self.before_own())?;
            }
        }
        Ok(round)
    }

    // The even member of a pair sends the result to the odd one.
    fn tells(self, alloc: Global, r: u8, part: FoldPart) -> Result<Round, Refusal>
        requires member { r < 64 }
        requires is { part ≡ fold_part self.cube.extra r }
        ensures ok { IfOk result (λ round. round ≡ tells self.len r part) }
        ensures refusal { IsOkUnless result Refusal.NoMemory }
    {
        let mut round = Round::new(alloc);
        match part {
            FoldPart::Lower => round.push(Action::Send {
                to: r + 1,
                from: Region::front(self.len),
            })?,
            FoldPart::Upper => round.push(Action::Recv {
                of: r - 1,
                into: Region::front(self.len),
            })?,
            FoldPart::Alone => {}
        }
        Ok(round)
    }

    // What came is the right operand.
    fn behind_own(self) -> Action
        ensures { result ≡ Combine self.op self.ty (front self.len) (behind self.len) (front self.len) }
    {
        Action::Combine {
            op: self.op,
            ty: self.ty,
            left: Region::front(self.len),
            right: Region::behind(self.len),
            into: Region::front(self.len),
        }
    }

    // What came is the left operand.
    fn before_own(self) -> Action
        ensures { result ≡ Combine self.op self.ty (behind self.len) (front self.len) (front self.len) }
    {
        Action::Combine {
            op: self.op,
            ty: self.ty,
            left: Region::behind(self.len),
            right: Region::front(self.len),
            into: Region::front(self.len),
        }
    }
}
