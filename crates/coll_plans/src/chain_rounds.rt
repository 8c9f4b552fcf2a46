ghost use Rattle.std.specs.Prelude.{◌≡◌, ◌<◌, ◌≤◌, ◌^◌, IfOk, IsOkUnless};
ghost use Rattle.coll_trees.specs.Columns.{rounds_of};

use coll_kinds::Refusal;
use coll_sched::{Action, Region, Round};
use coll_trees::{from_root, member_at};
use std::alloc::Global;

/// The bytes of a segment; the last one of a block may be shorter.
pub(crate) const SEGMENT_LEN: u32 = 16_384;

/// The chain along which a block goes in segments, from the root to the next member and so on round.
#[derive(Clone, Copy, Debug)]
pub(crate) struct Chain {
    /// How many members there are.
    pub n: u8,
    /// The root's member number.
    pub root: u8,
    /// The bytes of the block.
    pub len: u32,
    ghost root_low: { root < n },
    ghost few: { n ≤ 64 },
    ghost many: { 2 ≤ n },
    ghost short: { len ≤ 2 ^ 19 },
}

impl Chain {
    ghost use Rattle.coll_plans.specs.ChainBcast.{segment_count, segment, is_passing, relay_of, relaying, relay_count};

    /// The rounds of member `r`.
    pub fn rounds(self, alloc: Global, r: u8) -> Result<Vec<Round>, Refusal>
        requires { r < self.n }
        ensures ok { IfOk result (λ rounds. rounds.items ≡ rounds_of (relaying self.len self.n self.root 0 (relay_count self.n self.len)) r) }
        ensures refusal { IsOkUnless result Refusal.NoMemory }
    {
        let number = from_root(self.n, self.root, r);
        let count = self.n - 2 + self.segment_count();
        let mut rounds = Vec::with_capacity(alloc, usize::from(count))?;
        for step in 0..count {
            let round = self.relay(alloc, number, step)?;
            rounds.push(round)?;
        }
        Ok(rounds)
    }

    // What the member with that number does in a round: it passes on a segment, and gets the next one.
    fn relay(self, alloc: Global, number: u8, step: u8) -> Result<Round, Refusal>
        requires member { number < self.n }
        requires near { step ≤ 100 }
        ensures ok { IfOk result (λ round. round ≡ relay_of self.len self.n self.root step number) }
        ensures refusal { IsOkUnless result Refusal.NoMemory }
    {
        let mut round = Round::new(alloc);
        if self.is_passing(number, step) {
            round.push(Action::Send {
                to: member_at(self.n, self.root, number + 1),
                from: self.segment(step - number),
            })?;
        }
        if number > 0 && self.is_passing(number - 1, step) {
            round.push(Action::Recv {
                of: member_at(self.n, self.root, number - 1),
                into: self.segment(step - (number - 1)),
            })?;
        }
        Ok(round)
    }

    // Whether the member with that number passes on a segment in that round.
    fn is_passing(self, number: u8, step: u8) -> bool
        requires { number < self.n }
        ensures { result ≡ is_passing self.n (segment_count self.len) step number }
    {
        number + 1 < self.n && number <= step && step < number + self.segment_count()
    }

    // Segment i of the block.
    fn segment(self, i: u8) -> Region
        requires { i < segment_count self.len }
        ensures { result ≡ segment self.len i }
    {
        let at = u32::from(i) * SEGMENT_LEN;
        Region {
            at,
            len: SEGMENT_LEN.min(self.len - at),
        }
    }

    // How many segments the block has.
    fn segment_count(self) -> u8
        ensures count { result ≡ segment_count self.len }
        ensures few { result ≤ 32 }
    {
        self.len.div_ceil(SEGMENT_LEN) as u8
    }
}
