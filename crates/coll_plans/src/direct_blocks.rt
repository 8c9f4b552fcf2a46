ghost use Rattle.std.specs.Prelude.{◌≡◌, ◌<◌, ◌≤◌, ◌^◌};

use coll_sched::Region;

/// Blocks of one length in a member's buffer, one for each member: that of member `p` begins at byte
/// `at + p * step`. Where the step is 0, all members have the same block.
#[derive(Clone, Copy, Debug)]
pub(crate) struct Blocks {
    pub at: u32,
    pub step: u32,
    /// The bytes of a block.
    pub len: u32,
}

impl Blocks {
    ghost use Rattle.coll_plans.specs.DirectExchange.{place};
    ghost use Rattle.coll_plans.specs.DirectFamilies.{one_block, blocks_from};

    /// One block of `len` bytes at the front, the same for all members.
    pub fn one(len: u32) -> Self
        ensures { result ≡ one_block len }
    {
        Blocks {
            at: 0,
            step: 0,
            len,
        }
    }

    /// A block of `len` bytes for each member, one after the other from byte `at` on.
    pub fn each(at: u32, len: u32) -> Self
        ensures { result ≡ blocks_from at len }
    {
        Blocks { at, step: len, len }
    }

    /// The block of member `p`.
    pub fn place(self, p: u8) -> Region
        requires few { p < 64 }
        requires near { self.at < 2 ^ 31 }
        requires short { self.step ≤ 2 ^ 24 }
        ensures { result ≡ place self p }
    {
        Region {
            at: self.at + u32::from(p) * self.step,
            len: self.len,
        }
    }
}
