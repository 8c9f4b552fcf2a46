ghost use Rattle.std.specs.Prelude.{◌≡◌, ◌+◌, ◌*◌, ◌∷◌, [], ◌≤◌, ◌<◌, ◌^◌, None, cond, IfOk, IsOkUnless};
ghost use Rattle.coll_kinds.specs.Checks.{broken};
ghost use Rattle.coll_kinds.specs.Lengths.{block_len};
ghost use Rattle.coll_sched.specs.Regions.{nothing};
ghost use Rattle.coll_plans.specs.DirectFamilies.{all_blocks};

use coll_kinds::{Refusal, Signature};
use coll_sched::{Region, Round};
use std::alloc::Global;

/// The bytes of a block of a checked signature, at most 65,536 elements of 8 bytes.
pub(crate) fn block_bytes(sig: Signature, n: u8) -> u32
    requires { broken sig n ≡ None }
    ensures length { result ≡ block_len sig }
    ensures small { result ≤ 2 ^ 19 }
{
    sig.block_len() as u32
}

/// The bytes of `n` blocks of `len` bytes.
pub(crate) fn all_bytes(n: u8, len: u32) -> u32
    requires few { n ≤ 64 }
    requires short { len ≤ 2 ^ 19 }
    ensures length { result ≡ n * len }
    ensures small { result ≤ 2 ^ 25 }
{
    u32::from(n) * len
}

/// `n` blocks of `len` bytes from byte `at` on.
pub(crate) fn all_blocks(at: u32, n: u8, len: u32) -> Region
    requires few { n ≤ 64 }
    requires short { len ≤ 2 ^ 19 }
    ensures { result ≡ all_blocks at n len }
{
    Region {
        at,
        len: all_bytes(n, len),
    }
}

/// The same, or nothing.
pub(crate) fn blocks_if(is_there: bool, at: u32, n: u8, len: u32) -> Region
    requires few { n ≤ 64 }
    requires short { len ≤ 2 ^ 19 }
    ensures { result ≡ cond is_there (all_blocks at n len) nothing }
{
    if is_there {
        all_blocks(at, n, len)
    } else {
        Region::EMPTY
    }
}

/// The bytes of a block, and at the root those of `n` more.
pub(crate) fn size_at(is_root: bool, n: u8, len: u32) -> u32
    requires few { n ≤ 64 }
    requires short { len ≤ 2 ^ 19 }
    ensures { result ≡ cond is_root (len + n * len) len }
{
    if is_root {
        len + all_bytes(n, len)
    } else {
        len
    }
}

/// A list of one round, with room for `count` in all.
pub(crate) fn first_round(alloc: Global, count: usize, round: Round) -> Result<Vec<Round>, Refusal>
    ensures ok { IfOk result (λ rounds. rounds.items ≡ round ∷ []) }
    ensures refusal { IsOkUnless result Refusal.NoMemory }
{
    let mut rounds = Vec::with_capacity(alloc, count)?;
    rounds.push(round)?;
    Ok(rounds)
}
