ghost use Rattle.std.specs.Prelude.{◌≡◌, ◌∷◌, [], cond, IfOk, IsOkUnless};
ghost use Rattle.coll_sched.specs.Regions.{front, nothing};

use coll_kinds::Refusal;
use coll_sched::{Action, Region, Round};
use std::alloc::Global;

/// A round of one action.
pub(crate) fn one_action(alloc: Global, action: Action) -> Result<Round, Refusal>
    ensures ok { IfOk result (λ round. round ≡ action ∷ []) }
    ensures refusal { IsOkUnless result Refusal.NoMemory }
{
    let mut round = Round::new(alloc);
    round.push(action)?;
    Ok(round)
}

/// The first block of a buffer, or nothing.
pub(crate) fn block_if(is_there: bool, len: u32) -> Region
    ensures { result ≡ cond is_there (front len) nothing }
{
    if is_there {
        Region::front(len)
    } else {
        Region::EMPTY
    }
}
