ghost use Rattle.std.specs.Prelude.{◌≡◌, ◌<◌, ◌^◌, length, IfErr, IfOk};
ghost use Rattle.coll_traced.specs.Prepared.{IsPreparedFor};

use coll_bytes::Bytes;
use coll_core::{Contribution, Laid, Offer};
use coll_kinds::Refusal;
use std::alloc::Global;

/// The memory of a post: a second owner of the contribution, for the trace, and the schedule's
/// buffer with the contribution in it.
#[derive(Drop)]
pub struct Prepared {
    pub(crate) bytes: Bytes,
    pub(crate) laid: Laid,
}

/// Returns a second owner of the contribution, for the trace. A contribution longer than any
/// collective takes has none.
pub(crate) fn shared(alloc: Global, given: &mut Contribution) -> Result<Bytes, Refusal>
    ensures shared { IfOk result (λ bytes. length given.old < 2 ^ 32 → bytes ≡ given.old) }
    ensures refused { IfErr result (λ why. why ≡ Refusal.NoMemory) }
    ensures same { given.new ≡ given.old }
{
    if given.len() > u32::MAX as usize {
        return Ok(Bytes::empty());
    }
    given.share(alloc)
}

impl Prepared {
    /// Takes a post's memory, before the lock is taken.
    #[inline(always)]
    pub fn of(alloc: Global, offer: &mut Offer) -> Result<Prepared, Refusal>
        ensures prepared { IfOk result (IsPreparedFor offer.old) }
        ensures refused { IfErr result (λ why. why ≡ Refusal.NoMemory) }
        ensures same { offer.new ≡ offer.old }
    {
        let bytes = shared(alloc, &mut offer.bytes)?;
        let laid = offer.lay_in(alloc)?;
        Ok(Prepared { bytes, laid })
    }
}
