//! What stands in a place of posting lists, as C reads it.

ghost use Rattle.std.specs.Prelude.{◌≡◌};
ghost use Rattle.worzsunab.specs.Posted.{posted_of};

use crate::call::Call;
use coll_kinds::{MAX_RANKS, Mode, Signature};

/// What all members agree on at one place.
#[repr(C)]
#[derive(Clone, Copy)]
pub struct Posted {
    pub call: Call,
    pub persistent: bool,
    /// Of an allgatherv, the elements that each member gives; else 0.
    pub counts: [u32; MAX_RANKS],
}

impl Posted {
    pub fn of(sig: &Signature) -> Posted
        ensures { result ≡ posted_of sig.now }
    {
        Posted {
            call: Call::of(sig.kind, sig.op, sig.ty, sig.root, sig.count),
            persistent: matches!(sig.mode, Mode::Persistent),
            counts: sig.each.unwrap_or([0; MAX_RANKS]),
        }
    }
}
