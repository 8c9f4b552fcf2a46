ghost use Rattle.std.specs.Prelude.{◌≡◌, IfSome};

use coll_bytes::{Bytes, FEW};
use coll_ops::are_same;

/// The number of owners of a block that no earlier entry has: the caller that completes the
/// request, and the entry of that completion.
const OWN: usize = 2;

/// The last bytes of the trace that later entries may share. Members of an alltoall may get the same
/// bytes, each in memory of its own, so the trace keeps one copy by comparing them. An outcome whose
/// block already has other owners isn't compared, since the trace keeps it once anyway: the members
/// of a bcast, an allgather or an allreduce share blocks.
#[derive(Drop)]
pub(crate) struct Recent {
    bytes: Option<Bytes>,
}

impl Recent {
    /// Returns the record for an empty trace.
    pub(crate) fn new() -> Self {
        Recent { bytes: None }
    }

    /// Keeps bytes that the trace is about to take in, if entries can share them.
    #[inline(always)]
    pub(crate) fn remember(&mut self, bytes: &Bytes) {
        if let Some(shared) = bytes.share_counted() {
            self.bytes = Some(shared);
        }
    }

    /// Returns the kept bytes, if they equal the outcome's and lie in another block.
    fn find(&self, outcome: &Bytes) -> Option<Bytes>
        ensures { IfSome result (λ bytes. bytes ≡ outcome.now) }
    {
        let Some(bytes) = &self.bytes else {
            return None;
        };
        if bytes.len() != outcome.len() || !are_same(bytes.as_slice(), outcome.as_slice()) {
            return None;
        }
        bytes.share_counted()
    }

    /// Returns an outcome's bytes for the trace: the kept ones if they are equal, else the
    /// outcome's own. Takes no memory. Bytes in place have no block to share.
    #[inline(always)]
    pub(crate) fn outcome(&mut self, outcome: Bytes) -> Bytes
        ensures { result ≡ outcome }
    {
        if outcome.len() as usize <= FEW {
            return outcome;
        }
        self.long_outcome(outcome)
    }

    /// `outcome` for more than a few bytes.
    fn long_outcome(&mut self, outcome: Bytes) -> Bytes
        ensures { result ≡ outcome }
    {
        if !outcome.has_owners_beyond(OWN) {
            if let Some(bytes) = self.find(&outcome) {
                return bytes;
            }
        }
        self.remember(&outcome);
        outcome
    }
}
