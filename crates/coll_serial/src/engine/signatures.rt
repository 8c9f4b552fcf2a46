//! Queries on posting lists.

ghost use Rattle.std.specs.Prelude.{◌≡◌, option_map};
ghost use Rattle.coll_core.specs.Cores.{seen, setting};
ghost use Rattle.coll_serial.specs.Signatures.{signature_at};

use crate::engine::Engine;
use coll_kinds::Signature;

impl Engine {
    /// Returns the signature at a place of a communicator, on which all members that have the place
    /// agree. None if no member has posted so much, or if there is no such communicator. After a
    /// Mismatch it is the whole signature of the member that the refusal names, with an
    /// allgatherv's counts, which the refusal leaves out. Takes constant time.
    pub fn signature(&self, comm: u32, place: u32) -> Option<&Signature>
        ensures { option_map (λ sig. sig.now) result ≡ signature_at (setting self.now) (seen self.now).state comm place }
    {
        self.core.signature(comm, place)
    }
}
