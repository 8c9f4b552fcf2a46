//! Queries on posting lists.

ghost use Rattle.std.specs.Prelude.{◌≡◌, option_map};
ghost use Rattle.coll_machine.specs.Refusals.{first_there};
ghost use Rattle.coll_machine.specs.Settings.{size};
ghost use Rattle.coll_core.specs.Cores.{seen, setting};

use crate::engine::Core;
use coll_kinds::Signature;

impl Core {
    /// Returns the signature at a place of a communicator. All members that have the place agree on
    /// it. None if no member has posted so much, or if there is no such communicator. After a
    /// Mismatch it is the whole signature of the member that the refusal names, with an
    /// allgatherv's counts, which the refusal leaves out. Takes constant time.
    pub fn signature(&self, comm: u32, place: u32) -> Option<&Signature>
        ensures { option_map (λ sig. sig.now) result
            ≡ option_map (λ first. first.1) (first_there ((seen self.now).state.posts comm) place 0 (size (setting self.now) comm)) }
    {
        self.queues.signature(comm, place)
    }
}
