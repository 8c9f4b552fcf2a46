//! Starts of lists of requests.

ghost use Rattle.std.specs.Prelude.{◌≡◌, ◌<◌, IfErr, OnErr, OnOk, length, slice_get, take, Some};
ghost use Rattle.coll_core.specs.Cores.{seen, setting};
ghost use Rattle.coll_complete.specs.Starting.{StartsAll};
ghost use Rattle.coll_serial.specs.Lists.{IsStopped, begun_of};

use crate::engine::Engine;
use crate::part::{Part, bytes_of};
use crate::stopped::Stopped;

impl Engine {
    /// Starts the requests of a list in rising position (`MPI_Startall`; MPI 4.1, 3.9). Copies the
    /// bytes of each request's span of `given`.
    ///
    /// # Errors
    ///
    /// The first refusal, as `start` returns it, with its position. The requests before it stay
    /// started.
    pub fn start_all(&mut self, rank: u8, parts: &[Part], given: &[u8]) -> Result<(), Stopped>
        ensures setting { setting self.new ≡ setting self.old }
        ensures starts { OnOk result (StartsAll (setting self.old) rank (seen self.old) (begun_of parts.now given.now) (seen self.new)) }
        ensures stopped { IfErr result (IsStopped (setting self.old) rank (seen self.old) (begun_of parts.now given.now) (seen self.new)) }
    {
        for (at, part) in parts.iter().enumerate() {
            if let Err(why) = self.start(rank, &part.request(), bytes_of(part, given)) {
                return Err(Stopped { at, why });
            }
        }
        Ok(())
    }
}
