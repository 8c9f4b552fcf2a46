//! The test of one request, whose outcome goes into the caller's memory.

ghost use Rattle.std.specs.Prelude.{◌≡◌, ◌≤◌, IfErr, IfOk, OnErr, OnOk, false, length};
ghost use Rattle.coll_core.specs.Cores.{seen, setting};
ghost use Rattle.coll_complete.specs.Requests.{is_done, is_pending, left_of};
ghost use Rattle.coll_serial.specs.Calls.{Completes, DeniesTest, Fills, Takes};
ghost use Rattle.coll_serial.specs.Lengths.{RoomFor};
ghost use Rattle.coll_serial.specs.Tests.{IfCompleted, IfTaken, is_completed, is_taken, is_unfinished, is_untaken};

use crate::engine::Engine;
use crate::taken::Taken;
use crate::test::Test;
use coll_complete::{Request, Tested, test};
use coll_core::Phase;
use coll_core::laws::lock_is_free;
use coll_kinds::Refusal;

impl Engine {
    /// Completes a request if it is Done (`MPI_Test`; MPI 4.1, 3.7.3). Writes its outcome to the
    /// front of `out`; a once request becomes null. Takes no memory.
    ///
    /// # Errors
    ///
    /// In this order, with nothing changed: Stale if the request isn't live; NotYours if it is
    /// another rank's; BadLength if it is Done and its outcome is longer than `out`.
    pub fn test(&mut self, rank: u8, request: &mut Request, out: &mut [u8]) -> Result<Test, Refusal>
        ensures setting { setting self.new ≡ setting self.old }
        ensures refused { IfErr result (DeniesTest (setting self.old) (seen self.old) rank request.old (length out.old)) }
        ensures err { OnErr result ((self.new ≡ self.old) × (request.new ≡ request.old) × (out.new ≡ out.old)) }
        ensures pending { IfOk result (λ test. is_unfinished test ≡ is_pending (seen self.old) request.old) }
        ensures completed { IfOk result (λ test. is_completed test ≡ is_done (seen self.old) request.old) }
        ensures none { IfOk result (λ test. is_completed test ≡ false → (self.new ≡ self.old) × (out.new ≡ out.old)) }
        ensures completes { IfOk result
            (IfCompleted (λ count. Completes (setting self.old) (seen self.old) rank request.old out.old count out.new (seen self.new))) }
        ensures request { OnOk result (request.new ≡ left_of (seen self.old) request.old) }
    {
        match self.take(rank, request, out.len())? {
            Taken::Inactive => Ok(Test::Inactive),
            Taken::Pending => Ok(Test::Pending),
            Taken::Completed(outcome) => {
                lay_out(outcome.bytes.as_slice(), out);
                Ok(Test::Completed(outcome.bytes.len() as usize))
            }
        }
    }

    /// `test` that hands the outcome out, so that it can be copied without a lock, to memory of so many bytes. It takes no memory.
    ///
    /// # Errors
    ///
    /// Those of `test`, with nothing changed.
    pub fn take(&mut self, rank: u8, request: &mut Request, room: usize) -> Result<Taken, Refusal>
        ensures setting { setting self.new ≡ setting self.old }
        ensures refused { IfErr result (DeniesTest (setting self.old) (seen self.old) rank request.old room) }
        ensures err { OnErr result ((self.new ≡ self.old) × (request.new ≡ request.old)) }
        ensures pending { IfOk result (λ taken. is_untaken taken ≡ is_pending (seen self.old) request.old) }
        ensures completed { IfOk result (λ taken. is_taken taken ≡ is_done (seen self.old) request.old) }
        ensures none { IfOk result (λ taken. is_taken taken ≡ false → self.new ≡ self.old) }
        ensures takes { IfOk result (IfTaken (λ outcome. Takes (setting self.old) (seen self.old) rank request.old room outcome (seen self.new))) }
        ensures request { OnOk result (request.new ≡ left_of (seen self.old) request.old) }
    {
        self.check_room(rank, request, room)?;
        lock_is_free(&self.core);
        let Tested { flag, outcome } = test(&mut self.core, rank, request)?;
        let Some(outcome) = outcome else {
            return Ok(Taken::without_outcome(flag));
        };
        Ok(Taken::Completed(outcome))
    }

    /// Refuses memory that is too short for the outcome of a request that is Done.
    fn check_room(&self, rank: u8, request: &Request, room: usize) -> Result<(), Refusal>
        ensures refused { IfErr result (DeniesTest (setting self.now) (seen self.now) rank request.now room) }
        ensures room { OnOk result (RoomFor (setting self.now) (seen self.now) request.now room) }
    {
        let Some(ticket) = request.ticket() else {
            return Ok(());
        };
        let Phase::Done = self.core.phase(rank, ticket)? else {
            return Ok(());
        };
        let want = self.outcome_lengths[ticket.slot as usize];
        if room < want as usize {
            return Err(Refusal::BadLength { want, got: room });
        }
        Ok(())
    }
}

/// Copies an outcome to the front of memory.
fn lay_out(outcome: &[u8], out: &mut [u8])
    requires { length outcome.now ≤ length out.old }
    ensures { Fills out.old out.new outcome.now }
{
    out[..outcome.len()].copy_from_slice(outcome);
}
