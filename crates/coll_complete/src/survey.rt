//! What a list of requests has.

ghost use Rattle.std.specs.Prelude.{◌≡◌, ◌||◌, IfOk, None, Some, position, if◌then◌else◌};
ghost use Rattle.std.specs.List.{list_any};
ghost use Rattle.std.specs.Option.{option_or};
ghost use Rattle.std.specs.Result.{result_err};
ghost use Rattle.coll_complete.specs.Requests.{active_by, done_by, is_active, is_done, is_pending, list_refusal, phase_at, refusal_at, pending_by};

use crate::request::Request;
use crate::requests::Requests;
use coll_core::Phase;
use coll_kinds::Refusal;

/// What a list of requests has.
#[derive(Clone, Copy)]
pub struct Survey {
    /// The lowest position of a Done request.
    pub done: Option<usize>,
    /// Whether a request is Pending or Done.
    pub active: bool,
    /// Whether a request is Pending.
    pub pending: bool,
}

/// How far a request is; none where it is null.
fn phase<C: Requests>(core: &C, rank: u8, request: &Request) -> Result<Option<Phase>, Refusal>
    ensures refused { result_err result ≡ refusal_at (C.setting core.now) (C.machine core.now).state rank request.now }
    ensures phase { IfOk result (λ phase. phase ≡ phase_at (C.machine core.now) request.now) }
{
    let Some(ticket) = request.ticket() else {
        return Ok(None);
    };
    match core.phase(rank, ticket) {
        Ok(phase) => Ok(Some(phase)),
        Err(why) => Err(why),
    }
}

impl Survey {
    /// Checks each request in rising position.
    ///
    /// # Errors
    ///
    /// Those of the first request that has one: Stale if a ticket names no live request, NotYours
    /// if it names another rank's.
    pub fn of<C: Requests>(core: &C, rank: u8, requests: &[Request]) -> Result<Survey, Refusal>
        ensures refused { result_err result ≡ list_refusal (C.setting core.now) (C.machine core.now).state rank requests.now }
        ensures done { IfOk result (λ survey. survey.done ≡ position (is_done (C.machine core.now)) requests.now) }
        ensures active { IfOk result (λ survey. survey.active ≡ list_any (is_active (C.machine core.now)) requests.now) }
        ensures pending { IfOk result (λ survey. survey.pending ≡ list_any (is_pending (C.machine core.now)) requests.now) }
    {
        let mut survey = Survey {
            done: None,
            active: false,
            pending: false,
        };
        for (position, request) in requests.iter().enumerate() {
            survey.add(position, phase(core, rank, request)?);
        }
        Ok(survey)
    }

    /// Notes how far the request at the next position is.
    fn add(&mut self, position: usize, phase: Option<Phase>)
        ensures done { self.new.done ≡ option_or self.old.done (if done_by phase then Some position else None) }
        ensures active { self.new.active ≡ (self.old.active || active_by phase) }
        ensures pending { self.new.pending ≡ (self.old.pending || pending_by phase) }
    {
        match phase {
            None | Some(Phase::Idle) => {}
            Some(Phase::Pending) => {
                self.active = true;
                self.pending = true;
            }
            Some(Phase::Done) => {
                self.done = self.done.or(Some(position));
                self.active = true;
            }
        }
    }
}
