//! What lists of requests have, before anything is done to them.

ghost use Rattle.std.specs.Prelude.{◌≡◌, ◌||◌, IfErr, IfOk, None, OnOk, Some, if◌then◌else◌, position, true};
ghost use Rattle.std.specs.List.{list_any};
ghost use Rattle.std.specs.Option.{option_or};
ghost use Rattle.std.specs.Result.{result_err};
ghost use Rattle.coll_core.specs.Cores.{seen, setting};
ghost use Rattle.coll_complete.specs.Requests.{active_by, done_by, is_active, is_done, is_pending, list_refusal, pending_by, phase_at, refusal_at};
ghost use Rattle.coll_serial.specs.Calls.{IsShortAt};
ghost use Rattle.coll_serial.specs.Lists.{DoFit, Fits, IsShortIn};
ghost use Rattle.coll_serial.specs.Parts.{span_len, ticket_of, tickets_of};

use crate::engine::Engine;
use crate::part::Part;
use coll_complete::Survey;
use coll_core::Phase;
use coll_kinds::Refusal;

impl Engine {
    /// How far a part's request is; none where it is null.
    fn phase_of(&self, rank: u8, part: &Part) -> Result<Option<Phase>, Refusal>
        ensures refused { result_err result ≡ refusal_at (setting self.now) (seen self.now).state rank (ticket_of part.now) }
        ensures phase { IfOk result (λ phase. phase ≡ phase_at (seen self.now) (ticket_of part.now)) }
    {
        let Some(ticket) = part.request().ticket() else {
            return Ok(None);
        };
        match self.core.phase(rank, ticket) {
            Ok(phase) => Ok(Some(phase)),
            Err(why) => Err(why),
        }
    }

    /// Looks at each request of a list in rising position.
    pub(crate) fn survey(&self, rank: u8, parts: &[Part]) -> Result<Survey, Refusal>
        ensures refused { result_err result ≡ list_refusal (setting self.now) (seen self.now).state rank (tickets_of parts.now) }
        ensures done { IfOk result (λ survey. survey.done ≡ position (is_done (seen self.now)) (tickets_of parts.now)) }
        ensures active { IfOk result (λ survey. survey.active ≡ list_any (is_active (seen self.now)) (tickets_of parts.now)) }
        ensures pending { IfOk result (λ survey. survey.pending ≡ list_any (is_pending (seen self.now)) (tickets_of parts.now)) }
    {
        let mut survey = Survey {
            done: None,
            active: false,
            pending: false,
        };
        for (position, part) in parts.iter().enumerate() {
            add(&mut survey, position, self.phase_of(rank, part)?);
        }
        Ok(survey)
    }

    /// Refuses a span that is too short for the outcome of a request that is Done.
    pub(crate) fn check_span(&self, rank: u8, part: &Part, len: usize) -> Result<(), Refusal>
        ensures refused { IfErr result (IsShortAt (setting self.now) (seen self.now) (ticket_of part.now) (span_len part.now len)) }
        ensures fits { OnOk result
            (is_done (seen self.now) (ticket_of part.now) ≡ true
            → refusal_at (setting self.now) (seen self.now).state rank (ticket_of part.now) ≡ None
            → Fits (setting self.now) (seen self.now).state part.now len) }
    {
        let Some(ticket) = part.request().ticket() else {
            return Ok(());
        };
        let Ok(Phase::Done) = self.core.phase(rank, ticket) else {
            return Ok(());
        };
        let want = self.outcome_lengths[ticket.slot as usize];
        let (begin, end) = part.span(len);
        if end - begin < want as usize {
            return Err(Refusal::BadLength {
                want,
                got: end - begin,
            });
        }
        Ok(())
    }

    /// The same of each request of a list.
    pub(crate) fn check_spans(&self, rank: u8, parts: &[Part], len: usize) -> Result<(), Refusal>
        requires accepted { list_refusal (setting self.now) (seen self.now).state rank (tickets_of parts.now) ≡ None }
        ensures refused { IfErr result (IsShortIn (setting self.now) (seen self.now) parts.now len) }
        ensures fits { OnOk result (DoFit (setting self.now) (seen self.now) parts.now len) }
    {
        for part in parts {
            self.check_span(rank, part, len)?;
        }
        Ok(())
    }
}

/// Notes how far the request at the next position is.
fn add(survey: &mut Survey, position: usize, phase: Option<Phase>)
    ensures done { survey.new.done ≡ option_or survey.old.done (if done_by phase then Some position else None) }
    ensures active { survey.new.active ≡ (survey.old.active || active_by phase) }
    ensures pending { survey.new.pending ≡ (survey.old.pending || pending_by phase) }
{
    match phase {
        None | Some(Phase::Idle) => {}
        Some(Phase::Pending) => {
            survey.active = true;
            survey.pending = true;
        }
        Some(Phase::Done) => {
            survey.done = survey.done.or(Some(position));
            survey.active = true;
        }
    }
}
