//! Tests of lists of requests, whose outcomes go into the caller's memory.

ghost use Rattle.std.specs.Prelude.{◌≡◌, if◌then◌else◌, IfErr, IfNone, IfOk, IfSome, None, OnErr, OnSome, Some, is_some, length, not, position, true};
ghost use Rattle.std.specs.Bool.{OnFalse, OnTrue};
ghost use Rattle.std.specs.List.{list_any};
ghost use Rattle.coll_core.specs.Cores.{seen, setting};
ghost use Rattle.coll_complete.specs.Completing.{done_positions};
ghost use Rattle.coll_complete.specs.Requests.{AreDistinct, is_active, is_done, is_pending, list_refusal, refusal_at};
ghost use Rattle.coll_serial.specs.Lists.{CompletesOne, CompletesPart, CompletesParts, DeniesTests, DoFit, Fits, is_undefined, position_of};
ghost use Rattle.coll_serial.specs.Parts.{ticket_of, tickets_of};

use crate::engine::Engine;
use crate::first::First;
use crate::part::Part;
use crate::test::Test;
use coll_kinds::Refusal;

impl Engine {
    /// Completes the lowest Done request of a list (`MPI_Testany`; MPI 4.1, 3.7.5). Writes its
    /// outcome to the front of its span of `out`; a once request becomes null. Null and Idle
    /// requests are inactive. Takes no memory.
    ///
    /// # Errors
    ///
    /// In this order, with nothing changed: Stale if a request isn't live, or NotYours if it is
    /// another rank's, whichever comes first in the list; BadLength if the outcome to be completed
    /// is longer than its span.
    pub fn test_any(
        &mut self,
        rank: u8,
        parts: &mut [Part],
        out: &mut [u8],
    ) -> Result<First, Refusal>
        ensures setting { setting self.new ≡ setting self.old }
        ensures refused { IfErr result (DeniesTests (setting self.old) (seen self.old) rank parts.old (length out.old)) }
        ensures err { OnErr result ((self.new ≡ self.old) × (parts.new ≡ parts.old) × (out.new ≡ out.old)) }
        ensures undefined { IfOk result (λ first. is_undefined first ≡ not (list_any (is_active (seen self.old)) (tickets_of parts.old))) }
        ensures lowest { IfOk result (λ first. position_of first ≡ position (is_done (seen self.old)) (tickets_of parts.old)) }
        ensures none { IfOk result (λ first. IfNone (position_of first) ((self.new ≡ self.old) × (parts.new ≡ parts.old) × (out.new ≡ out.old))) }
        ensures completes { IfOk result
            (λ first. IfSome (position_of first)
            (λ position. CompletesOne (setting self.old) rank (seen self.old) (seen self.new) position parts.old parts.new out.old out.new)) }
    {
        let survey = self.survey(rank, parts)?;
        let Some(position) = survey.done else {
            return Ok(if survey.active {
                First::Unfinished
            } else {
                First::Undefined
            });
        };
        self.check_span(rank, &parts[position], out.len())?;
        self.complete_part(rank, &mut parts[position], out);
        Ok(First::At(position))
    }

    /// Completes all Done requests of a list in rising position (`MPI_Testsome`; MPI 4.1, 3.7.5).
    /// Writes each outcome to the front of its request's span of `out`; once requests become null.
    /// Returns how many there were; None if no request is active. Null and Idle requests are
    /// inactive. Takes no memory.
    ///
    /// # Errors
    ///
    /// In this order, with nothing changed: Stale if a request isn't live, or NotYours if it is
    /// another rank's, whichever comes first in the list; BadLength with the first outcome that is
    /// longer than its span.
    pub fn test_some(
        &mut self,
        rank: u8,
        parts: &mut [Part],
        out: &mut [u8],
    ) -> Result<Option<usize>, Refusal>
        requires distinct { AreDistinct (tickets_of parts.old) }
        ensures setting { setting self.new ≡ setting self.old }
        ensures refused { IfErr result (DeniesTests (setting self.old) (seen self.old) rank parts.old (length out.old)) }
        ensures err { OnErr result ((self.new ≡ self.old) × (parts.new ≡ parts.old) × (out.new ≡ out.old)) }
        ensures undefined { IfOk result (λ count. is_some count ≡ list_any (is_active (seen self.old)) (tickets_of parts.old)) }
        ensures inactive { IfOk result (λ count. IfNone count ((self.new ≡ self.old) × (parts.new ≡ parts.old) × (out.new ≡ out.old))) }
        ensures count { IfOk result (λ count. IfSome count (λ n. n ≡ length (done_positions (seen self.old) (tickets_of parts.old)))) }
        ensures completes { IfOk result
            (λ count. OnSome count (CompletesParts (setting self.old) rank (seen self.old) (seen self.new) parts.old parts.new out.old out.new)) }
    {
        let survey = self.survey(rank, parts)?;
        if !survey.active {
            return Ok(None);
        }
        self.check_spans(rank, parts, out.len())?;
        Ok(Some(self.complete_parts(rank, parts, out)))
    }

    /// Completes all Done requests of a list if none is Pending (`MPI_Testall`; MPI 4.1, 3.7.5), as
    /// `test_some` does. Returns false if one is Pending, true if none is active. Null and Idle
    /// requests are inactive. Takes no memory.
    ///
    /// # Errors
    ///
    /// As `test_some`; BadLength only if no request is Pending.
    pub fn test_all(
        &mut self,
        rank: u8,
        parts: &mut [Part],
        out: &mut [u8],
    ) -> Result<bool, Refusal>
        requires distinct { AreDistinct (tickets_of parts.old) }
        ensures setting { setting self.new ≡ setting self.old }
        ensures refused { IfErr result (DeniesTests (setting self.old) (seen self.old) rank parts.old (length out.old)) }
        ensures err { OnErr result ((self.new ≡ self.old) × (parts.new ≡ parts.old) × (out.new ≡ out.old)) }
        ensures flag { IfOk result (λ flag. flag ≡ not (list_any (is_pending (seen self.old)) (tickets_of parts.old))) }
        ensures unfinished { IfOk result (λ flag. OnFalse flag ((self.new ≡ self.old) × (parts.new ≡ parts.old) × (out.new ≡ out.old))) }
        ensures completes { IfOk result
            (λ flag. OnTrue flag (CompletesParts (setting self.old) rank (seen self.old) (seen self.new) parts.old parts.new out.old out.new)) }
    {
        let survey = self.survey(rank, parts)?;
        if survey.pending {
            return Ok(false);
        }
        self.check_spans(rank, parts, out.len())?;
        let _many = self.complete_parts(rank, parts, out);
        Ok(true)
    }

    /// Completes each request of a list that is Done, in rising position. Returns how many there were.
    fn complete_parts(&mut self, rank: u8, parts: &mut [Part], out: &mut [u8]) -> usize
        requires distinct { AreDistinct (tickets_of parts.old) }
        requires accepted { list_refusal (setting self.old) (seen self.old).state rank (tickets_of parts.old) ≡ None }
        requires fits { DoFit (setting self.old) (seen self.old) parts.old (length out.old) }
        ensures setting { setting self.new ≡ setting self.old }
        ensures count { result ≡ length (done_positions (seen self.old) (tickets_of parts.old)) }
        ensures completes { CompletesParts (setting self.old) rank (seen self.old) (seen self.new) parts.old parts.new out.old out.new }
    {
        let mut many = 0;
        for part in parts.iter_mut() {
            self.complete_part(rank, part, out);
            many += one_if(part.completed);
        }
        many
    }

    /// Completes a request if it is Done.
    fn complete_part(&mut self, rank: u8, part: &mut Part, out: &mut [u8])
        requires accepted { refusal_at (setting self.old) (seen self.old).state rank (ticket_of part.old) ≡ None }
        requires fits { is_done (seen self.old) (ticket_of part.old) ≡ true → Fits (setting self.old) (seen self.old).state part.old (length out.old) }
        ensures setting { setting self.new ≡ setting self.old }
        ensures length { length out.new ≡ length out.old }
        ensures completes { CompletesPart (setting self.old) rank (seen self.old) (seen self.new) part.old part.new out.old out.new }
    {
        let (begin, end) = part.span(out.len());
        let mut request = part.request();
        match self.test(rank, &mut request, &mut out[begin..end]) {
            Ok(Test::Completed(count)) => part.finish(&request, count),
            Ok(_) => part.skip(),
            Err(_) => unreachable!(),
        }
    }
}

/// What a request adds to the number of those that were completed.
fn one_if(completed: bool) -> usize
    ensures { result ≡ (if completed then 1 else 0) }
{
    if completed { 1 } else { 0 }
}
