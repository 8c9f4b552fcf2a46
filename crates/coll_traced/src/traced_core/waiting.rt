//! What a waiting port asks: whether its wait is over, and else what to note for it.

ghost use Rattle.std.specs.Prelude.{◌≡◌, ◌+◌, ◌<◌, ◌≤◌, ◌∷◌, ◌++◌, [], IfErr, IfOk, IfSome, IsNone, None, OnErr, Some, false, length, slice_set};
ghost use Rattle.std.specs.Prelude.{true, vec_capacity, vec_len};
ghost use Rattle.std.specs.Bool.{OnTrue};
ghost use Rattle.std.specs.Result.{result_err};
ghost use Rattle.coll_core.specs.Cores.{seen, setting};
ghost use Rattle.coll_complete.specs.Requests.{AreDistinct, list_refusal};
ghost use Rattle.coll_traced.specs.Awaiting.{IsUnfinished, IsUnmet, NeedsNoWait, WaitsFor, one_in};
ghost use Rattle.coll_traced.specs.Tests.{RefusesList, RefusesOne, TestsAll, TestsAny, TestsOne, TestsSome, any_of};
ghost use Rattle.coll_traced.specs.Unfinished.{WasUnfinished};
ghost use Rattle.coll_traced.specs.Waits.{Awake, ForOne};

use crate::awaited::Awaited;
use crate::port_wait::last_pending;
use crate::tally::{Entries, Tally};
use crate::trace::Receipts;
use crate::traced_core::{Completed, TracedCore};
use crate::waiting::Waiting;
use coll_complete::{Any, Request, Survey};
use coll_core::Outcome;
use coll_kinds::{Refusal, Ticket};

impl<L: Entries> TracedCore<L> {
    /// `tested_some`, unless some request is active and none is Done. Then it returns None and
    /// changes nothing.
    pub fn waited_some(
        &mut self,
        mine: &mut Tally<L>,
        rank: u8,
        requests: &mut [Request],
        out: &mut Vec<(usize, Outcome)>,
    ) -> Result<Option<(Option<usize>, Receipts)>, Refusal>
        requires made { mine.old ≤ length self.old.entries }
        requires distinct { AreDistinct requests.old }
        requires room { vec_len out.old + length requests.old ≤ vec_capacity out.old }
        ensures waits { (self.new.waits ≡ self.old.waits) × (self.new.stalled ≡ self.old.stalled) }
        ensures told { IfOk result
            (λ found. IfSome found (λ r. TestsSome L.setting mine.old rank requests.old requests.new out.old.items out.new.items r.0 r.1)) }
        ensures some { IfOk result (λ found. IfSome found (λ r. IfSome r.0 (λ n. 0 < n))) }
        ensures counted { IfOk result (λ found. IfSome found (λ r. IfSome r.0 (λ n. mine.new ≡ mine.old + n))) }
        ensures inactive { IfOk result (λ found. IfSome found (λ r. r.0 ≡ None → mine.new ≡ mine.old)) }
        ensures unfinished { IfOk result (λ found. IsNone found → IsUnfinished (seen self.old.core) requests.old) }
        ensures moment { IfOk result (λ found. IsNone found → WasUnfinished L.setting mine.old rank requests.old) }
        ensures pending { IfOk result
            (λ found. IsNone found → (self.new ≡ self.old) × (requests.new ≡ requests.old) × (out.new ≡ out.old) × (mine.new ≡ mine.old)) }
        ensures refusal { result_err result ≡ list_refusal (setting self.old.core) (seen self.old.core).state rank requests.old }
        ensures refused { IfErr result (λ why. RefusesList L.setting mine.old rank requests.old (Some why)) }
        ensures err { OnErr result ((requests.new ≡ requests.old) × (out.new ≡ out.old) × (mine.new ≡ mine.old)) }
    {
        self.keeps_legal();
        let survey = match Survey::of(self, rank, requests) {
            Ok(survey) => survey,
            Err(why) => return Err(why),
        };
        if survey.active && survey.done.is_none() {
            return Ok(None);
        }
        match self.tested_some(mine, rank, requests, out) {
            Ok(answer) => Ok(Some(answer)),
            Err(why) => Err(why),
        }
    }

    /// Notes that a port waits until the request is Done. Returns whether there is a request.
    fn note_one(&mut self, rank: u8, ticket: Option<Ticket>) -> bool
        ensures core { self.new.core ≡ self.old.core }
        ensures entries { self.new.entries ≡ self.old.entries }
        ensures some { IfSome ticket (λ t. (result ≡ true) × (self.new.waits ≡ slice_set self.old.waits rank (ForOne rank t))) }
        ensures none { IsNone ticket → (result ≡ false) × (self.new.waits ≡ self.old.waits) }
        ensures unmarked { OnTrue result (self.new.stalled ≡ slice_set self.old.stalled rank false) }
    {
        match ticket {
            Some(ticket) => {
                self.waits.put(rank, Waiting::ForOne { rank, ticket });
                true
            }
            None => false,
        }
    }

    /// Notes what a port waits for, unless its wait is over already. Returns whether the port has
    /// to wait. If it waits for all requests of a list, the last Pending one is noted.
    ///
    /// # Errors
    ///
    /// NoMemory, for a list with more tickets than the engine has slots, which names some request
    /// twice. The port is awake then.
    pub fn register(&mut self, rank: u8, awaited: Awaited<'_>) -> Result<bool, Refusal>
        ensures core { self.new.core ≡ self.old.core }
        ensures entries { self.new.entries ≡ self.old.entries }
        ensures waits { IfOk result (λ waits. waits ≡ true → WaitsFor (seen self.old.core) rank awaited.entry self.old.waits self.new.waits) }
        ensures needless { IfOk result (λ waits. waits ≡ false → NeedsNoWait self.old.core rank awaited.entry) }
        ensures unmarked { IfOk result (λ waits. waits ≡ true → self.new.stalled ≡ slice_set self.old.stalled rank false) }
        ensures refused { IfErr result (λ why. why ≡ Refusal.NoMemory) }
        ensures err { OnErr result (self.new.waits ≡ slice_set self.old.waits rank Awake) }
    {
        match awaited {
            Awaited::One(request) => Ok(self.note_one(rank, request.ticket())),
            Awaited::All(requests) => {
                let last = last_pending(&self.core, rank, requests);
                Ok(self.note_one(rank, last))
            }
            Awaited::Any(requests) => {
                self.waits.put_list(rank, requests)?;
                Ok(true)
            }
        }
    }

    /// Completes the request that a port waits for, if it waits for exactly one and that one is
    /// Done. The port is awake then. Takes no memory.
    pub fn complete_for(&mut self, mine: &mut Tally<L>, rank: u8) -> Option<Completed<L>>
        ensures setting { setting self.new.core ≡ setting self.old.core }
        ensures rank { IfSome result (λ completed. completed.rank ≡ rank) }
        ensures ticket { IfSome result (λ completed. one_in self.old.waits rank ≡ Some completed.ticket) }
        ensures made { IfSome result (λ completed. completed.made ≡ mine.old) }
        ensures entry { IfSome result (λ completed. self.new.entries ≡ self.old.entries ++ completed.entry ∷ []) }
        ensures awake { IfSome result (λ completed. self.new.waits ≡ slice_set self.old.waits rank Awake) }
        ensures counted { IfSome result (λ completed. mine.new ≡ mine.old + 1) }
        ensures unmet { IsNone result → IsUnmet self.old.core self.old.waits rank }
        ensures none { IsNone result → (self.new ≡ self.old) × (mine.new ≡ mine.old) }
    {
        let ticket = self.waits.one_of(rank)?;
        let before = mine.made();
        self.audit(mine);
        let mut request = Request::of(ticket);
        let (tested, _receipts) = match self.tested(mine, rank, &mut request) {
            Ok(answer) => answer,
            Err(_) => return None,
        };
        let Some(outcome) = tested.outcome else {
            return None;
        };
        self.wake(rank);
        Some(Completed::new(rank, ticket, before, !request.is_null(), outcome))
    }
}
