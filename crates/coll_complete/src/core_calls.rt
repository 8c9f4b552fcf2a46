//! The completion calls of a core alone, beside which a caller holds nothing.

ghost use Rattle.std.specs.Prelude.{◌≡◌, ◌+◌, ◌<◌, ◌≤◌, [], IfErr, IfNone, IfOk, IfSome, None, OnErr, OnOk, OnSome, is_some, length, map, not};
ghost use Rattle.std.specs.Prelude.{position, slice_index_or, take, vec_capacity, vec_len};
ghost use Rattle.std.specs.Bool.{OnFalse, OnTrue};
ghost use Rattle.std.specs.List.{list_any, zip};
ghost use Rattle.std.specs.Result.{result_err};
ghost use Rattle.coll_machine.specs.Runs.{Runs};
ghost use Rattle.coll_core.specs.Cores.{seen, setting};
ghost use Rattle.coll_complete.specs.Anys.{completion_any, is_undefined, left_at, position_of};
ghost use Rattle.coll_complete.specs.Completing.{CompletesDone, Pushes, completion_if, done_positions, freeing};
ghost use Rattle.coll_complete.specs.Requests.{AreDistinct, free_refusal, is_active, is_done, is_pending, left_of, list_refusal, refusal_at};
ghost use Rattle.coll_complete.specs.Starting.{RefusesAt, StartsAll, unused};

use crate::all::test_all_on;
use crate::any::{Any, test_any_on};
use crate::freeing::request_free_on;
use crate::halted::Halted;
use crate::request::Request;
use crate::requests::Requests;
use crate::some::test_some_on;
use crate::starting::start_all_on;
use crate::tested::Tested;
use crate::testing::test_on;
use coll_core::{About, Contribution, Core, Outcome, Phase};
use coll_kinds::{Refusal, Refused, Ticket};

impl Requests for Core {
    ghost use Rattle.coll_core.specs.Calls.{Refuses};
    ghost use Rattle.coll_core.specs.Cores.{seen, setting as setting_of};
    ghost use Rattle.coll_complete.specs.Doing.{DidOn, did_more_on, did_nothing_on};

    type Own = ();

    ghost setting = { setting_of };

    ghost machine = { seen };

    ghost Did = { λ s a es t b. DidOn s es t };

    ghost Denies = { λ s call why. Refuses (setting_of s) (seen s) call why };

    fn phase(&self, rank: u8, ticket: Ticket) -> Result<Phase, Refusal> {
        Core::phase(self, rank, ticket)
    }

    fn about(&self, ticket: Ticket) -> Option<About> {
        Core::about(self, ticket)
    }

    fn retire(
        &mut self,
        _own: &mut (),
        rank: u8,
        ticket: Ticket,
    ) -> Result<Option<Outcome>, Refusal> {
        Core::retire(self, rank, ticket)
    }

    fn free(&mut self, _own: &mut (), rank: u8, ticket: Ticket) -> Result<(), Refusal> {
        Core::free(self, rank, ticket)
    }

    fn start(
        &mut self,
        _own: &mut (),
        rank: u8,
        ticket: Ticket,
        bytes: Contribution,
    ) -> Result<(), Refused<Contribution>> {
        match Core::start(self, rank, ticket, bytes) {
            Ok(()) => Ok(()),
            Err(refused) => Err(refused),
        }
    }

    ghost did_nothing = { λ s a. did_nothing_on s };

    ghost did_more = { λ s t u a b c es fs h k. did_more_on s t u es fs h k };

    ghost did_runs = { λ s t a b es h. h.1 };
}

/// Completes a request if it is Done (`MPI_Test`; MPI 4.1, 3.7.3). A completed once request becomes
/// null. For a null or Idle request the flag is true, and there is no outcome. Takes no memory.
///
/// # Errors
///
/// Stale if the ticket names no live request, then NotYours if it names another rank's; nothing
/// changes.
pub fn test(core: &mut Core, rank: u8, request: &mut Request) -> Result<Tested, Refusal>
    ensures refused { result_err result ≡ refusal_at (setting core.old) (seen core.old).state rank request.old }
    ensures err { OnErr result ((core.new ≡ core.old) × (request.new ≡ request.old)) }
    ensures setting { setting core.new ≡ setting core.old }
    ensures flag { IfOk result (λ tested. tested.flag ≡ not (is_pending (seen core.old) request.old)) }
    ensures outcome { IfOk result (λ tested. is_some tested.outcome ≡ is_done (seen core.old) request.old) }
    ensures none { IfOk result (λ tested. tested.outcome ≡ None → core.new ≡ core.old) }
    ensures completes { IfOk result (λ tested. Runs (setting core.old) (seen core.old) (completion_if rank request.old tested.outcome) (seen core.new)) }
    ensures request { OnOk result (request.new ≡ left_of (seen core.old) request.old) }
{
    test_on(core, &mut (), rank, request)
}

/// Completes the lowest Done request of a list (`MPI_Testany`; MPI 4.1, 3.7.5). A completed once
/// request becomes null in the list. Null and Idle requests are inactive. Takes no memory.
///
/// # Errors
///
/// Those of the first request that has one, with nothing changed: Stale if a ticket names no live
/// request, NotYours if it names another rank's.
pub fn test_any(core: &mut Core, rank: u8, requests: &mut [Request]) -> Result<Any, Refusal>
    ensures refused { result_err result ≡ list_refusal (setting core.old) (seen core.old).state rank requests.old }
    ensures err { OnErr result ((core.new ≡ core.old) × (requests.new ≡ requests.old)) }
    ensures setting { setting core.new ≡ setting core.old }
    ensures undefined { IfOk result (λ any. is_undefined any ≡ not (list_any (is_active (seen core.old)) requests.old)) }
    ensures lowest { IfOk result (λ any. position_of any ≡ position (is_done (seen core.old)) requests.old) }
    ensures none { IfOk result (λ any. position_of any ≡ None → core.new ≡ core.old) }
    ensures completes { IfOk result (λ any. Runs (setting core.old) (seen core.old) (completion_any rank requests.old any) (seen core.new)) }
    ensures requests { IfOk result (λ any. requests.new ≡ left_at (seen core.old) (position_of any) requests.old) }
{
    test_any_on(core, &mut (), rank, requests)
}

/// Completes all requests of a list that are Done, if no request of it is Pending (`MPI_Testall`; MPI 4.1, 3.7.5), and
/// pushes each position with its outcome to `out`, in rising position: once requests are null in the list then. Null and
/// Idle requests are inactive; the answer is true where none is active. It takes no memory.
///
/// # Errors
///
/// Stale where a ticket names no live request, NotYours where it names another rank's: that of the first such request.
/// Nothing changes.
pub fn test_all(
    core: &mut Core,
    rank: u8,
    requests: &mut [Request],
    out: &mut Vec<(usize, Outcome)>,
) -> Result<bool, Refusal>
    requires distinct { AreDistinct requests.old }
    requires room { vec_len out.old + length requests.old ≤ vec_capacity out.old }
    ensures refused { result_err result ≡ list_refusal (setting core.old) (seen core.old).state rank requests.old }
    ensures err { OnErr result ((core.new ≡ core.old) × (requests.new ≡ requests.old) × (out.new ≡ out.old)) }
    ensures setting { setting core.new ≡ setting core.old }
    ensures capacity { vec_capacity out.new ≡ vec_capacity out.old }
    ensures flag { IfOk result (λ flag. flag ≡ not (list_any (is_pending (seen core.old)) requests.old)) }
    ensures unfinished { IfOk result (λ flag. OnFalse flag ((core.new ≡ core.old) × (requests.new ≡ requests.old) × (out.new ≡ out.old))) }
    ensures completes { IfOk result
        (λ flag. OnTrue flag (Pushes out.old.items out.new.items (CompletesDone (setting core.old) rank requests.old (seen core.old) (seen core.new)))) }
    ensures requests { IfOk result (λ flag. OnTrue flag (requests.new ≡ map (left_of (seen core.old)) requests.old)) }
{
    test_all_on(core, &mut (), rank, requests, out)
}

/// Completes all requests of a list that are Done (`MPI_Testsome`; MPI 4.1, 3.7.5), pushes each position with its outcome
/// to `out`, in rising position, and answers how many there were: once requests are null in the list then. Null and
/// Idle requests are inactive; none is answered where no request is active. It takes no memory.
///
/// # Errors
///
/// Stale where a ticket names no live request, NotYours where it names another rank's: that of the first such request.
/// Nothing changes.
pub fn test_some(
    core: &mut Core,
    rank: u8,
    requests: &mut [Request],
    out: &mut Vec<(usize, Outcome)>,
) -> Result<Option<usize>, Refusal>
    requires distinct { AreDistinct requests.old }
    requires room { vec_len out.old + length requests.old ≤ vec_capacity out.old }
    ensures refused { result_err result ≡ list_refusal (setting core.old) (seen core.old).state rank requests.old }
    ensures err { OnErr result ((core.new ≡ core.old) × (requests.new ≡ requests.old) × (out.new ≡ out.old)) }
    ensures setting { setting core.new ≡ setting core.old }
    ensures capacity { vec_capacity out.new ≡ vec_capacity out.old }
    ensures undefined { IfOk result (λ count. is_some count ≡ list_any (is_active (seen core.old)) requests.old) }
    ensures inactive { IfOk result (λ count. IfNone count ((core.new ≡ core.old) × (requests.new ≡ requests.old) × (out.new ≡ out.old))) }
    ensures count { IfOk result (λ count. IfSome count (λ n. n ≡ length (done_positions (seen core.old) requests.old))) }
    ensures completes { IfOk result
        (λ count. OnSome count (Pushes out.old.items out.new.items (CompletesDone (setting core.old) rank requests.old (seen core.old) (seen core.new)))) }
    ensures requests { IfOk result (λ count. OnSome count (requests.new ≡ map (left_of (seen core.old)) requests.old)) }
{
    test_some_on(core, &mut (), rank, requests, out)
}

/// Frees an inactive persistent request, and leaves null (`MPI_Request_free`; MPI 4.1, 3.7.3).
/// Takes no memory.
///
/// # Errors
///
/// In this order, with nothing changed: Stale, also if the request is null; NotYours;
/// NotPersistent; Active.
pub fn request_free(core: &mut Core, rank: u8, request: &mut Request) -> Result<(), Refusal>
    ensures refused { result_err result ≡ free_refusal (setting core.old) (seen core.old).state rank request.old }
    ensures err { OnErr result ((core.new ≡ core.old) × (request.new ≡ request.old)) }
    ensures setting { setting core.new ≡ setting core.old }
    ensures frees { OnOk result (Runs (setting core.old) (seen core.old) (freeing rank request.old) (seen core.new)) }
    ensures null { OnOk result (request.new ≡ None) }
{
    request_free_on(core, &mut (), rank, request)
}

/// Starts the requests of a list in rising position, each with the contribution at its position
/// (`MPI_Startall`; MPI 4.1, 3.9).
///
/// # Errors
///
/// The first refusal, as `start` returns it, with its position; a null request is Stale. The
/// requests before it stay started, and unused contributions come back.
pub fn start_all(
    core: &mut Core,
    rank: u8,
    requests: &[Request],
    given: Vec<Contribution>,
) -> Result<(), Halted>
    requires { vec_len given ≡ length requests.now }
    ensures setting { setting core.new ≡ setting core.old }
    ensures starts { OnOk result (StartsAll (setting core.old) rank (seen core.old) (zip requests.now given.items) (seen core.new)) }
    ensures within { IfErr result (λ halted. halted.at < length requests.now) }
    ensures before { IfErr result
        (λ halted. StartsAll (setting core.old) rank (seen core.old) (take halted.at (zip requests.now given.items)) (seen core.new)) }
    ensures refused { IfErr result
        (λ halted. RefusesAt (setting core.old) rank (seen core.new)
        (slice_index_or requests.now halted.at None, slice_index_or given.items halted.at []) halted.why) }
    ensures back { IfErr result (λ halted. halted.back.items ≡ unused halted.at given.items) }
{
    start_all_on(core, &mut (), rank, requests, given)
}
