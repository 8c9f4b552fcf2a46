//! The test of one request, on any engine with requests.

ghost use Rattle.std.specs.Prelude.{◌≡◌, IfOk, None, OnErr, OnOk, is_some, not, true};
ghost use Rattle.std.specs.Result.{result_err};
ghost use Rattle.coll_complete.specs.Completing.{completion, completion_if};
ghost use Rattle.coll_complete.specs.Requests.{is_done, is_pending, left_of, refusal_at, hold_after};

use crate::request::Request;
use crate::requests::Requests;
use crate::tested::Tested;
use coll_core::{Outcome, Phase};
use coll_kinds::{Mode, Refusal, Ticket};

/// `test` on any engine with requests, of which the caller holds `own` beside it.
///
/// # Errors
///
/// Those of `test`; nothing changes.
pub fn test_on<C: Requests>(
    core: &mut C,
    own: &mut C::Own,
    rank: u8,
    request: &mut Request,
) -> Result<Tested, Refusal>
    ensures refused { result_err result ≡ refusal_at (C.setting core.old) (C.machine core.old).state rank request.old }
    ensures err { OnErr result ((core.new ≡ core.old) × (own.new ≡ own.old) × (request.new ≡ request.old)) }
    ensures setting { C.setting core.new ≡ C.setting core.old }
    ensures flag { IfOk result (λ tested. tested.flag ≡ not (is_pending (C.machine core.old) request.old)) }
    ensures outcome { IfOk result (λ tested. is_some tested.outcome ≡ is_done (C.machine core.old) request.old) }
    ensures none { IfOk result (λ tested. tested.outcome ≡ None → core.new ≡ core.old) }
    ensures completes { IfOk result (λ tested. C.Did core.old own.old (completion_if rank request.old tested.outcome) core.new own.new) }
    ensures request { OnOk result (request.new ≡ left_of (C.machine core.old) request.old) }
{
    let Some(ticket) = request.ticket() else {
        return Ok(Tested {
            flag: true,
            outcome: None,
        });
    };
    match core.phase(rank, ticket) {
        Err(why) => Err(why),
        Ok(Phase::Idle) => Ok(Tested {
            flag: true,
            outcome: None,
        }),
        Ok(Phase::Pending) => Ok(Tested {
            flag: false,
            outcome: None,
        }),
        Ok(Phase::Done) => {
            let outcome = complete(core, own, rank, request);
            Ok(Tested {
                flag: true,
                outcome: Some(outcome),
            })
        }
    }
}

/// What a caller has in place of a request that is completed: null for a once request.
pub fn rest<C: Requests>(core: &C, ticket: Ticket) -> Request
    ensures { result ≡ hold_after (C.machine core.now).state ticket }
{
    match core.about(ticket) {
        Some(about) => match about.mode {
            Mode::Once => Request::null(),
            Mode::Persistent => Request::of(ticket),
        },
        None => Request::of(ticket),
    }
}

/// Completes a request that is Done.
pub(crate) fn complete<C: Requests>(
    core: &mut C,
    own: &mut C::Own,
    rank: u8,
    request: &mut Request,
) -> Outcome
    requires accepted { refusal_at (C.setting core.old) (C.machine core.old).state rank request.old ≡ None }
    requires done { is_done (C.machine core.old) request.old ≡ true }
    ensures setting { C.setting core.new ≡ C.setting core.old }
    ensures completes { C.Did core.old own.old (completion rank request.old result) core.new own.new }
    ensures request { request.new ≡ left_of (C.machine core.old) request.old }
{
    let Some(ticket) = request.ticket() else {
        unreachable!()
    };
    *request = rest(core, ticket);
    match core.retire(own, rank, ticket) {
        Ok(Some(outcome)) => outcome,
        _ => unreachable!(),
    }
}
