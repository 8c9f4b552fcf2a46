//! The test of a list for one request, on any engine with requests.

ghost use Rattle.std.specs.Prelude.{◌≡◌, IfOk, None, OnErr, not, position};
ghost use Rattle.std.specs.List.{list_any};
ghost use Rattle.std.specs.Result.{result_err};
ghost use Rattle.coll_complete.specs.Anys.{completion_any, is_undefined, left_at, position_of};
ghost use Rattle.coll_complete.specs.Requests.{is_active, is_done, list_refusal};

use crate::request::Request;
use crate::requests::Requests;
use crate::survey::Survey;
use crate::testing::complete;
use coll_core::Outcome;
use coll_kinds::Refusal;

/// The result of a test of a list for one request (`MPI_Testany`; MPI 4.1, 3.7.5).
#[derive(Debug, Drop)]
pub enum Any {
    /// No request of the list is active.
    Undefined,
    /// Some are active, and none is Done.
    Unfinished,
    /// The request at this position was completed.
    At(usize, Outcome),
}

/// `test_any` on any engine with requests, of which the caller holds `own` beside it.
///
/// # Errors
///
/// Those of `test_any`.
pub fn test_any_on<C: Requests>(
    core: &mut C,
    own: &mut C::Own,
    rank: u8,
    requests: &mut [Request],
) -> Result<Any, Refusal>
    ensures refused { result_err result ≡ list_refusal (C.setting core.old) (C.machine core.old).state rank requests.old }
    ensures err { OnErr result ((core.new ≡ core.old) × (own.new ≡ own.old) × (requests.new ≡ requests.old)) }
    ensures setting { C.setting core.new ≡ C.setting core.old }
    ensures undefined { IfOk result (λ any. is_undefined any ≡ not (list_any (is_active (C.machine core.old)) requests.old)) }
    ensures lowest { IfOk result (λ any. position_of any ≡ position (is_done (C.machine core.old)) requests.old) }
    ensures none { IfOk result (λ any. position_of any ≡ None → core.new ≡ core.old) }
    ensures completes { IfOk result (λ any. C.Did core.old own.old (completion_any rank requests.old any) core.new own.new) }
    ensures requests { IfOk result (λ any. requests.new ≡ left_at (C.machine core.old) (position_of any) requests.old) }
{
    let survey = Survey::of(core, rank, requests)?;
    match survey.done {
        Some(position) => {
            let outcome = complete(core, own, rank, &mut requests[position]);
            Ok(Any::At(position, outcome))
        }
        None => {
            if survey.active {
                Ok(Any::Unfinished)
            } else {
                Ok(Any::Undefined)
            }
        }
    }
}
