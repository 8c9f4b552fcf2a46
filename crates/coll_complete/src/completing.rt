//! The completion of a list's requests.

ghost use Rattle.std.specs.Prelude.{◌≡◌, ◌+◌, ◌≤◌, None, is_some, length, map, vec_capacity, vec_len};
ghost use Rattle.coll_complete.specs.Completing.{CompletesBy, Pushes, completion_if};
ghost use Rattle.coll_complete.specs.Requests.{AreDistinct, is_done, left_of, list_refusal, refusal_at};

use crate::request::Request;
use crate::requests::Requests;
use crate::testing::test_on;
use coll_core::Outcome;

/// Completes a request if it is Done.
fn complete_if_done<C: Requests>(
    core: &mut C,
    own: &mut C::Own,
    rank: u8,
    request: &mut Request,
) -> Option<Outcome>
    requires accepted { refusal_at (C.setting core.old) (C.machine core.old).state rank request.old ≡ None }
    ensures setting { C.setting core.new ≡ C.setting core.old }
    ensures outcome { is_some result ≡ is_done (C.machine core.old) request.old }
    ensures completes { C.Did core.old own.old (completion_if rank request.old result) core.new own.new }
    ensures request { request.new ≡ left_of (C.machine core.old) request.old }
{
    match test_on(core, own, rank, request) {
        Ok(tested) => tested.outcome,
        Err(_) => unreachable!(),
    }
}

/// Completes each request of a list that is Done, in rising position, and notes the outcomes.
pub(crate) fn complete_all<C: Requests>(
    core: &mut C,
    own: &mut C::Own,
    rank: u8,
    requests: &mut [Request],
    out: &mut Vec<(usize, Outcome)>,
)
    requires distinct { AreDistinct requests.old }
    requires accepted { list_refusal (C.setting core.old) (C.machine core.old).state rank requests.old ≡ None }
    requires room { vec_len out.old + length requests.old ≤ vec_capacity out.old }
    ensures setting { C.setting core.new ≡ C.setting core.old }
    ensures capacity { vec_capacity out.new ≡ vec_capacity out.old }
    ensures completes { Pushes out.old.items out.new.items
        (CompletesBy rank requests.old (C.machine core.old) (λ es. C.Did core.old own.old es core.new own.new)) }
    ensures requests { requests.new ≡ map (left_of (C.machine core.old)) requests.old }
{
    for (position, request) in requests.iter_mut().enumerate() {
        if let Some(outcome) = complete_if_done(core, own, rank, request) {
            out.push_reserved((position, outcome));
        }
    }
}
