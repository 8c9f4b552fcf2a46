//! The test of a list for some requests, on any engine with requests.

ghost use Rattle.std.specs.Prelude.{◌≡◌, ◌+◌, ◌≤◌, IfNone, IfOk, IfSome, OnErr, OnSome, is_some, length, map, vec_capacity, vec_len};
ghost use Rattle.std.specs.List.{list_any};
ghost use Rattle.std.specs.Result.{result_err};
ghost use Rattle.coll_complete.specs.Completing.{CompletesBy, Pushes, done_positions};
ghost use Rattle.coll_complete.specs.Requests.{AreDistinct, is_active, left_of, list_refusal};

use crate::completing::complete_all;
use crate::request::Request;
use crate::requests::Requests;
use crate::survey::Survey;
use coll_core::Outcome;
use coll_kinds::Refusal;

/// `test_some` on any engine with requests, of which the caller holds `own` beside it.
///
/// # Errors
///
/// Those of `test_some`.
pub fn test_some_on<C: Requests>(
    core: &mut C,
    own: &mut C::Own,
    rank: u8,
    requests: &mut [Request],
    out: &mut Vec<(usize, Outcome)>,
) -> Result<Option<usize>, Refusal>
    requires distinct { AreDistinct requests.old }
    requires room { vec_len out.old + length requests.old ≤ vec_capacity out.old }
    ensures refused { result_err result ≡ list_refusal (C.setting core.old) (C.machine core.old).state rank requests.old }
    ensures err { OnErr result ((core.new ≡ core.old) × (own.new ≡ own.old) × (requests.new ≡ requests.old) × (out.new ≡ out.old)) }
    ensures setting { C.setting core.new ≡ C.setting core.old }
    ensures capacity { vec_capacity out.new ≡ vec_capacity out.old }
    ensures undefined { IfOk result (λ count. is_some count ≡ list_any (is_active (C.machine core.old)) requests.old) }
    ensures inactive { IfOk result (λ count. IfNone count ((core.new ≡ core.old) × (own.new ≡ own.old) × (requests.new ≡ requests.old) × (out.new ≡ out.old))) }
    ensures count { IfOk result (λ count. IfSome count (λ n. n ≡ length (done_positions (C.machine core.old) requests.old))) }
    ensures completes { IfOk result
        (λ count. OnSome count (Pushes out.old.items out.new.items
        (CompletesBy rank requests.old (C.machine core.old) (λ es. C.Did core.old own.old es core.new own.new)))) }
    ensures requests { IfOk result (λ count. OnSome count (requests.new ≡ map (left_of (C.machine core.old)) requests.old)) }
{
    let survey = Survey::of(core, rank, requests)?;
    if !survey.active {
        return Ok(None);
    }
    let before = out.len();
    complete_all(core, own, rank, requests, out);
    Ok(Some(out.len() - before))
}
