//! Computes the values of a job directly from what all members give.

ghost use Rattle.std.specs.Prelude.{◌≡◌, ◌≤◌, length, map, slice_get, Some, None, IfOk, IsOkUnless};
ghost use Rattle.std.specs.List.{AllByRecursion, range_with_len};
ghost use Rattle.coll_kinds.specs.Checks.{broken};
ghost use Rattle.coll_ops.specs.Contributions.{AreGiven};
ghost use Rattle.coll_ops.specs.Values.{value};
ghost use Rattle.coll_parser.specs.Code.{request_view, rows_view};
ghost use Rattle.coll_script.specs.Matching.{first_list};
ghost use Rattle.coll_script.specs.Meaning.{given_at};
ghost use Rattle.coll_script.specs.PostingViews.{lists_view, all_lists_view};
ghost use Rattle.coll_script.specs.Outcomes.{place_values, group_values, members_view, place_view, group_view, values_view, HaveStart, AreMatched};

use crate::postings::Postings;
use crate::values::MemberValues;
use coll_kinds::{Refusal, Signature};
use coll_parser::Request;
use std::alloc::Global;

/// A row of bytes for each member of a communicator.
type MemberRows = Vec<Vec<u8>>;

/// What the members of a communicator give to a start of a place. Linear in the bytes.
fn given_at(
    alloc: Global,
    lists: &[Vec<Request>],
    place: usize,
    start: usize,
) -> Result<MemberRows, Refusal>
    requires { HaveStart (lists_view lists.now) place start }
    ensures ok { IfOk result (λ rows. rows_view rows.items ≡ given_at (lists_view lists.now) place start) }
    ensures refusal { IsOkUnless result Refusal.NoMemory }
{
    let mut rows = Vec::new(alloc);
    for list in lists {
        rows.push(Vec::from_slice(alloc, list[place].starts[start].given)?)?;
    }
    Ok(rows)
}

/// The values of all members at a start of a place.
fn start_values(
    alloc: Global,
    sig: Signature,
    lists: &[Vec<Request>],
    place: usize,
    start: usize,
) -> Result<MemberValues, Refusal>
    requires few { length lists.now ≤ 64 }
    requires checked { broken sig (length lists.now) ≡ None }
    requires starts { HaveStart (lists_view lists.now) place start }
    requires given { AreGiven sig (length lists.now) (given_at (lists_view lists.now) place start) }
    ensures ok { IfOk result
        (λ values. members_view values ≡ map (value sig (given_at (lists_view lists.now) place start)) (range_with_len 0 (length lists.now))) }
    ensures refusal { IsOkUnless result Refusal.NoMemory }
{
    let given = given_at(alloc, lists, place, start)?;
    MemberValues::new(alloc, sig, lists.len() as u8, &given)
}

/// The values at each start of a place.
fn place_values(
    alloc: Global,
    lists: &[Vec<Request>],
    place: usize,
    request: &Request,
) -> Result<Vec<MemberValues>, Refusal>
    requires matched { AreMatched (length lists.now) (lists_view lists.now) }
    requires there { slice_get (first_list (lists_view lists.now)) place ≡ Some (request_view request.now) }
    ensures ok { IfOk result (λ starts. place_view starts.items ≡ place_values (lists_view lists.now) place (request_view request.now)) }
    ensures refusal { IsOkUnless result Refusal.NoMemory }
{
    let mut starts = Vec::new(alloc);
    for start in 0..request.starts.len() {
        starts.push(start_values(alloc, request.sig, lists, place, start)?)?;
    }
    Ok(starts)
}

/// The values at each place of a communicator.
fn group_values(alloc: Global, lists: &[Vec<Request>]) -> Result<Vec<Vec<MemberValues>>, Refusal>
    requires { AreMatched (length lists.now) (lists_view lists.now) }
    ensures ok { IfOk result (λ places. group_view places.items ≡ group_values (lists_view lists.now)) }
    ensures refusal { IsOkUnless result Refusal.NoMemory }
{
    let mut places = Vec::new(alloc);
    if lists.is_empty() {
        return Ok(places);
    }
    for (place, request) in lists[0].iter().enumerate() {
        places.push(place_values(alloc, lists, place, request)?)?;
    }
    Ok(places)
}

/// The values of all communicators, by place, start and member. Linear in the bytes that are given and in those that are got.
pub(crate) fn all_values(
    alloc: Global,
    all: &[Postings],
) -> Result<Vec<Vec<Vec<MemberValues>>>, Refusal>
    requires { AllByRecursion (λ lists. AreMatched (length lists) lists) (all_lists_view all.now) }
    ensures ok { IfOk result (λ groups. values_view groups.items ≡ map group_values (all_lists_view all.now)) }
    ensures refusal { IsOkUnless result Refusal.NoMemory }
{
    let mut groups = Vec::new(alloc);
    for lists in all {
        groups.push(group_values(alloc, lists)?)?;
    }
    Ok(groups)
}
