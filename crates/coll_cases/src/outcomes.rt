//! What a call may complete whose effect depends on time.

ghost use Rattle.std.specs.Prelude.{◌≡◌, ◌++◌, ◌∷◌, [], ℕ, List, Bool, true, filter, IfOk, IfSome};
ghost use Rattle.coll_kinds.specs.Common.{is_among};
ghost use Rattle.coll_cases.specs.Code.{AreOutcomes, HasList};
ghost use Rattle.coll_cases.specs.Choosing.{is_sure, may_be_active, one_is_sure};

use coll_parser::{Command, Named};
use coll_verdict::KnownRequest;
use std::alloc::{AllocError, Global};

/// Of how many requests a `waitsome` is fixed at most: what it may complete doubles with each.
const MOST: usize = 4;

/// What a call may complete, by what is known of its rank's requests. None if that doesn't depend on time, or is too much.
pub(crate) fn outcomes_of(
    alloc: Global,
    command: &Command,
    known: &[KnownRequest],
) -> Result<Option<Vec<Vec<u32>>>, AllocError>
    ensures { IfOk result (λ found. IfSome found (λ outcomes. AreOutcomes known.now command.now outcomes.items)) }
{
    match command {
        Command::Test(request) => test_outcomes(alloc, *request, known),
        Command::WaitAny(named) => any_outcomes(alloc, named, known),
        Command::WaitSome(named) => some_outcomes(alloc, named, known),
        _ => Ok(None),
    }
}

/// Of a test: nothing, or its request.
fn test_outcomes(
    alloc: Global,
    request: u32,
    known: &[KnownRequest],
) -> Result<Option<Vec<Vec<u32>>>, AllocError>
    ensures { IfOk result (λ found. IfSome found (λ outcomes. AreOutcomes known.now (Command.Test request) outcomes.items)) }
{
    let mut outcomes = Vec::new(alloc);
    outcomes.push(Vec::new(alloc))?;
    outcomes.push(single(alloc, request)?)?;
    Ok(Some(outcomes))
}

/// Of a `waitany`: one of its requests, or nothing unless one is surely active.
fn any_outcomes(
    alloc: Global,
    named: &Named,
    known: &[KnownRequest],
) -> Result<Option<Vec<Vec<u32>>>, AllocError>
    ensures { IfOk result (λ found. IfSome found (λ outcomes. AreOutcomes known.now (Command.WaitAny named.now) outcomes.items)) }
{
    let Some(mut outcomes) = singles(alloc, named, known)? else {
        return Ok(None);
    };
    if !one_is_sure(known, named) {
        outcomes.push(Vec::new(alloc))?;
    }
    Ok(Some(outcomes))
}

/// Of a `waitsome`: some of its requests.
fn some_outcomes(
    alloc: Global,
    named: &Named,
    known: &[KnownRequest],
) -> Result<Option<Vec<Vec<u32>>>, AllocError>
    ensures { IfOk result (λ found. IfSome found (λ outcomes. AreOutcomes known.now (Command.WaitSome named.now) outcomes.items)) }
{
    let Some(active) = active_among(alloc, named, known)? else {
        return Ok(None);
    };
    if active.len() > MOST {
        return Ok(None);
    }
    let outcomes = subsets(alloc, &active)?;
    Ok(Some(outcomes))
}

/// Each of these requests alone that may be active. None if the number of one is too large, which doesn't happen.
fn singles(
    alloc: Global,
    named: &Named,
    known: &[KnownRequest],
) -> Result<Option<Vec<Vec<u32>>>, AllocError>
    ensures { IfOk result (λ found. IfSome found
        (λ lists. (q : ℕ) → is_among q named.now ≡ true → may_be_active known.now q ≡ true → HasList lists.items (q ∷ []))) }
{
    let Some(active) = active_among(alloc, named, known)? else {
        return Ok(None);
    };
    let lists = each_alone(alloc, &active)?;
    Ok(Some(lists))
}

fn each_alone(alloc: Global, requests: &[u32]) -> Result<Vec<Vec<u32>>, AllocError>
    ensures { IfOk result (λ lists. (q : ℕ) → is_among q requests.now ≡ true → HasList lists.items (q ∷ [])) }
{
    let mut lists = Vec::new(alloc);
    for request in requests {
        lists.push(single(alloc, *request)?)?;
    }
    Ok(lists)
}

fn single(alloc: Global, request: u32) -> Result<Vec<u32>, AllocError>
    ensures { IfOk result (λ list. list.items ≡ request ∷ []) }
{
    let mut list = Vec::new(alloc);
    list.push(request)?;
    Ok(list)
}

/// Those of these requests that may be active. None if the number of one is too large, which doesn't happen.
fn active_among(
    alloc: Global,
    named: &Named,
    known: &[KnownRequest],
) -> Result<Option<Vec<u32>>, AllocError>
    ensures { IfOk result (λ found. IfSome found (λ active. active.items ≡ filter (may_be_active known.now) named.now)) }
{
    let mut active = Vec::new(alloc);
    for index in 0..named.len() {
        let request = named.get(index);
        if may_be_active(known, request) {
            if request > u32::MAX as usize {
                return Ok(None);
            }
            active.push(request as u32)?;
        }
    }
    Ok(Some(active))
}

/// All lists of some of these requests, in their order.
fn subsets(alloc: Global, requests: &[u32]) -> Result<Vec<Vec<u32>>, AllocError>
    ensures { IfOk result (λ lists. (f : ℕ → Bool) → HasList lists.items (filter f requests.now)) }
{
    let mut lists = Vec::new(alloc);
    lists.push(Vec::new(alloc))?;
    for request in requests {
        lists = with_and_without(alloc, &lists, *request)?;
    }
    Ok(lists)
}

/// These lists, and the same with one more request in each.
fn with_and_without(
    alloc: Global,
    lists: &[Vec<u32>],
    request: u32,
) -> Result<Vec<Vec<u32>>, AllocError>
    ensures without { IfOk result (λ more. (qs : List ℕ) → HasList lists.now qs → HasList more.items qs) }
    ensures joined { IfOk result (λ more. (qs : List ℕ) → HasList lists.now qs → HasList more.items (qs ++ request ∷ [])) }
{
    let mut more = Vec::new(alloc);
    for list in lists {
        more.push(Vec::from_slice(alloc, list)?)?;
        let mut longer = Vec::from_slice(alloc, list)?;
        longer.push(request)?;
        more.push(longer)?;
    }
    Ok(more)
}

/// Whether a request may be active: it was started, and no wait has named it since.
fn may_be_active(known: &[KnownRequest], request: usize) -> bool
    ensures { result ≡ may_be_active known.now request }
{
    match known.get(request) {
        Some(request) => request.starts > 0 && !request.is_rested,
        None => true,
    }
}

/// Whether one of these requests is surely active: no call that completes requests has named it since its start.
fn one_is_sure(known: &[KnownRequest], named: &Named) -> bool
    ensures { result ≡ one_is_sure known.now named.now }
{
    let mut is_found = false;
    for index in 0..named.len() {
        is_found = is_found || is_sure(known, named.get(index));
    }
    is_found
}

fn is_sure(known: &[KnownRequest], request: usize) -> bool
    ensures { result ≡ is_sure known.now request }
{
    match known.get(request) {
        Some(request) => request.starts > 0 && !request.is_named,
        None => false,
    }
}
