//! Judges after the last line whether the requests at each place belong together.

ghost use Rattle.std.specs.Prelude.{◌≡◌, ◌≤◌, ℕ, length, flat_map, slice_get, None, IfOk, OnOk, if◌then◌else◌};
ghost use Rattle.coll_script.specs.Matching.{first_at, earlier, earliest, agrees, differing_from, lower, least, mismatch, have_places, started_alike};
ghost use Rattle.coll_script.specs.Matching.{have_starts};
ghost use Rattle.std.specs.List.{list_all};
ghost use Rattle.coll_script.specs.Keeping.{IsKept};
ghost use Rattle.coll_script.specs.PostingViews.{list_view, lists_view, all_lists_view};

use crate::first::{Earliest, first_of};
use crate::postings::Postings;
use coll_kinds::Signature;
use coll_parser::Request;
use std::alloc::{AllocError, Global};

/// The first line whose signature or mode differs from that of the earliest line at its communicator and place. Linear in the requests.
pub(crate) fn mismatch(alloc: Global, all: &[Postings]) -> Result<Option<u32>, AllocError>
    ensures { IfOk result (λ line. line ≡ mismatch (all_lists_view all.now)) }
{
    let mut line = None;
    for lists in all {
        let firsts = earliest(alloc, lists)?;
        line = differing(&firsts, lists, line);
    }
    Ok(line)
}

/// The earliest request at each place of a communicator.
fn earliest(alloc: Global, lists: &[Vec<Request>]) -> Result<Vec<Earliest>, AllocError>
    ensures { IfOk result (λ firsts. (place : ℕ) → slice_get firsts.items place ≡ earliest None place (lists_view lists.now)) }
{
    let mut firsts = Vec::new(alloc);
    for list in lists {
        keep_earlier(list, &mut firsts)?;
    }
    Ok(firsts)
}

/// At each place of the list, replaces the earliest request by this member's if that is earlier.
fn keep_earlier(list: &[Request], firsts: &mut Vec<Earliest>) -> Result<(), AllocError>
    ensures { OnOk result ((place : ℕ) → slice_get firsts.new.items place
        ≡ earlier (slice_get firsts.old.items place) (first_at (list_view list.now) place)) }
{
    for (place, request) in list.iter().enumerate() {
        keep_at(place, first_of(request), firsts)?;
    }
    Ok(())
}

/// Puts a request at that place of the list if it is the first there, or earlier than the one there.
fn keep_at(place: usize, first: Earliest, firsts: &mut Vec<Earliest>) -> Result<(), AllocError>
    requires { place ≤ length firsts.old.items }
    ensures { OnOk result (IsKept place first firsts.old.items firsts.new.items) }
{
    if place == firsts.len() {
        firsts.push(first)?;
    } else if first.line < firsts[place].line {
        firsts[place] = first;
    }
    Ok(())
}

/// The lowest of `line` and the lines of a communicator's requests that differ from the earliest ones at their places.
fn differing(firsts: &[Earliest], lists: &[Vec<Request>], line: Option<u32>) -> Option<u32>
    ensures { result ≡ least line (flat_map (differing_from (slice_get firsts.now) 0) (lists_view lists.now)) }
{
    let mut line = line;
    for list in lists {
        line = differing_in(firsts, list, line);
    }
    line
}

/// The lowest of `line` and the lines of a member's requests that differ from the earliest ones at their places.
fn differing_in(firsts: &[Earliest], list: &[Request], line: Option<u32>) -> Option<u32>
    ensures { result ≡ least line (differing_from (slice_get firsts.now) 0 (list_view list.now)) }
{
    let mut line = line;
    for (place, request) in list.iter().enumerate() {
        line = lower_unless(agrees(firsts, place, &request.sig), line, request.line);
    }
    line
}

/// Whether the earliest request at a place has this signature.
fn agrees(firsts: &[Earliest], place: usize, sig: &Signature) -> bool
    ensures { result ≡ agrees (slice_get firsts.now place) sig.now }
{
    match firsts.get(place) {
        Some(first) => first.sig.is_same(sig),
        None => false,
    }
}

fn lower_unless(agrees: bool, least: Option<u32>, line: u32) -> Option<u32>
    ensures { result ≡ (if agrees then least else lower least line) }
{
    if agrees {
        return least;
    }
    match least {
        None => Some(line),
        Some(least) => Some(if line < least { line } else { least }),
    }
}

/// Whether no member of a communicator lacks a place that another has. Linear in the members.
pub(crate) fn all_have_places(all: &[Postings]) -> bool
    ensures { result ≡ list_all have_places (all_lists_view all.now) }
{
    for lists in all {
        if !have_places(lists) {
            return false;
        }
    }
    true
}

/// Whether each member of a communicator has as many requests there as its first member.
fn have_places(lists: &[Vec<Request>]) -> bool
    ensures { result ≡ have_places (lists_view lists.now) }
{
    for list in lists {
        if list.len() != lists[0].len() {
            return false;
        }
    }
    true
}

/// Whether the members of each communicator have the same number of starts at each place. Linear in the
/// requests.
pub(crate) fn all_have_starts(all: &[Postings]) -> bool
    ensures { result ≡ list_all have_starts (all_lists_view all.now) }
{
    for lists in all {
        if !have_starts(lists) {
            return false;
        }
    }
    true
}

/// Whether the members of a communicator have started their requests equally often, place by place.
fn have_starts(lists: &[Vec<Request>]) -> bool
    ensures { result ≡ have_starts (lists_view lists.now) }
{
    for list in lists {
        if !started_alike(&lists[0], list) {
            return false;
        }
    }
    true
}

fn started_alike(first: &[Request], list: &[Request]) -> bool
    ensures { result ≡ started_alike (list_view first.now) (list_view list.now) }
{
    for place in 0..first.len().min(list.len()) {
        if list[place].starts.len() != first[place].starts.len() {
            return false;
        }
    }
    true
}
