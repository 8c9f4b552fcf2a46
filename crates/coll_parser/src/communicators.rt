//! The words that speak of communicators: the members of a new one, and the one that a request is on.

ghost use Rattle.std.specs.Prelude.{◌≡◌, ◌/◌, ◌<◌, ◌≤◌, [], length, ok_or, slice_get, OnOk, IfOk};
ghost use Rattle.std.specs.List.{AllByRecursion};
ghost use Rattle.coll_kinds.specs.Elements.{width};
ghost use Rattle.coll_kinds.specs.Groups.{member_of, IsGroup};
ghost use Rattle.coll_parser.specs.declared.cause.Cause.TheVariants.{BadNumber, BadRank, BadCommunicator};
ghost use Rattle.coll_parser.specs.Reading.{numbers};
ghost use Rattle.coll_parser.specs.Histories.{group_of};
ghost use Rattle.coll_parser.specs.Lines.{communicator, due, rank_in};
ghost use Rattle.coll_parser.specs.Code.{rows_view, Finds, Reads, ReadsSo};

use crate::cause::Cause;
use crate::fault::LineFault;
use crate::words::{Words, rank_in};
use coll_kinds::{MAX_RANKS, Signature, member_of};
use std::alloc::Global;

/// The members of one more communicator, in a job of `n` ranks. Linear in the line.
pub(crate) fn group(alloc: Global, n: u8, words: &mut Words) -> Result<Vec<u8>, LineFault>
    requires { n ≤ 64 }
    ensures read { ReadsSo (λ group. group.items) result words.new (numbers (rank_in n) BadRank words.old) }
    ensures group { IfOk result (λ group. IsGroup n group.items) }
{
    if words.is_empty() {
        return Err(LineFault::Broken(Cause::BadWords));
    }
    let mut members = Vec::new(alloc);
    let mut is_member = [false; MAX_RANKS];
    for word in words.take_rest() {
        let rank = rank_in(n, word)?;
        if is_member[rank as usize] {
            return Err(LineFault::Broken(Cause::BadRank));
        }
        is_member[rank as usize] = true;
        members.push(rank)?;
    }
    Ok(members)
}

/// The communicator that the next word names; `rank` is one of its members.
pub(crate) fn communicator(groups: &[Vec<u8>], rank: u8, words: &mut Words) -> Result<u8, Cause>
    requires { length groups.now ≤ 16 }
    ensures { Reads (λ comm. comm) result words.new (communicator (rows_view groups.now) rank words.old) }
{
    let comm = words.number()?;
    let group = known_group(groups, comm)?;
    if member_of(rank, group).is_none() {
        return Err(Cause::BadRank);
    }
    Ok(comm as u8)
}

/// The members of the communicator of that number.
fn known_group(groups: &[Vec<u8>], comm: u128) -> Result<&[u8], Cause>
    requires { length groups.now ≤ 16 }
    ensures given { Finds (λ group. group.now) result (ok_or (slice_get (rows_view groups.now) comm) BadCommunicator) }
    ensures small { OnOk result (comm < 16) }
{
    if comm >= groups.len() as u128 {
        return Err(Cause::BadCommunicator);
    }
    Ok(&groups[comm as usize])
}

/// The members of a communicator; empty if it isn't known.
pub(crate) fn group_of(groups: &[Vec<u8>], comm: u8) -> &[u8]
    requires { AllByRecursion (λ group. length group ≤ 64) (rows_view groups.now) }
    ensures is { result.now ≡ group_of (rows_view groups.now) comm }
    ensures few { length result.now ≤ 64 }
{
    match groups.get(comm as usize) {
        Some(group) => group,
        None => &[],
    }
}

/// How many values a rank gives to a request with that signature.
pub(crate) fn values_due(groups: &[Vec<u8>], rank: u8, comm: u8, sig: &Signature) -> usize
    requires { AllByRecursion (λ group. length group ≤ 64) (rows_view groups.now) }
    ensures { result ≡ due (rows_view groups.now) rank comm sig.now / width sig.now.ty }
{
    due(groups, rank, comm, sig) / sig.ty.width()
}

/// How many bytes the rank gives.
fn due(groups: &[Vec<u8>], rank: u8, comm: u8, sig: &Signature) -> usize
    requires { AllByRecursion (λ group. length group ≤ 64) (rows_view groups.now) }
    ensures { result ≡ due (rows_view groups.now) rank comm sig.now }
{
    let group = group_of(groups, comm);
    let member = member_of(rank, group).unwrap_or(0);
    sig.given_len(group.len() as u8, member as u8)
}
