//! Puts a region together whose bytes lie in several segments.

ghost use Rattle.std.specs.Prelude.{◌≡◌, ◌+◌, ◌-◌, ◌<◌, ◌≤◌, ◌^◌, ◌↔◌, [], length, min, replicate, IfOk, IsOk, IsTrue, vec_capacity, vec_len};
ghost use Rattle.coll_sched.specs.Regions.{Inside, read_of};
ghost use Rattle.coll_bytes.specs.Laid.{AllInside, laid};

use crate::bytes::{Bytes, FEW};
use crate::segment::Segment;
use coll_ops::are_same;
use coll_sched::Region;
use std::alloc::{AllocError, Global};

// Copies a region's bytes over as many zeros.
fn compose(segments: &[Segment], size: u32, from: Region, out: &mut [u8])
    requires all { AllInside size segments.now }
    requires inside { Inside size from }
    requires zeros { out.old ≡ replicate from.len 0 }
    ensures { out.new ≡ read_of (laid size segments.now) from }
{
    for segment in segments {
        segment.lay_over(from, out);
    }
}

// Puts a region of up to `FEW` bytes together in place.
fn composed_few(segments: &[Segment], size: u32, from: Region) -> Bytes
    requires all { AllInside size segments.now }
    requires inside { Inside size from }
    requires few { from.len ≤ FEW }
    ensures { result ≡ read_of (laid size segments.now) from }
{
    let mut row = [0; FEW];
    let out = &mut row[..from.len as usize];
    compose(segments, size, from, out);
    Bytes::few(out)
}

/// Appends a region's bytes to an empty vector that has room for them.
pub(crate) fn compose_in(segments: &[Segment], size: u32, from: Region, out: &mut Vec<u8>)
    requires all { AllInside size segments.now }
    requires inside { Inside size from }
    requires empty { out.old.items ≡ [] }
    requires none { vec_len out.old ≡ 0 }
    requires room { from.len ≤ vec_capacity out.old }
    ensures { out.new.items ≡ read_of (laid size segments.now) from }
{
    let Ok(()) = out.resize(from.len as usize, 0) else {
        unreachable!()
    };
    compose(segments, size, from, out);
}

// Puts a region together in the vector `room`.
fn composed_in(segments: &[Segment], size: u32, from: Region, room: Vec<u8>) -> Bytes
    requires all { AllInside size segments.now }
    requires inside { Inside size from }
    requires empty { room.items ≡ [] }
    requires none { vec_len room ≡ 0 }
    requires room { from.len ≤ vec_capacity room }
    ensures { result ≡ read_of (laid size segments.now) from }
{
    let mut out = room;
    compose_in(segments, size, from, &mut out);
    Bytes::from_vec(out)
}

// Returns the next part of `from`, at most `FEW` bytes long, after its first `done` bytes.
fn few_behind(from: Region, done: u32) -> Region
    requires low { done < from.len }
    requires fits { from.at + from.len < 2 ^ 32 }
    ensures { result ≡ record { at = from.at + done; len = min (from.len - done) FEW } }
{
    Region {
        at: from.at + done,
        len: (from.len - done).min(FEW as u32),
    }
}

// Compares a region of up to `FEW` bytes with `bytes`.
fn shows_few(segments: &[Segment], size: u32, from: Region, bytes: &[u8]) -> bool
    requires all { AllInside size segments.now }
    requires inside { Inside size from }
    requires few { from.len ≤ FEW }
    ensures { IsTrue result ↔ (read_of (laid size segments.now) from ≡ bytes.now) }
{
    let few = composed_few(segments, size, from);
    are_same(few.as_slice(), bytes)
}

/// Compares a region with `bytes`. Takes no memory.
pub(crate) fn shows_bytes(segments: &[Segment], size: u32, from: Region, bytes: &[u8]) -> bool
    requires all { AllInside size segments.now }
    requires inside { Inside size from }
    requires same { length bytes.now ≡ from.len }
    ensures { IsTrue result ↔ (read_of (laid size segments.now) from ≡ bytes.now) }
{
    let mut done = 0;
    while done < from.len {
        let part = few_behind(from, done);
        let wanted = Region {
            at: done,
            len: part.len,
        };
        if !shows_few(segments, size, part, wanted.read(bytes)) {
            return false;
        }
        done += part.len;
    }
    true
}

/// Puts a region together in a block that counts its owners, because the bytes are sent on or
/// become the outcome. Up to `FEW` bytes take no memory.
pub(crate) fn composed(
    alloc: Global,
    segments: &[Segment],
    size: u32,
    from: Region,
) -> Result<Bytes, AllocError>
    requires all { AllInside size segments.now }
    requires inside { Inside size from }
    ensures ok { IfOk result (λ part. part ≡ read_of (laid size segments.now) from) }
    ensures few { from.len ≤ FEW → IsOk result }
{
    if from.len as usize <= FEW {
        return Ok(composed_few(segments, size, from));
    }
    let room = Vec::with_capacity(alloc, from.len as usize)?;
    let mut bytes = composed_in(segments, size, from, room);
    bytes.count_owners(alloc)?;
    Ok(bytes)
}
