ghost use Rattle.std.specs.Prelude.{◌≡◌, ℕ, ◌+◌, ◌<◌, ◌≤◌, ◌↔◌, List, [], length, remove, replicate, IfOk, IfSome, IsOk, IsTrue, OnErr, OnOk};
ghost use Rattle.std.specs.Prelude.{vec_capacity, vec_len};
ghost use Rattle.smallvec.specs.SmallVec.{HasRoomFor, small_vec_len};
ghost use Rattle.coll_sched.specs.Regions.{Inside, read_of, written};
ghost use Rattle.coll_bytes.specs.Laid.{AllInside, Shows, laid};

use crate::bytes::{Bytes, FEW};
use crate::composed::{compose_in, composed, shows_bytes};
use crate::segment::{Segment, is_within};
use crate::shell::Shell;
use coll_ops::are_same;
use coll_sched::Region;
use smallvec::SmallVec;
use std::alloc::{AllocError, Global};
use std::marker::Model;

/// How many writes need no memory before any room is made.
pub const WRITES_IN_PLACE: usize = 1;

/// A schedule's buffer. Each write lies in it as a segment: newer segments hide older ones, and all
/// segments lie over zeros. So a write copies nothing, and a region that was written as a whole is
/// read without a copy. Contracts see the buffer's bytes, and how many more writes need no memory.
///
/// Each call begins with the newest segment, because a schedule mostly reads what it wrote last. A
/// write removes the segments that it hides.
#[derive(Debug, Drop)]
pub struct Segments {
    size: u32,
    segments: SmallVec<Segment, WRITES_IN_PLACE>,
}

impl Model for Segments {
    ghost use Rattle.std.specs.Prelude.{◌-◌, length};
    ghost use Rattle.coll_bytes.specs.Contents.{Contents};

    ghost Value = { Contents };

    ghost use Rattle.coll_bytes.specs.Laid.{AllInside, laid};

    ghost view = { λ b. record { bytes = laid b.size b.segments.items; room = b.segments.capacity - length b.segments.items } };

    ghost invariant = { λ b. AllInside b.size b.segments.items };
}

// Returns the index of the newest segment that has a byte of the region, if it has all of them.
fn holder(segments: &[Segment], size: u32, from: Region) -> Option<usize>
    requires all { AllInside size segments.now }
    requires inside { Inside size from }
    ensures { IfSome result (Shows size segments.now from) }
{
    let mut i = segments.len();
    while i > 0 {
        i -= 1;
        let segment = &segments[i];
        let place = segment.place();
        if is_within(place, from) {
            return Some(i);
        }
        if !place.is_apart(from) {
            return None;
        }
    }
    None
}

// Returns a region's bytes, which lie in one segment.
fn slice_at(segments: &[Segment], size: u32, i: usize, from: Region) -> &[u8]
    requires { Shows size segments.now from i }
    ensures { result.now ≡ read_of (laid size segments.now) from }
{
    let _size = size;
    let segment = &segments[i];
    let inner = segment.inner(from);
    inner.read(segment.bytes.as_slice())
}

// Returns an owner of a region's bytes, which lie in one segment.
fn part_at(
    segments: &mut SmallVec<Segment, WRITES_IN_PLACE>,
    size: u32,
    i: usize,
    alloc: Global,
    from: Region,
) -> Result<Bytes, AllocError>
    requires { Shows size segments.old.items from i }
    ensures ok { IfOk result (λ part. part ≡ read_of (laid size segments.old.items) from) }
    ensures few { from.len ≤ FEW → IsOk result }
    ensures same { segments.new ≡ segments.old }
{
    let segment = &mut segments.as_mut_slice()[i];
    let inner = segment.inner(from);
    segment.bytes.part(alloc, inner)
}

// Returns a region's bytes, which lie in one segment, and drops the segments.
fn part_of(segments: SmallVec<Segment, WRITES_IN_PLACE>, size: u32, i: usize, from: Region) -> Bytes
    requires { Shows size segments.items from i }
    ensures { result ≡ read_of (laid size segments.items) from }
{
    let mut rest = segments;
    let segment = rest.swap_remove(i);
    let inner = segment.inner(from);
    segment.bytes.into_part(inner)
}

// Removes one segment.
fn discard(segments: &mut SmallVec<Segment, WRITES_IN_PLACE>, i: usize)
    requires { i < small_vec_len segments.old }
    ensures items { segments.new.items ≡ remove segments.old.items i }
    ensures len { small_vec_len segments.new + 1 ≡ small_vec_len segments.old }
    ensures capacity { segments.new.capacity ≡ segments.old.capacity }
{
    let _segment = segments.remove(i);
}

// Removes the segments that a write into the region hides.
fn remove_hidden(segments: &mut SmallVec<Segment, WRITES_IN_PLACE>, size: u32, region: Region)
    requires all { AllInside size segments.old.items }
    requires inside { Inside size region }
    ensures all { AllInside size segments.new.items }
    ensures hidden { (bytes : List ℕ) → length bytes ≡ region.len
        → written (laid size segments.new.items) region bytes ≡ written (laid size segments.old.items) region bytes }
    ensures len { small_vec_len segments.new ≤ small_vec_len segments.old }
    ensures capacity { segments.new.capacity ≡ segments.old.capacity }
{
    let mut i = segments.len();
    while i > 0 {
        i -= 1;
        let place = segments.as_slice()[i].place();
        if is_within(region, place) {
            discard(segments, i);
        }
    }
}

// Adds bytes over a region as a new segment.
fn lay(segments: &mut SmallVec<Segment, WRITES_IN_PLACE>, size: u32, region: Region, bytes: Bytes)
    requires all { AllInside size segments.old.items }
    requires inside { Inside size region }
    requires same { length bytes ≡ region.len }
    requires room { HasRoomFor segments.old 1 }
    ensures all { AllInside size segments.new.items }
    ensures written { laid size segments.new.items ≡ written (laid size segments.old.items) region bytes }
    ensures len { small_vec_len segments.new ≤ small_vec_len segments.old + 1 }
    ensures capacity { segments.new.capacity ≡ segments.old.capacity }
{
    remove_hidden(segments, size, region);
    segments.push_reserved(Segment {
        at: region.at,
        bytes,
    });
}

impl Segments {
    /// Makes a buffer of `size` zeros.
    pub fn new(alloc: Global, size: u32) -> Segments
        ensures { result ≡ record { bytes = replicate size 0; room = WRITES_IN_PLACE } }
    {
        Segments {
            size,
            segments: SmallVec::new(alloc),
        }
    }

    /// Makes a buffer of `size` zeros with `bytes` in a region.
    pub fn lay_in(alloc: Global, size: u32, region: Region, bytes: Bytes) -> Segments
        requires inside { Inside size region }
        requires same { length bytes ≡ region.len }
        ensures bytes { result.bytes ≡ written (replicate size 0) region bytes }
        ensures room { WRITES_IN_PLACE ≤ result.room + 1 }
    {
        let mut buffer = Segments::new(alloc, size);
        buffer.put(region, bytes);
        buffer
    }

    /// Returns the number of bytes of the buffer.
    pub fn size(&self) -> u32
        ensures { result ≡ length self.now.bytes }
    {
        self.size
    }

    /// Tells whether one more write needs no memory.
    pub fn has_room(&self) -> bool
        ensures { IsTrue result ↔ (0 < self.now.room) }
    {
        self.segments.len() < self.segments.capacity()
    }

    /// Makes room for `writes` writes.
    ///
    /// # Errors
    ///
    /// No memory. Nothing changes.
    pub fn reserve(&mut self, writes: usize) -> Result<(), AllocError>
        ensures ok { OnOk result (writes ≤ self.new.room) }
        ensures bytes { self.new.bytes ≡ self.old.bytes }
        ensures err { OnErr result (self.new ≡ self.old) }
    {
        self.segments.reserve(writes)
    }

    /// Replaces a region's bytes. Takes no memory.
    pub fn put(&mut self, region: Region, bytes: Bytes)
        requires inside { Inside (length self.old.bytes) region }
        requires same { length bytes ≡ region.len }
        requires room { 0 < self.old.room }
        ensures written { self.new.bytes ≡ written self.old.bytes region bytes }
        ensures room { self.old.room ≤ self.new.room + 1 }
    {
        lay(&mut self.segments, self.size, region, bytes);
    }

    /// Returns an owner of a region's bytes. They are shared, as by `Bytes::part`, if they lie in
    /// one segment; else they are copied into a new block.
    ///
    /// # Errors
    ///
    /// As `Bytes::part`, or no memory for the copy. Nothing changes.
    pub fn part(&mut self, alloc: Global, from: Region) -> Result<Bytes, AllocError>
        requires { Inside (length self.old.bytes) from }
        ensures ok { IfOk result (λ part. part ≡ read_of self.old.bytes from) }
        ensures few { from.len ≤ FEW → IsOk result }
        ensures same { self.new ≡ self.old }
    {
        match holder(self.segments.as_slice(), self.size, from) {
            Some(i) => part_at(&mut self.segments, self.size, i, alloc, from),
            None => composed(alloc, self.segments.as_slice(), self.size, from),
        }
    }

    /// Returns a region's bytes where they lie, if they lie in one segment.
    pub fn slice_of(&self, from: Region) -> Option<&[u8]>
        requires { Inside (length self.now.bytes) from }
        ensures { IfSome result (λ bytes. bytes.now ≡ read_of self.now.bytes from) }
    {
        let segments = self.segments.as_slice();
        let i = holder(segments, self.size, from)?;
        Some(slice_at(segments, self.size, i, from))
    }

    /// Compares a region with `bytes`. Takes no memory: a region of several segments is put
    /// together a few bytes at a time.
    pub fn has(&self, from: Region, bytes: &[u8]) -> bool
        requires { Inside (length self.now.bytes) from }
        ensures { IsTrue result ↔ (read_of self.now.bytes from ≡ bytes.now) }
    {
        if let Some(own) = self.slice_of(from) {
            return are_same(own, bytes);
        }
        bytes.len() == from.len as usize
            && shows_bytes(self.segments.as_slice(), self.size, from, bytes)
    }

    /// Copies the buffer into an empty vector that has room for it. Takes no memory.
    pub fn copy_to(&self, out: &mut Vec<u8>)
        requires empty { out.old.items ≡ [] }
        requires none { vec_len out.old ≡ 0 }
        requires room { length self.now.bytes ≤ vec_capacity out.old }
        ensures { out.new.items ≡ self.now.bytes }
    {
        let all = Region::front(self.size);
        compose_in(self.segments.as_slice(), self.size, all, out);
    }

    /// Returns a region's bytes and drops the buffer. Bytes of several segments are put together in
    /// `room` and `shell`. Takes no memory.
    pub fn into_part(self, from: Region, room: Vec<u8>, shell: Shell) -> Bytes
        requires inside { Inside (length self.bytes) from }
        requires empty { room.items ≡ [] }
        requires none { vec_len room ≡ 0 }
        requires room { from.len ≤ vec_capacity room }
        ensures { result ≡ read_of self.bytes from }
    {
        let Segments { size, segments } = self;
        match holder(segments.as_slice(), size, from) {
            Some(i) => part_of(segments, size, i, from),
            None => {
                let mut out = room;
                compose_in(segments.as_slice(), size, from, &mut out);
                shell.fill(out)
            }
        }
    }
}
