//! The bytes that a schedule's actions read and write.

mod actions;
mod laid;

ghost use Rattle.std.specs.Prelude.{◌≡◌, ◌≤◌, ◌↔◌, [], length, IfOk, IfSome, IsOkUnless, IsTrue};
ghost use Rattle.std.specs.Option.{ForSome};
ghost use Rattle.coll_core.specs.Buffers.{HasRoom, HasRooms, IsRoom, bytes_of};
ghost use Rattle.coll_ops.specs.Combinations.{combined as combination_of};
ghost use Rattle.coll_sched.specs.Regions.{Inside, read_of, written};

use crate::long::{Awaited, Long};
use crate::row::Row;
use crate::word::{WORD, Word};
use crate::work::Work;
use coll_bytes::{Blocks, Bytes, FEW, Segments};
use coll_kinds::Refusal;
use coll_ops::are_same;
use coll_sched::Region;
pub use laid::Laid;
use std::alloc::Global;
use std::marker::Model;

/// Buffers of up to this many bytes lie in one piece from the beginning, because sharing so few
/// bytes costs more than copying them.
pub(crate) const SHORT: u32 = 1_024;

/// The memory of a long buffer until its bytes are put together. It comes from the engine's blocks,
/// to which it mostly goes back without a byte written into it.
#[derive(Debug, Drop)]
struct Segmented {
    long: Long,
    /// Memory for the bytes in one piece, and for the outcome.
    own: Vec<u8>,
    /// Memory for a copy of the outcome, as in `Memory::Together`.
    spare: Vec<u8>,
}

/// Where a buffer's bytes lie.
#[derive(Debug, Drop)]
enum Memory {
    /// Up to `FEW` bytes, in place.
    InPlace(Row),
    /// Bytes in one piece.
    Together {
        own: Vec<u8>,
        /// Memory for a copy of the outcome, which is used if the outcome can't have a second
        /// owner.
        spare: Vec<u8>,
    },
    /// Segments. They lie in a block of their own, because a small record is cheap to move.
    InSegments(Box<Segmented>),
}

/// A schedule's buffer. Up to `FEW` bytes lie in the record and take no memory. The writes into a
/// long buffer lie in segments, which messages, operands, contributions and outcomes share. Once
/// there is no room for one more segment, the bytes are put together, and later writes copy. So
/// neither a write nor a completion takes memory.
#[derive(Debug, Drop)]
pub struct Buffer {
    memory: Memory,
}

impl Model for Buffer {
    ghost use Rattle.std.specs.Prelude.{List, ℕ};
    ghost use Rattle.coll_core.specs.Buffers.{HasRooms, bytes_of};

    ghost Value = { List ℕ };

    ghost view = { λ b. bytes_of b.memory };

    ghost invariant = { λ b. HasRooms b.memory };
}

/// Cuts a region out, in the memory of the buffer. The bytes are moved at most once. They are moved
/// in one call if source and target don't overlap, else byte by byte.
fn cut(buffer: Vec<u8>, region: Region) -> Vec<u8>
    requires { Inside (length buffer.items) region }
    ensures { result.items ≡ read_of buffer.items region }
{
    let mut bytes = buffer;
    if region.at > 0 {
        region.copy(Region::front(region.len), &mut bytes);
    }
    bytes.truncate(region.len as usize);
    bytes
}

/// Writes into a region of bytes that lie in one piece.
fn write_long(into: Region, bytes: &Bytes, own: &mut Vec<u8>)
    requires inside { Inside (length own.old.items) into }
    requires same { length bytes.now ≡ into.len }
    ensures { own.new.items ≡ written own.old.items into bytes.now }
{
    // A barrier's messages have no bytes.
    if into.len > 0 {
        into.write(bytes.as_slice(), own);
    }
}

/// Puts segments together in one piece, with `bytes` in place of a region.
fn put_together(segmented: Segmented, into: Region, bytes: &Bytes) -> Memory
    requires own { IsRoom segmented.own (length segmented.long.segments.bytes) }
    requires spare { HasRoom segmented.spare (length segmented.long.segments.bytes) }
    requires inside { Inside (length segmented.long.segments.bytes) into }
    requires same { length bytes.now ≡ into.len }
    ensures bytes { bytes_of result ≡ written segmented.long.segments.bytes into bytes.now }
    ensures rooms { HasRooms result }
{
    let Segmented { long, own, spare } = segmented;
    let mut whole = own;
    long.segments.copy_to(&mut whole);
    write_long(into, bytes, &mut whole);
    Memory::Together { own: whole, spare }
}

/// Remembers that the result of a handed-out combination will lie in its cell, if there is memory
/// for a cell.
fn await_combination(long: &mut Long, alloc: Global, work: &mut Work, left: Region, right: Region)
    requires left { work.old.left ≡ read_of long.old.segments.bytes left }
    requires right { work.old.right ≡ read_of long.old.segments.bytes right }
    ensures same { long.new.segments ≡ long.old.segments }
    ensures work { work.new ≡ work.old }
{
    let awaited = match work.make_cell(alloc) {
        Some(cell) => Some(Awaited {
            op: work.op(),
            ty: work.ty(),
            left,
            right,
            cell,
        }),
        None => None,
    };
    long.set_awaited(awaited);
}

/// Returns another owner of a region's bytes: the one that is known, else of the segment that has
/// all of them.
fn known_or_whole(
    known: Option<Bytes>,
    segments: &mut Segments,
    alloc: Global,
    region: Region,
) -> Option<Bytes>
    requires inside { Inside (length segments.old.bytes) region }
    requires known { ForSome known (λ bytes. bytes ≡ read_of segments.old.bytes region) }
    ensures bytes { IfSome result (λ bytes. bytes ≡ read_of segments.old.bytes region) }
    ensures same { segments.new ≡ segments.old }
{
    if known.is_some() {
        return known;
    }
    segments.slice_of(region)?;
    segments.part(alloc, region).ok()
}

/// Returns memory for an outcome of so many bytes: a vector that was written before, if one is kept,
/// because it has pages. Then the buffer's own goes back to `blocks`. Takes no memory.
fn written_room(own: Vec<u8>, len: usize, blocks: &Blocks) -> Vec<u8>
    requires { IsRoom own len }
    ensures { IsRoom result len }
{
    match blocks.take_written(len, own.capacity()) {
        Some(room) => {
            blocks.keep(own);
            room
        }
        None => own,
    }
}

impl Buffer {
    /// Returns a buffer without bytes. Takes no memory.
    pub fn empty(alloc: Global) -> Buffer
        ensures { result ≡ [] }
    {
        let _alloc = alloc;
        Buffer::few(Row::empty())
    }

    // Makes a buffer of up to `FEW` bytes.
    fn few(row: Row) -> Buffer
        ensures { result ≡ row }
    {
        Buffer {
            memory: Memory::InPlace(row),
        }
    }

    /// Replaces a region's bytes.
    #[inline(always)]
    pub(crate) fn write(&mut self, into: Region, bytes: Bytes)
        requires inside { Inside (length self.old) into }
        requires same { length bytes ≡ into.len }
        ensures { self.new ≡ written self.old into bytes }
    {
        match &mut self.memory {
            Memory::InPlace(row) => {
                row.write(into, bytes.as_slice());
                return;
            }
            Memory::Together { own, .. } => {
                write_long(into, &bytes, own);
                return;
            }
            Memory::InSegments(segmented) => {
                if segmented.long.segments.has_room() {
                    segmented.long.put(into, bytes);
                    return;
                }
            }
        }
        let before = std::mem::replace(&mut self.memory, Memory::InPlace(Row::empty()));
        let Memory::InSegments(segmented) = before else {
            unreachable!()
        };
        self.memory = put_together(Box::into_inner(segmented), into, &bytes);
    }

    /// Returns an owner of a region's bytes: shared if they lie in one segment, else copied. The
    /// only refusal is NoMemory.
    #[inline(always)]
    pub(crate) fn part(&mut self, alloc: Global, from: Region) -> Result<Bytes, Refusal>
        requires { Inside (length self.old) from }
        ensures ok { IfOk result (λ part. part ≡ read_of self.old from) }
        ensures same { self.new ≡ self.old }
        ensures refusal { IsOkUnless result Refusal.NoMemory }
    {
        match &mut self.memory {
            Memory::InPlace(row) => Ok(Bytes::few(from.read(row.as_slice()))),
            Memory::Together { own, .. } => Ok(Bytes::copy(alloc, from.read(own))?),
            Memory::InSegments(segmented) => Ok(segmented.long.part(alloc, from)?),
        }
    }

    /// Copies a region of up to eight bytes. Takes no memory.
    #[inline(always)]
    pub(crate) fn word(&mut self, alloc: Global, from: Region) -> Word
        requires inside { Inside (length self.old) from }
        requires short { from.len ≤ WORD }
        ensures word { result ≡ read_of self.old from }
        ensures same { self.new ≡ self.old }
    {
        match &mut self.memory {
            Memory::InPlace(row) => Word::of(from.read(row.as_slice())),
            Memory::Together { own, .. } => Word::of(from.read(own)),
            Memory::InSegments(segmented) => {
                let Ok(part) = segmented.long.part(alloc, from) else {
                    unreachable!()
                };
                Word::of(part.as_slice())
            }
        }
    }

    /// Remembers that the result of a handed-out combination will lie in its cell. Does nothing if
    /// there is no memory for a cell, or if the buffer's bytes lie together.
    pub(crate) fn await_result(
        &mut self,
        alloc: Global,
        work: &mut Work,
        left: Region,
        right: Region,
    )
        requires left { work.old.left ≡ read_of self.old left }
        requires right { work.old.right ≡ read_of self.old right }
        ensures same { self.new ≡ self.old }
        ensures work { work.new ≡ work.old }
    {
        if let Memory::InSegments(segmented) = &mut self.memory {
            await_combination(&mut segmented.long, alloc, work, left, right);
        }
    }

    /// Returns the combination whose result is awaited in a cell.
    #[inline(always)]
    pub(crate) fn awaited(&self) -> Option<&Awaited>
        ensures { IfSome result (λ a. a.now.cell ≡ combination_of a.now.op a.now.ty (read_of self.now a.now.left) (read_of self.now a.now.right)) }
    {
        match &self.memory {
            Memory::InSegments(segmented) => segmented.long.awaited(),
            _ => None,
        }
    }

    /// Compares a region with `bytes`.
    #[inline(always)]
    pub(crate) fn has(&self, from: Region, bytes: &[u8]) -> bool
        requires { Inside (length self.now) from }
        ensures { IsTrue result ↔ (read_of self.now from ≡ bytes.now) }
    {
        match &self.memory {
            Memory::InPlace(row) => are_same(from.read(row.as_slice()), bytes),
            Memory::Together { own, .. } => are_same(from.read(own), bytes),
            Memory::InSegments(segmented) => segmented.long.segments.has(from, bytes),
        }
    }

    // Returns all bytes, if they lie in one piece.
    #[inline(always)]
    fn whole(&self) -> Option<&[u8]>
        ensures { IfSome result (λ bytes. bytes.now ≡ self.now) }
    {
        match &self.memory {
            Memory::InPlace(row) => Some(row.as_slice()),
            Memory::Together { own, .. } => Some(own),
            Memory::InSegments(_) => None,
        }
    }

    /// Takes the outcome's region out, together with memory for a copy of it, and leaves an empty
    /// buffer. If another owner of the same bytes is known, it is handed out, and the segments go
    /// unread. Takes no memory, and copies only bytes that lie together. Memory that isn't needed
    /// goes back to `blocks`.
    #[inline(always)]
    pub(crate) fn take(
        &mut self,
        alloc: Global,
        region: Region,
        known: Option<Bytes>,
        blocks: &Blocks,
    ) -> (Bytes, Vec<u8>)
        requires inside { Inside (length self.old) region }
        requires known { ForSome known (λ bytes. bytes ≡ read_of self.old region) }
        ensures bytes { result.0 ≡ read_of self.old region }
        ensures room { HasRoom result.1 (length result.0) }
        ensures none { self.new ≡ [] }
    {
        let Buffer { memory } = std::mem::replace(self, Buffer::empty(alloc));
        match memory {
            Memory::InPlace(row) => {
                let part = Bytes::few(region.read(row.as_slice()));
                (part, Vec::new(alloc))
            }
            Memory::Together { own, spare } => (Bytes::from_vec(cut(own, region)), spare),
            Memory::InSegments(segmented) => {
                let Segmented { long, own, spare } = Box::into_inner(segmented);
                let Long {
                    mut segments,
                    shell,
                    ..
                } = long;
                match known_or_whole(known, &mut segments, alloc, region) {
                    Some(bytes) => {
                        blocks.keep(own);
                        (bytes, spare)
                    }
                    None => {
                        let room = written_room(own, region.len as usize, blocks);
                        (segments.into_part(region, room, shell), spare)
                    }
                }
            }
        }
    }
}
