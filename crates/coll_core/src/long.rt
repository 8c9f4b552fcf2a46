//! The bytes of a long buffer, and the combination whose result is awaited in a cell.

ghost use Rattle.std.specs.Prelude.{◌≡◌, ◌+◌, ◌-◌, ◌<◌, ◌≤◌, ◌^◌, ◌↔◌, length, min, IfOk, IfSome, IsOk, IsTrue};
ghost use Rattle.std.specs.Option.{ForSome};
ghost use Rattle.coll_bytes.specs.declared.bytes.TheConstants.{FEW};
ghost use Rattle.coll_ops.specs.Combinations.{combined as combination_of};
ghost use Rattle.coll_ops.specs.Values.{all_rows};
ghost use Rattle.coll_sched.specs.Regions.{Inside, read_of, written};

use coll_bytes::{Bytes, Segments, Shell};
use coll_kinds::{Datatype, Op};
use coll_match::ResultCell;
use coll_sched::Region;
use std::alloc::{AllocError, Global};

/// A combination of two regions, and the cell for its result.
#[derive(Debug, Drop)]
pub(crate) struct Awaited {
    pub(crate) op: Op,
    pub(crate) ty: Datatype,
    pub(crate) left: Region,
    pub(crate) right: Region,
    pub(crate) cell: ResultCell,
}

impl Awaited {
    /// Tells whether it combines these regions by this operation and type.
    pub(crate) fn is_of(&self, op: Op, ty: Datatype, left: Region, right: Region) -> bool
        ensures { IsTrue result ↔ ((self.now.op ≡ op) × (self.now.ty ≡ ty) × (self.now.left ≡ left) × (self.now.right ≡ right)) }
    {
        self.op == op && self.ty == ty && self.left == left && self.right == right
    }
}

/// The contents of a long buffer until its bytes are put together.
#[derive(Debug, Drop)]
pub(crate) struct Long {
    pub(crate) segments: Segments,
    /// The count of owners for an outcome that is put together.
    pub(crate) shell: Shell,
    /// The number of bytes of the row that the member gives, of which a buffer has several where
    /// members gather.
    pub(crate) unit: u32,
    /// The combination that was handed out last, until the buffer is written to.
    awaited: Option<Awaited>,
    ghost awaits: { ForSome awaited (λ a. a.cell ≡ combination_of a.op a.ty (read_of segments.bytes a.left) (read_of segments.bytes a.right)) },
}

// Returns the next part of `from`, at most `unit` bytes long, after its first `done` bytes.
fn part_behind(from: Region, done: u32, unit: u32) -> Region
    requires low { done < from.len }
    requires fits { from.at + from.len < 2 ^ 32 }
    ensures { result ≡ record { at = from.at + done; len = min (from.len - done) unit } }
{
    Region {
        at: from.at + done,
        len: (from.len - done).min(unit),
    }
}

impl Long {
    pub(crate) fn new(segments: Segments, shell: Shell, unit: u32) -> Long
        ensures { result.segments ≡ segments }
    {
        Long {
            segments,
            shell,
            unit,
            awaited: None,
        }
    }

    /// Replaces a region's bytes. Nothing is awaited after that.
    #[inline(always)]
    pub(crate) fn put(&mut self, into: Region, bytes: Bytes)
        requires inside { Inside (length self.old.segments.bytes) into }
        requires same { length bytes ≡ into.len }
        requires room { 0 < self.old.segments.room }
        ensures { self.new.segments.bytes ≡ written self.old.segments.bytes into bytes }
    {
        self.awaited = None;
        self.segments.put(into, bytes);
    }

    /// Returns an owner of a region's bytes: shared if they lie in one segment, else copied.
    #[inline(always)]
    pub(crate) fn part(&mut self, alloc: Global, from: Region) -> Result<Bytes, AllocError>
        requires { Inside (length self.old.segments.bytes) from }
        ensures ok { IfOk result (λ part. part ≡ read_of self.old.segments.bytes from) }
        ensures few { from.len ≤ FEW → IsOk result }
        ensures same { self.new.segments ≡ self.old.segments }
    {
        self.segments.part(alloc, from)
    }

    /// Returns owners of a region's bytes in parts of `unit` bytes, the last of which may be
    /// shorter. Each part that lies in one segment is shared, else copied.
    pub(crate) fn parts(
        &mut self,
        alloc: Global,
        from: Region,
        unit: u32,
    ) -> Result<Vec<Bytes>, AllocError>
        requires inside { Inside (length self.old.segments.bytes) from }
        requires some { 0 < unit }
        ensures ok { IfOk result (λ parts. all_rows parts.items ≡ read_of self.old.segments.bytes from) }
        ensures same { self.new.segments ≡ self.old.segments }
    {
        let _size = self.segments.size();
        let mut parts = Vec::new(alloc);
        let mut done = 0;
        while done < from.len {
            let piece = part_behind(from, done, unit);
            let part = self.part(alloc, piece)?;
            parts.push(part)?;
            done += piece.len;
        }
        Ok(parts)
    }

    /// Replaces the combination whose result is awaited.
    pub(crate) fn set_awaited(&mut self, awaited: Option<Awaited>)
        requires { ForSome awaited (λ a. a.cell ≡ combination_of a.op a.ty (read_of self.old.segments.bytes a.left) (read_of self.old.segments.bytes a.right)) }
        ensures { self.new.segments ≡ self.old.segments }
    {
        self.awaited = awaited;
    }

    /// Returns the combination whose result is awaited.
    pub(crate) fn awaited(&self) -> Option<&Awaited>
        ensures { IfSome result
            (λ a. a.now.cell ≡ combination_of a.now.op a.now.ty (read_of self.now.segments.bytes a.now.left) (read_of self.now.segments.bytes a.now.right)) }
    {
        self.awaited.as_ref()
    }
}
