//! The actions of a schedule: what they read from its buffer and write into it.

ghost use Rattle.std.specs.Prelude.{◌≡◌, ◌+◌, ◌<◌, ◌^◌, ◌%◌, [], length, IfOk, IsOkUnless, IsTrue, OnErr, OnOk};
ghost use Rattle.coll_kinds.specs.Checks.{allowed};
ghost use Rattle.coll_kinds.specs.Elements.{width};
ghost use Rattle.coll_ops.specs.Combinations.{combined as combination_of};
ghost use Rattle.coll_ops.specs.Values.{all_rows};
ghost use Rattle.coll_sched.specs.Actions.{Fits, IsLocal, wrote};
ghost use Rattle.coll_sched.specs.Regions.{Inside, read_of, written};

use crate::buffer::{Buffer, Memory, SHORT};
use crate::combined::{combined, combined_few};
use coll_bytes::{Bytes, FEW};
use coll_kinds::{Datatype, Op, Refusal};
use coll_match::{Message, MessageParts};
use coll_sched::{Action, Region, Round};
use std::alloc::Global;

/// Counts the segments that an action writes at most: one for each block of `unit` bytes, unless
/// these are short.
fn segment_count(action: &Action, unit: u32) -> usize {
    match action {
        Action::Send { .. } => 0,
        Action::Copy { into, .. } | Action::Recv { into, .. } if unit > SHORT => {
            1 + (into.len / unit) as usize
        }
        Action::Copy { .. } | Action::Recv { .. } | Action::Combine { .. } => 1,
    }
}

/// Counts the segments that the actions of a schedule write at most.
pub(crate) fn write_count(rounds: &[Round], unit: u32) -> usize {
    let mut count: usize = 0;
    for round in rounds {
        for action in round.actions() {
            count = count.saturating_add(segment_count(action, unit));
        }
    }
    count
}

impl Buffer {
    /// Returns a region's bytes as a message. A region of a long buffer is cut into blocks, each as
    /// long as the row that the member gives, unless these are short. Each block that lies in one
    /// segment is shared. The only refusal is NoMemory.
    #[inline(always)]
    pub(crate) fn message(&mut self, alloc: Global, from: Region) -> Result<Message, Refusal>
        requires { Inside (length self.old) from }
        ensures ok { IfOk result (λ message. message ≡ read_of self.old from) }
        ensures same { self.new ≡ self.old }
        ensures refusal { IsOkUnless result Refusal.NoMemory }
    {
        if let Memory::InSegments(segmented) = &mut self.memory {
            let unit = segmented.long.unit;
            if unit > SHORT && unit < from.len {
                let blocks = segmented.long.parts(alloc, from, unit)?;
                return Ok(Message::several(alloc, blocks)?);
            }
        }
        Ok(Message::whole(self.part(alloc, from)?))
    }

    /// Replaces a region's bytes by those of a message.
    #[inline(always)]
    pub(crate) fn receive(&mut self, into: Region, message: Message)
        requires inside { Inside (length self.old) into }
        requires fits { into.at + into.len < 2 ^ 32 }
        requires same { length message ≡ into.len }
        ensures { self.new ≡ written self.old into message }
    {
        match message.into_parts() {
            MessageParts::Whole(bytes) => self.write(into, bytes),
            MessageParts::Several(parts) => self.write_parts(into, parts),
        }
    }

    // Replaces a region's bytes by those of all parts, from the last part on.
    fn write_parts(&mut self, into: Region, parts: Vec<Bytes>)
        requires inside { Inside (length self.old) into }
        requires fits { into.at + into.len < 2 ^ 32 }
        requires same { length (all_rows parts.items) ≡ into.len }
        ensures { self.new ≡ written self.old into (all_rows parts.items) }
    {
        let _count = parts.as_slice().len();
        let mut rest = parts;
        let mut end = into.len;
        while let Some(part) = rest.pop() {
            let len = part.len();
            end -= len;
            let place = Region {
                at: into.at + end,
                len,
            };
            self.write(place, part);
        }
    }

    /// Combines two regions. A few bytes that lie together are combined where they lie. The only
    /// refusal is NoMemory.
    fn combination(
        &mut self,
        alloc: Global,
        op: Op,
        ty: Datatype,
        left: Region,
        right: Region,
    ) -> Result<Bytes, Refusal>
        requires first { Inside (length self.old) left }
        requires second { Inside (length self.old) right }
        requires allowed { IsTrue (allowed op ty) }
        requires whole { left.len % width ty ≡ 0 }
        requires same { right.len ≡ left.len }
        ensures ok { IfOk result (λ bytes. bytes ≡ combination_of op ty (read_of self.old left) (read_of self.old right)) }
        ensures long { IfOk result (λ bytes. length bytes ≡ left.len) }
        ensures same { self.new ≡ self.old }
        ensures refusal { IsOkUnless result Refusal.NoMemory }
    {
        if left.len as usize <= FEW {
            if let Some(whole) = self.whole() {
                let first = left.read(whole);
                let second = right.read(whole);
                return Ok(combined_few(op, ty, first, second));
            }
        }
        let first = self.part(alloc, left)?;
        let second = self.part(alloc, right)?;
        combined(alloc, op, ty, &first, &second, None)
    }

    /// Carries out a Copy or a Combine within the buffer. A Copy of several blocks shares each
    /// block, as `message` does. The only refusal is NoMemory.
    pub(crate) fn act(&mut self, alloc: Global, action: Action) -> Result<(), Refusal>
        requires fits { Fits (length self.old) action }
        requires small { length self.old < 2 ^ 32 }
        requires local { IsLocal action }
        ensures ok { OnOk result (self.new ≡ wrote (λ from. []) self.old action self.old) }
        ensures err { OnErr result (self.new ≡ self.old) }
        ensures refusal { IsOkUnless result Refusal.NoMemory }
    {
        match action {
            Action::Copy { from, into } => {
                let message = self.message(alloc, from)?;
                self.receive(into, message);
                Ok(())
            }
            Action::Combine {
                op,
                ty,
                left,
                right,
                into,
            } => {
                let bytes = self.combination(alloc, op, ty, left, right)?;
                self.write(into, bytes);
                Ok(())
            }
            Action::Send { .. } | Action::Recv { .. } => unreachable!(),
        }
    }
}
