//! A schedule's buffer as it is laid before the engine is locked.

ghost use Rattle.std.specs.Prelude.{◌≡◌, [], length, IfOk, IsOkUnless};
ghost use Rattle.coll_core.specs.Buffers.{HasRoom, IsRoom};
ghost use Rattle.coll_sched.specs.Families.{laid_in};

use crate::buffer::actions::write_count;
use crate::buffer::{Buffer, Memory, SHORT, Segmented};
use crate::contribution::Contribution;
use crate::long::Long;
use crate::row::Row;
use coll_bytes::{Blocks, Bytes, FEW, Segments, Shell};
use coll_kinds::Refusal;
use coll_sched::{Region, Schedule};
use std::alloc::Global;
use std::marker::Model;

/// A schedule's buffer with the contribution in it. A long one lacks the memory for its bytes in
/// one piece and for a copy of the outcome, which the engine adds from the blocks that it keeps.
#[derive(Debug, Drop)]
pub struct Laid {
    memory: Memory,
}

impl Model for Laid {
    ghost use Rattle.std.specs.Prelude.{List, ℕ};
    ghost use Rattle.coll_core.specs.Buffers.{HasSpare, bytes_of};

    ghost Value = { List ℕ };

    ghost view = { λ b. bytes_of b.memory };

    ghost invariant = { λ b. HasSpare b.memory };
}

// Adds the memory for the bytes in one piece and for a copy of the outcome.
fn furnish(
    mut segmented: Box<Segmented>,
    alloc: Global,
    blocks: &Blocks,
) -> Result<Box<Segmented>, Refusal>
    ensures same { IfOk result (λ r. r.value.long ≡ segmented.value.long) }
    ensures own { IfOk result (λ r. IsRoom r.value.own (length r.value.long.segments.bytes)) }
    ensures spare { IfOk result (λ r. HasRoom r.value.spare (length r.value.long.segments.bytes)) }
    ensures refusal { IsOkUnless result Refusal.NoMemory }
{
    let size = segmented.long.segments.size() as usize;
    segmented.own = blocks.reserve(alloc, size)?;
    segmented.spare = blocks.reserve(alloc, size)?;
    Ok(segmented)
}

impl Laid {
    /// Returns a buffer without bytes. Takes no memory.
    pub(crate) fn empty(alloc: Global) -> Laid
        ensures { result ≡ [] }
    {
        let _alloc = alloc;
        Laid::few(Row::empty())
    }

    // Makes a buffer of up to `FEW` bytes.
    fn few(row: Row) -> Laid
        ensures { result ≡ row }
    {
        Laid {
            memory: Memory::InPlace(row),
        }
    }

    /// Makes the schedule's buffer: the contribution in its input region, zeros elsewhere. A long
    /// buffer shares the contribution. The only refusal is NoMemory.
    #[inline(always)]
    pub(crate) fn lay_in(
        alloc: Global,
        schedule: &Schedule,
        given: &mut Contribution,
    ) -> Result<Laid, Refusal>
        requires { length given.old ≡ schedule.now.input.len }
        ensures ok { IfOk result (λ laid. laid ≡ laid_in schedule.now given.old) }
        ensures refusal { IsOkUnless result Refusal.NoMemory }
        ensures same { given.new ≡ given.old }
    {
        let size = schedule.size();
        if size as usize <= FEW {
            return Ok(Laid::few(Row::lay_in(schedule, given.as_slice())));
        }
        if size <= SHORT {
            return Laid::lay_short(alloc, schedule, given.as_slice());
        }
        let input = schedule.input();
        let shared = given.share(alloc)?;
        Laid::lay_long(alloc, schedule, input, shared)
    }

    // Makes a buffer whose bytes lie together from the beginning.
    fn lay_short(alloc: Global, schedule: &Schedule, bytes: &[u8]) -> Result<Laid, Refusal>
        requires { length bytes.now ≡ schedule.now.input.len }
        ensures ok { IfOk result (λ laid. laid ≡ laid_in schedule.now bytes.now) }
        ensures refusal { IsOkUnless result Refusal.NoMemory }
    {
        let own = schedule.lay_in(alloc, bytes)?;
        let spare = Vec::with_capacity(alloc, own.len())?;
        Ok(Laid {
            memory: Memory::Together { own, spare },
        })
    }

    // Makes a buffer of segments, the first of which is the contribution. The contribution's block
    // counts its owners from the beginning, because it may become the outcome.
    fn lay_long(
        alloc: Global,
        schedule: &Schedule,
        input: Region,
        given: Bytes,
    ) -> Result<Laid, Refusal>
        requires place { input ≡ schedule.now.input }
        requires same { length given ≡ schedule.now.input.len }
        ensures ok { IfOk result (λ laid. laid ≡ laid_in schedule.now given) }
        ensures refusal { IsOkUnless result Refusal.NoMemory }
    {
        let size = schedule.size();
        let writes = write_count(schedule.rounds(), input.len);
        let mut first = given;
        first.count_owners(alloc)?;
        let mut segments = Segments::lay_in(alloc, size, input, first);
        segments.reserve(writes)?;
        let shell = Shell::new(alloc);
        let segmented = Segmented {
            long: Long::new(segments, shell, input.len),
            own: Vec::new(alloc),
            spare: Vec::new(alloc),
        };
        match Box::new(alloc, segmented) {
            Ok(segmented) => Ok(Laid {
                memory: Memory::InSegments(segmented),
            }),
            Err(_) => Err(Refusal::NoMemory),
        }
    }

    /// Returns the buffer with its memory. The only refusal is NoMemory.
    #[inline(always)]
    pub(crate) fn furnished(self, alloc: Global, blocks: &Blocks) -> Result<Buffer, Refusal>
        ensures ok { IfOk result (λ buffer. buffer ≡ self) }
        ensures refusal { IsOkUnless result Refusal.NoMemory }
    {
        match self.memory {
            Memory::InSegments(segmented) => Ok(Buffer {
                memory: Memory::InSegments(furnish(segmented, alloc, blocks)?),
            }),
            memory => Ok(Buffer { memory }),
        }
    }
}
