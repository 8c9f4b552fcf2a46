ghost use Rattle.std.specs.Prelude.{◌≡◌, ◌⊎◌, length, IfErr, IfOk};
ghost use Rattle.coll_core.specs.Numbers.{number_bytes, IsUneven};

use coll_bytes::Bytes;
use coll_kinds::Refusal;
use std::alloc::Global;

/// What a completion hands out: the bytes for MPI's receive buffer, and whose they are.
#[derive(Debug, Drop)]
pub struct Outcome {
    /// The world rank that owned the request.
    pub rank: u8,
    pub comm: u32,
    /// The request's index in its member's posting list on the communicator.
    pub place: u32,
    /// The number of the start, which is the number of starts completed before it.
    pub start: u32,
    /// The collective's value at the member. Messages and other outcomes may share its memory.
    pub bytes: Bytes,
}

impl Outcome {
    /// Returns the outcome as numbers, for a collective over `i32`.
    ///
    /// # Errors
    ///
    /// BadLength if the length is no multiple of four: four bytes were wanted, and the rest was
    /// left. NoMemory.
    pub fn i32s(&self, alloc: Global) -> Result<Vec<i32>, Refusal>
        ensures numbers { IfOk result (λ numbers. number_bytes numbers.items ≡ self.now.bytes) }
        ensures refused { IfErr result (λ why.
            (why ≡ Refusal.NoMemory) ⊎ IsUneven (length self.now.bytes) why) }
    {
        let mut numbers = Vec::new(alloc);
        let mut rest = self.bytes.as_slice();
        while let Some((first, behind)) = rest.split_first_chunk::<4>() {
            numbers.push(u32::from_le_bytes(*first).cast_signed())?;
            rest = behind;
        }
        if rest.is_empty() {
            Ok(numbers)
        } else {
            Err(Refusal::BadLength {
                want: 4,
                got: rest.len(),
            })
        }
    }
}
