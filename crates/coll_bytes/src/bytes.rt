ghost use Rattle.std.specs.Prelude.{◌≡◌, ◌+◌, ◌<◌, ◌≤◌, ◌^◌, ◌==◌, [], length, take, IfErr, IfOk, IfSome, IsOk, vec_capacity, vec_len};
ghost use Rattle.std.specs.Arc.{arc_value};
ghost use Rattle.coll_sched.specs.Regions.{Inside, read_of};

use crate::blocks::{Block, Home};
use coll_sched::Region;
use std::alloc::{AllocError, Global};
use std::marker::Model;
use std::sync::Arc;

/// The most bytes that lie in place, without memory of their own. A part of a block takes the same
/// room, so `Bytes` isn't larger for it.
pub const FEW: usize = 31;

/// Where the bytes lie. A block is freed once the last of its owners is dropped.
#[derive(Debug, Drop)]
enum Memory {
    /// The row begins where a block's words begin, so that moving any `Bytes` moves whole words.
    InPlace {
        words: [u64; 0],
        row: [u8; FEW],
        len: u8,
    },
    /// A part of a block with one owner.
    Owned {
        block: Vec<u8>,
        place: Region,
    },
    /// A part of a block that counts its owners.
    Shared {
        block: Arc<Block>,
        place: Region,
    },
}

/// Immutable bytes. Up to `FEW` of them lie in place; more are a part of a block on the heap, which
/// may have other owners. Contracts see the bytes, never who shares a block.
#[derive(Debug, Drop)]
pub struct Bytes {
    memory: Memory,
}

impl Model for Bytes {
    ghost use Rattle.std.specs.Prelude.{List, ℕ};
    ghost use Rattle.coll_bytes.specs.Memories.{bytes_in, IsPlaced};

    ghost Value = { List ℕ };

    ghost view = { λ b. bytes_in b.memory };

    ghost invariant = { λ b. IsPlaced b.memory };
}

// Makes bytes of a part of a block that has one owner.
fn owned(block: Vec<u8>, place: Region) -> Bytes
    requires inside { Inside (length block.items) place }
    requires fits { place.at + place.len < 2 ^ 32 }
    ensures { result ≡ read_of block.items place }
{
    Bytes {
        memory: Memory::Owned { block, place },
    }
}

// Makes bytes of a part of a block that counts its owners.
pub(crate) fn shared(block: Arc<Block>, place: Region) -> Bytes
    requires inside { Inside (length (arc_value block).bytes.items) place }
    requires fits { place.at + place.len < 2 ^ 32 }
    ensures { result ≡ read_of (arc_value block).bytes.items place }
{
    Bytes {
        memory: Memory::Shared { block, place },
    }
}

// Cuts a region out of a part of a block that has one owner.
#[tactic(auto, using(crate::proofs::Parts::read_read))]
fn owned_part(block: Vec<u8>, place: Region, from: Region) -> Bytes
    requires inside { Inside (length block.items) place }
    requires fits { place.at + place.len < 2 ^ 32 }
    requires part { Inside place.len from }
    ensures { result ≡ read_of (read_of block.items place) from }
{
    Bytes {
        memory: Memory::Owned {
            block,
            place: Region {
                at: place.at + from.at,
                len: from.len,
            },
        },
    }
}

// Cuts a region out of a part of a block that counts its owners.
#[tactic(auto, using(crate::proofs::Parts::read_read))]
fn shared_part(block: Arc<Block>, place: Region, from: Region) -> Bytes
    requires inside { Inside (length (arc_value block).bytes.items) place }
    requires fits { place.at + place.len < 2 ^ 32 }
    requires part { Inside place.len from }
    ensures { result ≡ read_of (read_of (arc_value block).bytes.items place) from }
{
    Bytes {
        memory: Memory::Shared {
            block,
            place: Region {
                at: place.at + from.at,
                len: from.len,
            },
        },
    }
}

// Copies bytes into a vector that has room for them.
fn copied(bytes: &[u8], room: Vec<u8>) -> Vec<u8>
    requires empty { room.items ≡ [] }
    requires none { vec_len room ≡ 0 }
    requires room { length bytes.now ≤ vec_capacity room }
    ensures { result.items ≡ bytes.now }
{
    let mut copy = room;
    let Ok(()) = copy.extend_from_slice(bytes) else {
        unreachable!()
    };
    copy
}

/// Copies `from` over as many bytes. Rows of 0, 4 and 8 bytes are copied as words, without a call.
#[inline(always)]
pub fn copy_few(from: &[u8], into: &mut [u8])
    requires same { length from.now ≡ length into.old }
    ensures { into.new ≡ from.now }
{
    match from.len() {
        0 => {}
        4 => into[..4].copy_from_slice(from),
        8 => into[..8].copy_from_slice(from),
        _ => into.copy_from_slice(from),
    }
}

// Makes a row of `FEW` bytes that begins with these.
#[inline(always)]
fn row_of(bytes: &[u8]) -> [u8; FEW]
    requires { length bytes.now ≤ FEW }
    ensures { take (length bytes.now) result ≡ bytes.now }
{
    let mut row = [0; FEW];
    copy_few(bytes, &mut row[..bytes.len()]);
    row
}

impl Bytes {
    /// Returns an empty `Bytes`.
    pub fn empty() -> Bytes
        ensures { result ≡ [] }
    {
        Bytes::few(&[])
    }

    /// Copies up to `FEW` bytes, in place.
    pub fn few(bytes: &[u8]) -> Bytes
        requires { length bytes.now ≤ FEW }
        ensures { result ≡ bytes.now }
    {
        Bytes {
            memory: Memory::InPlace {
                words: [],
                row: row_of(bytes),
                len: bytes.len() as u8,
            },
        }
    }

    /// Takes the bytes of a vector. Up to `FEW` bytes are copied and the vector's memory is freed;
    /// more keep the vector's memory.
    pub fn from_vec(bytes: Vec<u8>) -> Bytes
        requires { length bytes.items < 2 ^ 32 }
        ensures { result ≡ bytes.items }
    {
        if bytes.len() <= FEW {
            return Bytes::few(&bytes);
        }
        let place = Region::front(bytes.len() as u32);
        owned(bytes, place)
    }

    /// Takes the bytes of a vector in a block that counts its owners. The vector goes back to `home`
    /// once the last of them is dropped.
    ///
    /// # Errors
    ///
    /// No memory for the count.
    pub fn from_block(
        alloc: Global,
        bytes: Vec<u8>,
        home: Option<Home>,
    ) -> Result<Bytes, AllocError>
        requires { length bytes.items < 2 ^ 32 }
        ensures { IfOk result (λ made. made ≡ bytes.items) }
    {
        if bytes.len() <= FEW {
            return Ok(Bytes::from_vec(bytes));
        }
        let place = Region::front(bytes.len() as u32);
        Ok(shared(Arc::new(alloc, Block::new(bytes, home))?, place))
    }

    /// Copies bytes. Up to `FEW` take no memory.
    pub fn copy(alloc: Global, bytes: &[u8]) -> Result<Bytes, AllocError>
        requires { length bytes.now < 2 ^ 32 }
        ensures ok { IfOk result (λ copy. copy ≡ bytes.now) }
        ensures few { length bytes.now ≤ FEW → IsOk result }
    {
        if bytes.len() <= FEW {
            return Ok(Bytes::few(bytes));
        }
        let room = Vec::with_capacity(alloc, bytes.len())?;
        Ok(Bytes::from_vec(copied(bytes, room)))
    }

    /// Returns the bytes.
    pub fn as_slice(&self) -> &[u8]
        ensures { result.now ≡ self.now }
    {
        match &self.memory {
            Memory::InPlace { row, len, .. } => &row[..*len as usize],
            Memory::Owned { block, place } => place.read(block),
            Memory::Shared { block, place } => place.read(&block.bytes),
        }
    }

    /// Returns the number of bytes.
    pub fn len(&self) -> u32
        ensures { result ≡ length self.now }
    {
        match &self.memory {
            Memory::InPlace { len, .. } => u32::from(*len),
            Memory::Owned { place, .. } => place.len,
            Memory::Shared { place, .. } => place.len,
        }
    }

    /// Tells whether there are no bytes.
    pub fn is_empty(&self) -> bool
        ensures { result ≡ (length self.now == 0) }
    {
        self.len() == 0
    }

    /// Returns a second owner of the bytes. Up to `FEW` bytes are copied, longer rows never. The
    /// second owner of a vector's bytes takes memory, because the block begins to count its owners
    /// then.
    ///
    /// # Errors
    ///
    /// No memory for the count, or a full count (2^63 owners). Nothing changes.
    pub fn share(&mut self, alloc: Global) -> Result<Bytes, AllocError>
        ensures ok { IfOk result (λ other. other ≡ self.old) }
        ensures few { length self.old ≤ FEW → IsOk result }
        ensures same { self.new ≡ self.old }
    {
        if let Some(copy) = self.copy_in_place() {
            return Ok(copy);
        }
        let all = Region::front(self.len());
        self.part(alloc, all)
    }

    // Copies bytes that lie in place.
    #[inline(always)]
    fn copy_in_place(&self) -> Option<Bytes>
        ensures { IfSome result (λ copy. copy ≡ self.now) }
    {
        match &self.memory {
            Memory::InPlace { row, len, .. } => Some(Bytes {
                memory: Memory::InPlace {
                    words: [],
                    row: *row,
                    len: *len,
                },
            }),
            _ => None,
        }
    }

    /// Returns an owner of a region's bytes. Copies and allocates as `share` does.
    ///
    /// # Errors
    ///
    /// As `share`.
    pub fn part(&mut self, alloc: Global, from: Region) -> Result<Bytes, AllocError>
        requires { Inside (length self.old) from }
        ensures ok { IfOk result (λ part. part ≡ read_of self.old from) }
        ensures few { from.len ≤ FEW → IsOk result }
        ensures same { self.new ≡ self.old }
    {
        if from.len as usize <= FEW {
            return Ok(Bytes::few(from.read(self.as_slice())));
        }
        self.count_owners(alloc)?;
        self.counted_part(from)
    }

    /// Lets the block count its owners from now on, so that `share_in` copies nothing.
    ///
    /// # Errors
    ///
    /// No memory for the count. Nothing changes.
    pub fn count_owners(&mut self, alloc: Global) -> Result<(), AllocError>
        ensures { self.new ≡ self.old }
    {
        let Bytes { memory } = std::mem::replace(self, Bytes::empty());
        let (counted, done) = match memory {
            Memory::Owned { block, place } => match Arc::new(alloc, Block::new(block, None)) {
                Ok(block) => (shared(block, place), Ok(())),
                Err(failed) => (owned(failed.value.into_bytes(), place), Err(AllocError)),
            },
            memory => (Bytes { memory }, Ok(())),
        };
        *self = counted;
        done
    }

    /// Returns a second owner of the bytes if their block counts its owners, else None, as for
    /// bytes in place. Takes no memory.
    pub fn share_counted(&self) -> Option<Bytes>
        ensures { IfSome result (λ other. other ≡ self.now) }
    {
        self.counted_part(Region::front(self.len())).ok()
    }

    /// Tells whether the block has more than `count` owners; `false` if the block doesn't count
    /// them. The answer holds at one moment, because other threads may add or drop owners.
    pub fn has_owners_beyond(&self, count: usize) -> bool {
        match &self.memory {
            Memory::Shared { block, .. } => Arc::strong_count(block) > count,
            _ => false,
        }
    }

    /// Returns a second owner of the bytes if their block counts its owners or they lie in place,
    /// else a copy in the vector `room`. Takes no memory.
    pub fn share_in(&self, room: Vec<u8>) -> Bytes
        requires empty { room.items ≡ [] }
        requires none { vec_len room ≡ 0 }
        requires room { FEW < length self.now → length self.now ≤ vec_capacity room }
        ensures { result ≡ self.now }
    {
        if let Some(copy) = self.copy_in_place() {
            return copy;
        }
        if self.len() as usize <= FEW {
            return Bytes::few(self.as_slice());
        }
        let all = Region::front(self.len());
        match self.counted_part(all) {
            Ok(other) => other,
            Err(_) => Bytes::from_vec(copied(self.as_slice(), room)),
        }
    }

    // Returns a further owner of a region's bytes, if the block counts its owners.
    fn counted_part(&self, from: Region) -> Result<Bytes, AllocError>
        requires { Inside (length self.now) from }
        ensures { IfOk result (λ part. part ≡ read_of self.now from) }
    {
        match &self.memory {
            Memory::Shared { block, place } => {
                let other = Arc::try_clone(block)?;
                Ok(shared_part(other, *place, from))
            }
            _ => Err(AllocError),
        }
    }

    /// Returns the bytes of a region and gives up the others. Takes no memory; the block stays
    /// whole.
    pub fn into_part(self, from: Region) -> Bytes
        requires { Inside (length self) from }
        ensures { result ≡ read_of self from }
    {
        if from.len as usize <= FEW {
            return Bytes::few(from.read(self.as_slice()));
        }
        let Bytes { memory } = self;
        match memory {
            Memory::InPlace { .. } => unreachable!(),
            Memory::Owned { block, place } => owned_part(block, place, from),
            Memory::Shared { block, place } => shared_part(block, place, from),
        }
    }

    /// Returns the bytes as a vector. It is the block's own vector if nobody else owns the block,
    /// else a copy in `room`. Takes no memory.
    pub fn into_vec(self, room: Vec<u8>) -> Vec<u8>
        requires empty { room.items ≡ [] }
        requires none { vec_len room ≡ 0 }
        requires room { length self ≤ vec_capacity room }
        ensures { result.items ≡ self }
    {
        match self.try_into_vec() {
            Ok(front) => front,
            Err(bytes) => copied(bytes.as_slice(), room),
        }
    }

    /// Returns the bytes in their block's own vector. Bytes that don't begin the block are moved to
    /// its beginning. Takes no memory.
    ///
    /// # Errors
    ///
    /// The bytes, if others own the block too, or if the bytes lie in place.
    pub fn try_into_vec(self) -> Result<Vec<u8>, Bytes>
        ensures ok { IfOk result (λ front. front.items ≡ self) }
        ensures err { IfErr result (λ bytes. bytes ≡ self) }
    {
        let Bytes { memory } = self;
        match memory {
            Memory::Owned { block, place } => Ok(front_of(block, place)),
            Memory::Shared { block, place } => match Arc::try_unwrap(block) {
                Ok(block) => Ok(front_of(block.into_bytes(), place)),
                Err(block) => Err(shared(block, place)),
            },
            memory => Err(Bytes { memory }),
        }
    }
}

// Moves a region of a block to the block's beginning, and cuts the rest.
fn front_of(block: Vec<u8>, place: Region) -> Vec<u8>
    requires { Inside (length block.items) place }
    ensures { result.items ≡ read_of block.items place }
{
    let mut front = block;
    if place.at > 0 {
        place.copy(Region::front(place.len), &mut front);
    }
    front.truncate(place.len as usize);
    front
}

impl Default for Bytes {
    ghost is_default = { λ b. b ≡ [] };

    fn default() -> Bytes {
        Bytes::empty()
    }
}
