//! Vectors that are used again, and blocks whose vectors come back.

ghost use Rattle.std.specs.Prelude.{◌≡◌, ◌≤◌, [], IfOk, IfSome, vec_capacity, vec_len};

use crate::shelf::Shelf;
use std::alloc::{AllocError, Global};
use std::fmt;
use std::fmt::Write;
use std::sync::Arc;

/// Vectors that an engine uses again for rows of the same length, from 4 KiB to 128 MiB. New memory
/// takes longer than a combination into it, because its pages are made at their first use, and
/// because the allocator gives long vectors back to the system. At most 64 vectors and 128 MiB are
/// kept; all are freed when the engine is dropped. No call blocks or fails for it: if other threads
/// are here, a vector is made or freed. Threads that wait prepare the next vectors
/// (`Home::prepare`). No contract sees which vectors are kept.
#[derive(Debug)]
pub struct Blocks {
    home: Home,
}

/// Where vectors come from and go back to. It may outlive its engine, and then keeps none.
#[derive(Drop)]
pub struct Home {
    shelf: Arc<Shelf>,
}

impl Blocks {
    /// Makes place for the vectors.
    ///
    /// # Errors
    ///
    /// No memory.
    pub fn new(alloc: Global) -> Result<Blocks, AllocError> {
        let shelf = Arc::new(alloc, Shelf::new(alloc)?)?;
        Ok(Blocks {
            home: Home { shelf },
        })
    }

    /// Returns an owner of the home. Takes no memory.
    pub fn share(&self) -> Option<Home> {
        self.home.share()
    }

    /// Returns an empty vector for a row: one as long that was kept, else a new one.
    ///
    /// # Errors
    ///
    /// No memory.
    pub fn take(&self, alloc: Global, len: usize) -> Result<Vec<u8>, AllocError>
        ensures empty { IfOk result (λ room. room.items ≡ []) }
        ensures none { IfOk result (λ room. vec_len room ≡ 0) }
        ensures room { IfOk result (λ room. len ≤ vec_capacity room) }
    {
        self.home.take(alloc, len)
    }

    /// Returns an empty vector for a row of `len` bytes, if one was kept that was written before, at
    /// least in part: one of that length, or of the longer one of `size` bytes. Takes no memory.
    pub fn take_written(&self, len: usize, size: usize) -> Option<Vec<u8>>
        requires { len ≤ size }
        ensures empty { IfSome result (λ room. room.items ≡ []) }
        ensures none { IfSome result (λ room. vec_len room ≡ 0) }
        ensures room { IfSome result (λ room. len ≤ vec_capacity room) }
    {
        let shelf = &self.home.shelf;
        match shelf.take_written(len, 1) {
            Some(row) => emptied(row, len),
            None => emptied(shelf.take(size, 1, size)?, size),
        }
    }

    /// Returns an empty vector for a row that may never come. Leaves written ones to `take` and
    /// `take_written`, unless there is no memory for another one.
    ///
    /// # Errors
    ///
    /// No memory.
    pub fn reserve(&self, alloc: Global, len: usize) -> Result<Vec<u8>, AllocError>
        ensures empty { IfOk result (λ room. room.items ≡ []) }
        ensures none { IfOk result (λ room. vec_len room ≡ 0) }
        ensures room { IfOk result (λ room. len ≤ vec_capacity room) }
    {
        let shelf = &self.home.shelf;
        let refused = match kept_or_new(shelf.take(len, 0, 0), alloc, len) {
            Ok(room) => return Ok(room),
            Err(why) => why,
        };
        let row = shelf.take(len, 0, len).ok_or(refused)?;
        emptied(row, len).ok_or(refused)
    }

    /// Keeps a vector for a later row, or frees it. Takes no memory.
    pub fn keep(&self, room: Vec<u8>) {
        self.home.keep(room);
    }
}

impl Drop for Blocks {
    fn drop(self) {
        let Blocks { home } = self;
        home.shelf.close();
    }
}

impl fmt::Debug for Home {
    fn fmt<W: Write>(&self, f: &mut fmt::Formatter<W>) -> fmt::Result {
        f.write_str("Home")
    }
}

impl Home {
    /// Returns a further owner. Takes no memory.
    pub fn share(&self) -> Option<Home> {
        let shelf = Arc::try_clone(&self.shelf).ok()?;
        Some(Home { shelf })
    }

    /// Returns an empty vector for a row, as `Blocks::take` does.
    ///
    /// # Errors
    ///
    /// No memory.
    pub fn take(&self, alloc: Global, len: usize) -> Result<Vec<u8>, AllocError>
        ensures empty { IfOk result (λ room. room.items ≡ []) }
        ensures none { IfOk result (λ room. vec_len room ≡ 0) }
        ensures room { IfOk result (λ room. len ≤ vec_capacity room) }
    {
        let kept = self.shelf.take_written(len, 0);
        kept_or_new(kept, alloc, len)
    }

    /// Writes zeros into some pages of a vector, so that whoever takes the vector finds pages there. A
    /// thread that waits calls it again and again. Returns false if nothing is to be prepared, or if
    /// there is no memory. Up to four vectors are prepared, of the length that was taken last, if that
    /// is at least 64 KiB, and no more than have 32 MiB together.
    #[inline(always)]
    pub fn prepare(&self) -> bool {
        self.shelf.prepare()
    }

    fn keep(&self, room: Vec<u8>) {
        self.shelf.put(room);
    }
}

// Empties a vector of that length.
fn emptied(row: Vec<u8>, len: usize) -> Option<Vec<u8>>
    ensures empty { IfSome result (λ room. room.items ≡ []) }
    ensures none { IfSome result (λ room. vec_len room ≡ 0) }
    ensures room { IfSome result (λ room. len ≤ vec_capacity room) }
{
    let mut room = row;
    if room.capacity() != len {
        return None;
    }
    room.clear();
    Some(room)
}

// Empties a vector of that length that was kept, or makes one.
fn kept_or_new(kept: Option<Vec<u8>>, alloc: Global, len: usize) -> Result<Vec<u8>, AllocError>
    ensures empty { IfOk result (λ room. room.items ≡ []) }
    ensures none { IfOk result (λ room. vec_len room ≡ 0) }
    ensures room { IfOk result (λ room. len ≤ vec_capacity room) }
{
    if let Some(row) = kept {
        if let Some(room) = emptied(row, len) {
            return Ok(room);
        }
    }
    Vec::with_capacity(alloc, len)
}

/// A block with several owners. Its vector goes back to where it came from, if it is to be used
/// again.
pub(crate) struct Block {
    pub(crate) bytes: Vec<u8>,
    home: Option<Home>,
}

impl Block {
    /// A block that is freed in the end, unless it has a home.
    pub(crate) fn new(bytes: Vec<u8>, home: Option<Home>) -> Block
        ensures { result.bytes ≡ bytes }
    {
        Block { bytes, home }
    }

    /// Returns the vector, which doesn't go back.
    pub(crate) fn into_bytes(self) -> Vec<u8>
        ensures { result ≡ self.bytes }
    {
        let Block { bytes, home: _ } = self;
        bytes
    }
}

impl fmt::Debug for Block {
    fn fmt<W: Write>(&self, f: &mut fmt::Formatter<W>) -> fmt::Result {
        self.bytes.fmt(f)
    }
}

impl Drop for Block {
    fn drop(self) {
        let Block { bytes, home } = self;
        if let Some(home) = home {
            home.keep(bytes);
        }
    }
}
