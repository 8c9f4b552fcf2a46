ghost use Rattle.std.specs.Prelude.{◌≡◌, ◌<◌, ◌^◌, [], length, IfOk, IsOkUnless};

use coll_bytes::Bytes;
use coll_kinds::Refusal;
use std::alloc::Global;
use std::marker::Model;

/// Where the bytes lie.
#[derive(Debug, Drop)]
enum Given {
    /// Fewer than 2^32 bytes, which may have several owners.
    Shareable(Bytes),
    /// 2^32 bytes or more. No collective takes so many, but a refused call hands them back.
    TooLong(Vec<u8>),
}

/// What a member gives to a collective: MPI's send buffer, as immutable bytes. The engine's buffer,
/// messages, outcomes and trace share the memory in which the caller made them. Contracts see the
/// bytes.
#[derive(Debug, Drop)]
pub struct Contribution {
    given: Given,
}

impl Model for Contribution {
    ghost use Rattle.std.specs.Prelude.{List, ℕ};
    ghost use Rattle.coll_core.specs.Contributions.{bytes_of, IsApart};

    ghost Value = { List ℕ };

    ghost view = { λ c. bytes_of c.given };

    ghost invariant = { λ c. IsApart c.given };
}

impl Contribution {
    /// Takes the bytes of a vector. Takes no memory. Up to 31 bytes are copied, and the vector is
    /// freed.
    pub fn new(bytes: Vec<u8>) -> Contribution
        ensures { result ≡ bytes.items }
    {
        if bytes.len() > u32::MAX as usize {
            return Contribution {
                given: Given::TooLong(bytes),
            };
        }
        Contribution::of_bytes(Bytes::from_vec(bytes))
    }

    /// Takes bytes that may have other owners, for example those of an outcome. Copies nothing.
    pub fn of_bytes(bytes: Bytes) -> Contribution
        ensures { result ≡ bytes }
    {
        Contribution {
            given: Given::Shareable(bytes),
        }
    }

    /// Returns an empty contribution, for a member that only receives.
    pub fn empty() -> Contribution
        ensures { result ≡ [] }
    {
        Contribution::of_bytes(Bytes::empty())
    }

    /// Copies bytes. Up to 31 take no memory.
    ///
    /// # Errors
    ///
    /// NoMemory.
    pub fn copy(alloc: Global, bytes: &[u8]) -> Result<Contribution, Refusal>
        ensures ok { IfOk result (λ copy. copy ≡ bytes.now) }
        ensures refusal { IsOkUnless result Refusal.NoMemory }
    {
        if bytes.len() <= u32::MAX as usize {
            return Ok(Contribution::of_bytes(Bytes::copy(alloc, bytes)?));
        }
        Ok(Contribution::new(Vec::from_slice(alloc, bytes)?))
    }

    /// Returns the bytes.
    pub fn as_slice(&self) -> &[u8]
        ensures { result.now ≡ self.now }
    {
        match &self.given {
            Given::Shareable(bytes) => bytes.as_slice(),
            Given::TooLong(bytes) => bytes,
        }
    }

    /// Returns the number of bytes.
    pub fn len(&self) -> usize
        ensures { result ≡ length self.now }
    {
        match &self.given {
            Given::Shareable(bytes) => bytes.len() as usize,
            Given::TooLong(bytes) => bytes.len(),
        }
    }

    /// Returns a second owner of the bytes. Copies at most 31 bytes (`Bytes::share`).
    ///
    /// # Errors
    ///
    /// NoMemory for the count of owners.
    #[inline(always)]
    pub fn share(&mut self, alloc: Global) -> Result<Bytes, Refusal>
        requires { length self.old < 2 ^ 32 }
        ensures ok { IfOk result (λ other. other ≡ self.old) }
        ensures same { self.new ≡ self.old }
        ensures refusal { IsOkUnless result Refusal.NoMemory }
    {
        match &mut self.given {
            Given::Shareable(bytes) => Ok(bytes.share(alloc)?),
            Given::TooLong(_) => unreachable!(),
        }
    }

    /// Returns the bytes with their owners.
    pub fn into_bytes(self) -> Bytes
        requires { length self < 2 ^ 32 }
        ensures { result ≡ self }
    {
        match self.given {
            Given::Shareable(bytes) => bytes,
            Given::TooLong(_) => unreachable!(),
        }
    }
}
