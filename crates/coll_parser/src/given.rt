ghost use Rattle.std.specs.Prelude.{◌≡◌, IfOk};

use std::alloc::{AllocError, Global};
use std::marker::Model;

/// The bytes that a rank gives to a request.
#[derive(Debug, Drop)]
pub struct GivenBytes {
    bytes: Vec<u8>,
}

impl Model for GivenBytes {
    ghost use Rattle.std.specs.Prelude.{ℕ, List};

    ghost Value = { List ℕ };

    ghost view = { λ v. v.bytes.items };
}

impl GivenBytes {
    /// The contribution of these bytes. Needs no memory.
    pub fn from_vec(bytes: Vec<u8>) -> GivenBytes
        ensures { result ≡ bytes.items }
    {
        GivenBytes { bytes }
    }

    /// The bytes.
    pub fn as_slice(&self) -> &[u8]
        ensures { result.now ≡ self.now }
    {
        &self.bytes
    }

    /// A copy of the bytes. Linear in the bytes.
    pub fn copied(&self, alloc: Global) -> Result<GivenBytes, AllocError>
        ensures { IfOk result (λ given. given ≡ self.now) }
    {
        Ok(GivenBytes::from_vec(Vec::from_slice(alloc, &self.bytes)?))
    }

    /// The bytes themselves. Needs no memory.
    pub fn into_vec(self) -> Vec<u8>
        ensures { result.items ≡ self }
    {
        self.bytes
    }
}
