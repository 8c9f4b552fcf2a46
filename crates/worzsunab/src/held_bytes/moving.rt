//! Bytes go into a pointer and come out of it.

ghost use Rattle.std.specs.Prelude.{◌≡◌, Some, None, true, is_some};

use crate::held_bytes::HeldBytes;
use crate::parts::Parts;
use coll_serial::Contribution;
use std::alloc::Global;

impl HeldBytes {
    /// One that owns nothing.
    pub fn nothing(alloc: Global, at: *mut u8) -> HeldBytes
        ensures { result.bytes ≡ None }
    {
        HeldBytes { at, alloc }
    }

    pub fn of(parts: Parts<Contribution, Global>) -> HeldBytes
        ensures { result.bytes ≡ Some parts.value }
    {
        let Parts { at, alloc } = parts;
        HeldBytes {
            at: at as *mut u8,
            alloc,
        }
    }

    pub fn into_parts(self) -> Parts<Contribution, Global>
        requires { is_some self.bytes ≡ true }
        ensures { self.bytes ≡ Some result.value }
    {
        let HeldBytes { at, alloc } = self;
        Parts {
            at: at as *mut Contribution,
            alloc,
        }
    }
}
