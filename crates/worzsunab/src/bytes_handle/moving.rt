//! Bytes are put into a handle and taken out of it.

ghost use Rattle.std.specs.Prelude.{◌≡◌, None, Some, IfNone, IfSome, is_some, true};

use crate::bytes_handle::BytesHandle;
use crate::held_bytes::HeldBytes;
use crate::parts::Parts;
use coll_serial::Contribution;
use std::alloc::Global;
use std::{mem, ptr};

/// A pointer to no bytes.
fn empty(alloc: Global) -> HeldBytes
    ensures { result.bytes ≡ None }
{
    let at: *mut u8 = ptr::null_mut();
    let held = HeldBytes::nothing(alloc, at);
    held
}

impl BytesHandle {
    pub fn is_full(&self) -> bool
        ensures { result ≡ is_some self.now.held.bytes }
    {
        self.full
    }

    /// Takes the bytes out, and leaves the handle empty; none where it is.
    pub fn take(&mut self, alloc: Global) -> Option<Box<Contribution>>
        ensures found { IfSome result (λ bytes. self.old.held.bytes ≡ Some bytes.value) }
        ensures none { IfNone result (self.old.held.bytes ≡ None) }
        ensures empty { self.new.held.bytes ≡ None }
    {
        if !self.full {
            return None;
        }
        self.full = false;
        let empty = empty(alloc);
        let held = mem::replace(&mut self.held, empty);
        Some(held.into_parts().into_box())
    }

    /// Puts bytes into a handle that is empty.
    pub fn put(&mut self, bytes: Box<Contribution>)
        requires { self.old.held.bytes ≡ None }
        ensures { self.new.held.bytes ≡ Some bytes.value }
    {
        self.full = true;
        let HeldBytes { at: _, alloc: _ } = mem::replace(
            &mut self.held,
            HeldBytes::of(Parts::of(bytes)),
        );
    }

    /// Puts bytes in the place of those that a handle has. It takes no memory.
    pub fn set(&mut self, alloc: Global, bytes: Contribution)
        requires { is_some self.old.held.bytes ≡ true }
        ensures { self.new.held.bytes ≡ Some bytes }
    {
        let Some(mut boxed) = self.take(alloc) else {
            unreachable!()
        };
        *boxed.as_mut() = bytes;
        self.put(boxed);
    }
}
