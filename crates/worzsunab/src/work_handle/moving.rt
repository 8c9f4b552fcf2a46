//! A combination is put into a handle and taken out of it.

ghost use Rattle.std.specs.Prelude.{◌≡◌, None, Some, IfNone, IfSome, is_some};

use crate::held_work::HeldWork;
use crate::parts::Parts;
use crate::work_handle::WorkHandle;
use coll_serial::Combination;
use std::alloc::Global;
use std::{mem, ptr};

/// A pointer to no combination.
fn empty(alloc: Global) -> HeldWork
    ensures { result.combination ≡ None }
{
    let at: *mut u8 = ptr::null_mut();
    let held = HeldWork::nothing(alloc, at);
    held
}

impl WorkHandle {
    pub fn is_full(&self) -> bool
        ensures { result ≡ is_some self.now.held.combination }
    {
        self.full
    }

    /// Takes the combination out, and leaves the handle empty; none where it is.
    pub fn take(&mut self, alloc: Global) -> Option<Box<Combination>>
        ensures found { IfSome result (λ combination. self.old.held.combination ≡ Some combination.value) }
        ensures none { IfNone result (self.old.held.combination ≡ None) }
        ensures empty { self.new.held.combination ≡ None }
    {
        if !self.full {
            return None;
        }
        self.full = false;
        let empty = empty(alloc);
        let held = mem::replace(&mut self.held, empty);
        Some(held.into_parts().into_box())
    }

    /// Puts a combination into a handle that is empty.
    pub fn put(&mut self, combination: Box<Combination>)
        requires { self.old.held.combination ≡ None }
        ensures { self.new.held.combination ≡ Some combination.value }
    {
        self.full = true;
        let HeldWork { at: _, alloc: _ } = mem::replace(
            &mut self.held,
            HeldWork::of(Parts::of(combination)),
        );
    }
}
