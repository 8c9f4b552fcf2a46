//! A combination goes into a pointer and comes out of it.

ghost use Rattle.std.specs.Prelude.{◌≡◌, Some, None, true, is_some};

use crate::held_work::HeldWork;
use crate::parts::Parts;
use coll_serial::Combination;
use std::alloc::Global;

impl HeldWork {
    /// One that owns nothing.
    pub fn nothing(alloc: Global, at: *mut u8) -> HeldWork
        ensures { result.combination ≡ None }
    {
        HeldWork { at, alloc }
    }

    pub fn of(parts: Parts<Combination, Global>) -> HeldWork
        ensures { result.combination ≡ Some parts.value }
    {
        let Parts { at, alloc } = parts;
        HeldWork {
            at: at as *mut u8,
            alloc,
        }
    }

    pub fn into_parts(self) -> Parts<Combination, Global>
        requires { is_some self.combination ≡ true }
        ensures { self.combination ≡ Some result.value }
    {
        let HeldWork { at, alloc } = self;
        Parts {
            at: at as *mut Combination,
            alloc,
        }
    }
}
