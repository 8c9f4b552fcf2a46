//! An engine goes into a pointer and comes out of it.

ghost use Rattle.std.specs.Prelude.{◌≡◌, Some, None, true, is_some};

use crate::held::Held;
use crate::parts::Parts;
use coll_serial::Engine;
use std::alloc::Global;

impl Held {
    /// One that owns nothing.
    pub fn nothing(alloc: Global, at: *mut u8) -> Held
        ensures { result.engine ≡ None }
    {
        Held { at, alloc }
    }

    pub fn of(parts: Parts<Engine, Global>) -> Held
        ensures { result.engine ≡ Some parts.value }
    {
        let Parts { at, alloc } = parts;
        Held {
            at: at as *mut u8,
            alloc,
        }
    }

    pub fn into_parts(self) -> Parts<Engine, Global>
        requires { is_some self.engine ≡ true }
        ensures { self.engine ≡ Some result.value }
    {
        let Held { at, alloc } = self;
        Parts {
            at: at as *mut Engine,
            alloc,
        }
    }
}
