//! An engine is put into a handle and taken out of it, and a refusal is noted there.

ghost use Rattle.std.specs.Prelude.{◌≡◌, None, Some, IfNone, IfSome, is_some, pos};
ghost use Rattle.coll_kinds.specs.Refusals.{number_of};
ghost use Rattle.worzsunab.specs.Reasons.{no_reason, reason_of};

use crate::handle::Handle;
use crate::held::Held;
use crate::parts::Parts;
use crate::reason::Reason;
use coll_serial::{Engine, Refusal};
use std::alloc::Global;
use std::{mem, ptr};

/// A pointer to no engine.
fn closed(alloc: Global) -> Held
    ensures { result.engine ≡ None }
{
    let at: *mut u8 = ptr::null_mut();
    let held = Held::nothing(alloc, at);
    held
}

impl Handle {
    pub fn is_open(&self) -> bool
        ensures { result ≡ is_some self.now.held.engine }
    {
        self.opened
    }

    /// Takes the engine out, and leaves the handle closed; none where it is.
    pub fn take(&mut self, alloc: Global) -> Option<Box<Engine>>
        ensures found { IfSome result (λ engine. self.old.held.engine ≡ Some engine.value) }
        ensures none { IfNone result (self.old.held.engine ≡ None) }
        ensures closed { self.new.held.engine ≡ None }
        ensures reason { self.new.reason ≡ self.old.reason }
    {
        if !self.opened {
            return None;
        }
        self.opened = false;
        let closed = closed(alloc);
        let held = mem::replace(&mut self.held, closed);
        Some(held.into_parts().into_box())
    }

    /// Puts an engine into a handle that is closed.
    pub fn put(&mut self, engine: Box<Engine>)
        requires { self.old.held.engine ≡ None }
        ensures engine { self.new.held.engine ≡ Some engine.value }
        ensures reason { self.new.reason ≡ self.old.reason }
    {
        self.opened = true;
        let Held { at: _, alloc: _ } = mem::replace(&mut self.held, Held::of(Parts::of(engine)));
    }

    /// Notes a refusal, and answers its number.
    pub fn refuse(&mut self, why: Refusal) -> i32
        ensures code { result ≡ pos (number_of why) }
        ensures engine { self.new.held.engine ≡ self.old.held.engine }
        ensures reason { self.new.reason ≡ reason_of why }
    {
        let reason = Reason::of(why);
        self.reason = reason;
        reason.code
    }

    /// Forgets the last refusal.
    pub fn forget(&mut self)
        ensures engine { self.new.held.engine ≡ self.old.held.engine }
        ensures reason { self.new.reason ≡ no_reason }
    {
        self.reason = Reason::none();
    }
}
