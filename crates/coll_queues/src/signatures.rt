ghost use Rattle.std.specs.Prelude.{◌≡◌, ◌+◌, ◌<◌, ◌≤◌, ◌++◌, ◌∷◌, [], length, slice_get, option_map, OnOk, OnErr};
ghost use Rattle.std.specs.Arc.{arc_value};

use coll_kinds::Signature;
use std::alloc::{AllocError, Global};
use std::marker::Model;
use std::sync::Arc;

/// The signatures of a communicator's places, each shared with the plan that came there first, so a place takes one pointer.
#[derive(Debug, Drop)]
pub(crate) struct Signatures {
    shared: Vec<Arc<Signature>>,
}

impl Model for Signatures {
    ghost use Rattle.std.specs.Prelude.{map, vec_capacity};
    ghost use Rattle.std.specs.Arc.{arc_value};
    ghost use Rattle.coll_queues.specs.Fronts.{Places};

    ghost Value = { Places };

    ghost view = { λ s. record { items = map arc_value s.shared.items; room = vec_capacity s.shared } };
}

impl Signatures {
    /// None. It takes no memory.
    pub(crate) fn new(alloc: Global) -> Self
        ensures { result.items ≡ [] }
    {
        Signatures {
            shared: Vec::new(alloc),
        }
    }

    /// How many there are.
    pub(crate) fn len(&self) -> usize
        ensures { result ≡ length self.now.items }
    {
        self.shared.len()
    }

    /// The signature at a place.
    pub(crate) fn get(&self, place: usize) -> Option<&Signature>
        ensures { option_map (λ sig. sig.now) result ≡ slice_get self.now.items place }
    {
        match self.shared.get(place) {
            Some(sig) => Some(sig),
            None => None,
        }
    }

    /// Makes room for some more.
    pub(crate) fn reserve(&mut self, more: usize) -> Result<(), AllocError>
        ensures items { self.new.items ≡ self.old.items }
        ensures room { OnOk result (length self.new.items + more ≤ self.new.room) }
        ensures err { OnErr result (self.new ≡ self.old) }
    {
        self.shared.reserve(more)
    }

    /// Enters the signature of the next place. It takes no memory.
    pub(crate) fn push(&mut self, sig: Arc<Signature>)
        requires room { length self.old.items < self.old.room }
        ensures items { self.new.items ≡ self.old.items ++ arc_value sig ∷ [] }
    {
        self.shared.push_reserved(sig);
    }
}
