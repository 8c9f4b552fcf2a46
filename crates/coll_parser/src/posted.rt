ghost use Rattle.std.specs.Prelude.{◌≡◌, IfOk};

use coll_kinds::Signature;
use std::alloc::{AllocError, Global};
use std::marker::Model;

/// The signature of a command, in memory of its own, so that a command without one stays small.
#[derive(Debug, Drop)]
pub struct OwnSignature {
    sig: Box<Signature>,
}

impl Model for OwnSignature {
    ghost use Rattle.coll_kinds.specs.declared.signature.Signature.{Signature};

    ghost Value = { Signature };

    ghost view = { λ p. p.sig.value };
}

impl OwnSignature {
    /// Puts a signature into memory of its own. The only error is refused memory.
    pub fn new(alloc: Global, sig: Signature) -> Result<OwnSignature, AllocError>
        ensures { IfOk result (λ posted. posted ≡ sig) }
    {
        Ok(OwnSignature {
            sig: Box::new(alloc, sig)?,
        })
    }

    /// The signature.
    pub fn sig(&self) -> &Signature
        ensures { result.now ≡ self.now }
    {
        &self.sig
    }

    /// A copy of the signature.
    pub fn copied(&self, alloc: Global) -> Result<OwnSignature, AllocError>
        ensures { IfOk result (λ posted. posted ≡ self.now) }
    {
        OwnSignature::new(alloc, *self.sig())
    }
}
