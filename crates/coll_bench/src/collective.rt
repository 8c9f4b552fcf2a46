//! The collectives whose overlap is timed.

use coll_kinds::{Datatype, Kind, Mode, Op, Signature};
use std::fmt;
use std::fmt::Write;

/// A collective of rows of eight-byte integers.
#[derive(Clone, Copy, Debug, PartialEq, Eq)]
pub struct Collective {
    pub kind: Kind,
    /// The bytes of the row that each member gives or gets; of an alltoall, the bytes for each member.
    pub bytes: u32,
}

impl Collective {
    /// The collective of a name and a length; None if its overlap isn't timed, or the row isn't of whole integers.
    pub fn of(name: &str, bytes: u32) -> Option<Collective> {
        let kind = match name {
            "barrier" => Kind::Barrier,
            "bcast" => Kind::Bcast,
            "allreduce" => Kind::Allreduce,
            "alltoall" => Kind::Alltoall,
            _ => return None,
        };
        if bytes % 8 == 0 {
            Some(Collective { kind, bytes })
        } else {
            None
        }
    }

    /// The signature, with root 0.
    pub fn signature(self) -> Signature {
        Signature {
            kind: self.kind,
            mode: Mode::Once,
            root: 0,
            op: if self.kind.has_operation() {
                Some(Op::Sum)
            } else {
                None
            },
            ty: Datatype::I64,
            count: if self.kind == Kind::Barrier {
                0
            } else {
                self.bytes / 8
            },
            each: None,
        }
    }

    /// How many bytes a rank gives.
    pub fn given_len(self, rank: u8, ranks: u8) -> usize {
        let bytes = self.bytes as usize;
        match self.kind {
            Kind::Barrier => 0,
            Kind::Bcast if rank > 0 => 0,
            Kind::Alltoall => bytes.saturating_mul(usize::from(ranks)),
            _ => bytes,
        }
    }
}

impl fmt::Display for Collective {
    fn fmt<W: Write>(&self, f: &mut fmt::Formatter<W>) -> fmt::Result {
        let Collective { kind, bytes } = self;
        write!(f, "{kind} of {bytes} bytes")
    }
}
