ghost use Rattle.std.specs.Prelude.{◌≡◌};
ghost use Rattle.coll_kinds.specs.declared.refusal.Refusal.TheVariants.{NoMemory};

use crate::datatype::Datatype;
use crate::kind::{Kind, Mode};
use crate::operation::Op;
use crate::signature::Signature;
use std::alloc::{AllocError, AllocFailed};
use thiserror::Error;

/// Which rule a signature breaks, in the order in which they are tested.
#[derive(Clone, Copy, Debug, PartialEq, Eq, Error)]
pub enum SignatureFault {
    /// The root isn't below the number of members, or isn't 0 for a kind without a root.
    #[error("Root")]
    Root,
    /// The operation is missing, isn't allowed on the type, or is given to a kind that has none.
    #[error("Operation")]
    Operation,
    /// The count is above 65,536.
    #[error("Count")]
    Count,
    /// Some member gives or gets more than 16,777,216 bytes.
    #[error("Size")]
    Size,
    /// A persistent signature in a post, or a once signature in an init.
    #[error("Mode")]
    Mode,
    /// The plan was made for another number of members or another member.
    #[error("Group")]
    Group,
}

/// The field of an engine's configuration that is out of its range.
#[derive(Clone, Copy, Debug, PartialEq, Eq, Error)]
pub enum ConfigField {
    #[error("Ranks")]
    Ranks,
    #[error("Groups")]
    Groups,
    #[error("Slots")]
    Slots,
    #[error("Places")]
    Places,
    #[error("Wear")]
    Wear,
    #[error("Starts")]
    Starts,
    #[error("Trace")]
    Trace,
}

/// Why the engine refused a call. It prints as its name.
#[derive(Clone, Copy, Debug, PartialEq, Eq, Error)]
pub enum Refusal {
    /// There is no such communicator.
    #[error("BadComm")]
    BadComm {
        comm: u32,
    },
    /// The rank isn't in the communicator's group.
    #[error("NotMember")]
    NotMember {
        rank: u8,
    },
    /// The signature breaks a rule.
    #[error("BadSignature")]
    BadSignature {
        cause: SignatureFault,
    },
    /// The bytes handed in have another length than the signature gives, in bytes.
    #[error("BadLength")]
    BadLength {
        want: u32,
        got: usize,
    },
    /// Another member has another signature at that place.
    #[error("Mismatch")]
    Mismatch {
        place: u32,
        /// The world rank of the lowest member that has that place.
        first: u8,
        /// That member's signature, but for the counts of an allgatherv, so that a refusal stays small.
        kind: Kind,
        mode: Mode,
        root: u8,
        op: Option<Op>,
        ty: Datatype,
        count: u32,
    },
    /// The ticket names no live request.
    #[error("Stale")]
    Stale,
    /// The ticket belongs to another rank.
    #[error("NotYours")]
    NotYours,
    /// The request to start or free is active.
    #[error("Active")]
    Active,
    /// The request to start or free isn't persistent.
    #[error("NotPersistent")]
    NotPersistent,
    /// The member's posting list has its full length.
    #[error("PlacesUsed")]
    PlacesUsed,
    /// The request has had its full number of starts.
    #[error("StartsUsed")]
    StartsUsed,
    /// No request slot is free.
    #[error("Full")]
    Full,
    /// The trace would pass its limit.
    #[error("TraceFull")]
    TraceFull,
    /// Nothing can go on any more.
    #[error("Stalled")]
    Stalled,
    /// A rank has an active request at the close; the lowest such rank.
    #[error("StillActive")]
    StillActive {
        rank: u8,
    },
    /// The ports and the trace disagree at the close.
    #[error("Torn")]
    Torn,
    /// Memory was refused.
    #[error("NoMemory")]
    NoMemory,
    /// The first field of the configuration that is out of its range.
    #[error("BadConfig")]
    BadConfig {
        field: ConfigField,
    },
}

impl Refusal {
    ghost use Rattle.coll_kinds.specs.Refusals.{number_of, mismatch_at};

    /// The refusal where the member of world rank `first` has the signature at the place.
    pub fn mismatch_at(place: u32, first: u8, sig: &Signature) -> Refusal
        ensures { result ≡ mismatch_at place first sig.now }
    {
        Refusal::Mismatch {
            place,
            first,
            kind: sig.kind,
            mode: sig.mode,
            root: sig.root,
            op: sig.op,
            ty: sig.ty,
            count: sig.count,
        }
    }

    /// The refusal's number, from 1 to 18, as the program prints it before the name.
    pub fn number(self) -> u8
        ensures { result ≡ number_of self }
    {
        match self {
            Refusal::BadComm { .. } => 1,
            Refusal::NotMember { .. } => 2,
            Refusal::BadSignature { .. } => 3,
            Refusal::BadLength { .. } => 4,
            Refusal::Mismatch { .. } => 5,
            Refusal::Stale => 6,
            Refusal::NotYours => 7,
            Refusal::Active => 8,
            Refusal::NotPersistent => 9,
            Refusal::PlacesUsed => 10,
            Refusal::StartsUsed => 11,
            Refusal::Full => 12,
            Refusal::TraceFull => 13,
            Refusal::Stalled => 14,
            Refusal::StillActive { .. } => 15,
            Refusal::Torn => 16,
            Refusal::NoMemory => 17,
            Refusal::BadConfig { .. } => 18,
        }
    }
}

impl From<AllocError> for Refusal {
    ghost from_gives = { λ _ why. why ≡ NoMemory };

    fn from(_error: AllocError) -> Refusal {
        Refusal::NoMemory
    }
}

impl<T: Drop> From<AllocFailed<T>> for Refusal {
    ghost from_gives = { λ _ why. why ≡ NoMemory };

    fn from(_error: AllocFailed<T>) -> Refusal {
        Refusal::NoMemory
    }
}

/// A refusal that hands back the value which the call would have consumed.
#[derive(Debug, Drop)]
pub struct Refused<T> {
    pub why: Refusal,
    pub back: T,
}
