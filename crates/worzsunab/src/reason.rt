//! A refusal with its data, as C reads it.

ghost use Rattle.std.specs.Prelude.{◌≡◌, pos};
ghost use Rattle.coll_kinds.specs.Refusals.{number_of};
ghost use Rattle.worzsunab.specs.Reasons.{cause_number, field_number, no_reason, reason_of};

use crate::call::Call;
use coll_kinds::{ConfigField, Mode, Refusal, SignatureFault};

/// A refusal with what is known of it; what it has no use for is 0.
#[repr(C)]
#[derive(Clone, Copy)]
pub struct Reason {
    /// The refusal's number, 1 to 18; 0 for no refusal.
    pub code: i32,
    /// Of NotMember and StillActive.
    pub rank: u8,
    /// Of BadSignature, and of BadConfig: the rule or field, by its number from 1 on.
    pub cause: u8,
    /// Of Mismatch: the world rank of the lowest member that has that place.
    pub first: u8,
    /// Of Mismatch: whether that member's collective is persistent.
    pub persistent: bool,
    /// Of Mismatch: that member's collective.
    pub call: Call,
    /// Of BadComm.
    pub comm: u32,
    /// Of Mismatch.
    pub place: u32,
    /// Of BadLength: the bytes that are due, and those that were given, or the room.
    pub want: u32,
    pub got: usize,
}

const NO_CALL: Call = Call {
    kind: 0,
    op: 0,
    ty: 0,
    root: 0,
    count: 0,
};

const NO_REASON: Reason = Reason {
    code: 0,
    rank: 0,
    cause: 0,
    first: 0,
    persistent: false,
    call: NO_CALL,
    comm: 0,
    place: 0,
    want: 0,
    got: 0,
};

/// A refusal's number, 1 to 18.
fn code(why: Refusal) -> i32
    ensures { result ≡ pos (number_of why) }
{
    i32::from(why.number())
}

impl Reason {
    /// That of no refusal.
    pub fn none() -> Reason
        ensures { result ≡ no_reason }
    {
        NO_REASON
    }

    pub fn of(why: Refusal) -> Reason
        ensures { result ≡ reason_of why }
    {
        let none = Reason {
            code: code(why),
            ..NO_REASON
        };
        match why {
            Refusal::BadComm { comm } => Reason { comm, ..none },
            Refusal::NotMember { rank } => Reason { rank, ..none },
            Refusal::StillActive { rank } => Reason { rank, ..none },
            Refusal::BadSignature { cause } => Reason {
                cause: cause_number(cause),
                ..none
            },
            Refusal::BadConfig { field } => Reason {
                cause: field_number(field),
                ..none
            },
            Refusal::BadLength { want, got } => Reason { want, got, ..none },
            Refusal::Mismatch {
                place,
                first,
                kind,
                mode,
                root,
                op,
                ty,
                count,
            } => Reason {
                place,
                first,
                persistent: matches!(mode, Mode::Persistent),
                call: Call::of(kind, op, ty, root, count),
                ..none
            },
            _ => none,
        }
    }
}

fn cause_number(cause: SignatureFault) -> u8
    ensures { result ≡ cause_number cause }
{
    match cause {
        SignatureFault::Root => 1,
        SignatureFault::Operation => 2,
        SignatureFault::Count => 3,
        SignatureFault::Size => 4,
        SignatureFault::Mode => 5,
        SignatureFault::Group => 6,
    }
}

fn field_number(field: ConfigField) -> u8
    ensures { result ≡ field_number field }
{
    match field {
        ConfigField::Ranks => 1,
        ConfigField::Groups => 2,
        ConfigField::Slots => 3,
        ConfigField::Places => 4,
        ConfigField::Wear => 5,
        ConfigField::Starts => 6,
        ConfigField::Trace => 7,
    }
}
