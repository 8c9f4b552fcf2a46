//! A refusal in one sentence, with its data.

use crate::limits::MAX_RANKS;
use crate::refusal::{ConfigField, Refusal, SignatureFault};
use crate::signature::Signature;
use std::fmt;

/// Prints a refusal as a sentence that names its data, without the full stop.
#[derive(Clone, Copy, Debug)]
pub struct Sentence {
    why: Refusal,
}

impl Refusal {
    /// The refusal as a sentence, for people; [`Refusal`] itself prints as its name.
    pub fn sentence(self) -> Sentence {
        Sentence { why: self }
    }
}

impl fmt::Display for Sentence {
    fn fmt<W: fmt::Write>(&self, f: &mut fmt::Formatter<W>) -> fmt::Result {
        match self.why {
            Refusal::BadComm { comm } => write!(f, "there is no communicator {comm}"),
            Refusal::NotMember { rank } => {
                write!(f, "rank {rank} isn't a member of the communicator")
            }
            Refusal::BadSignature { cause } => f.write_str(broken_rule(cause)),
            Refusal::BadLength { want, got } => {
                write!(f, "the signature takes {want} bytes, and {got} were given")
            }
            Refusal::Mismatch {
                place,
                first,
                kind,
                mode,
                root,
                op,
                ty,
                count,
            } => {
                let other = Signature {
                    kind,
                    mode,
                    root,
                    op,
                    ty,
                    count,
                    // A refusal has no counts of an allgatherv, and none is printed where all are 0.
                    each: kind.has_counts().then_some([0; MAX_RANKS]),
                };
                write!(
                    f,
                    "rank {first} has another collective at place {place}: {other}"
                )
            }
            Refusal::StillActive { rank } => write!(f, "rank {rank} has an active request"),
            Refusal::BadConfig { field } => f.write_str(bad_field(field)),
            why => f.write_str(plain(why)),
        }
    }
}

/// The sentence of a refusal that has no data.
fn plain(why: Refusal) -> &'static str {
    match why {
        Refusal::Stale => "the ticket names no live request",
        Refusal::NotYours => "the ticket belongs to another rank",
        Refusal::Active => "the request is active",
        Refusal::NotPersistent => "the request isn't persistent",
        Refusal::PlacesUsed => "the member's posting list is full",
        Refusal::StartsUsed => "the request has had all its starts",
        Refusal::Full => "no request slot is free",
        Refusal::TraceFull => "the trace is full",
        Refusal::Stalled => "no request can get on any more",
        Refusal::Torn => "the ports and the trace disagree",
        _ => "memory was refused",
    }
}

fn broken_rule(cause: SignatureFault) -> &'static str {
    match cause {
        SignatureFault::Root => "the root is no member, or isn't 0 for a collective without a root",
        SignatureFault::Operation => {
            "the operation is missing, isn't allowed on the type, or is given to a collective without one"
        }
        SignatureFault::Count => "the count is above 65,536",
        SignatureFault::Size => "some member gives or gets more than 16,777,216 bytes",
        SignatureFault::Mode => "a post takes a nonblocking signature, an init a persistent one",
        SignatureFault::Group =>
            "the plan was made for another number of members or another member",
    }
}

fn bad_field(field: ConfigField) -> &'static str {
    match field {
        ConfigField::Ranks => "the number of ranks is out of range",
        ConfigField::Groups => "the communicators' groups are out of range",
        ConfigField::Slots => "the number of request slots is out of range",
        ConfigField::Places => "the length of a posting list is out of range",
        ConfigField::Wear => "the number of uses of a slot is out of range",
        ConfigField::Starts => "the number of starts is out of range",
        ConfigField::Trace => "the length of the trace is out of range",
    }
}
