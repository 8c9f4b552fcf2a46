//! The words of a collective: element types, operations, kinds and signatures, with the lengths and
//! needs that follow from a signature, the refusals of the whole engine, and the decimal text of an
//! element.
//!
//! | Module | Has |
//! |---|---|
//! | `datatype` | `Datatype`, the types of elements |
//! | `operation` | `Op`, the reduction operations |
//! | `kind` | `Kind`, the collectives, and `Mode`, once or persistent |
//! | `signature` | `Signature`, with its check, lengths and needs |
//! | `calls` | the signature of each of MPI's calls |
//! | `same_signature` | whether two signatures are the same |
//! | `laws` | what holds of every signature |
//! | `limits` | the greatest numbers that the engine takes |
//! | `group` | the member number of a rank |
//! | `ticket` | `Ticket`, by which a caller names a request |
//! | `refusal` | `Refusal`, `Refused` and what they carry |
//! | `sentence` | a refusal in one sentence, with its data |
//! | `number`, `element` | the decimal text of a number and of an element |
//!
//! ```
//! let sig = Signature::allreduce(Op::Sum, Datatype::I32, 2).persistent();
//! sig.check(4)?;
//! let bytes = sig.given_len(4, 0);
//! println!(rt; "{sig}: member 0 of 4 gives {bytes} bytes")?;
//! ```
#![tactic(auto)]

mod calls;
mod datatype;
mod element;
mod group;
mod kind;
pub mod laws;
mod limits;
mod number;
mod operation;
mod refusal;
mod same_signature;
mod sentence;
mod signature;
mod ticket;

pub use datatype::Datatype;
pub use element::{print_element, read_element};
pub use group::member_of;
pub use kind::{Kind, Mode};
pub use limits::{
    MAX_COMMUNICATORS, MAX_COUNT, MAX_LEN, MAX_LENT, MAX_RANKS, MAX_REQUESTS, MAX_TEXT,
};
pub use number::read_number;
pub use operation::Op;
pub use refusal::{ConfigField, Refusal, Refused, SignatureFault};
pub use sentence::Sentence;
pub use signature::Signature;
pub use ticket::Ticket;
