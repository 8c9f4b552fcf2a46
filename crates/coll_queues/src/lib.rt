//! The posting lists of communicators: which collective of one member belongs to which of another.
//!
//! All members of a communicator call its collectives in the same order (MPI 4.1, 6.12), so a collective's place in
//! its member's posting list says which calls of the others it belongs to, whenever they come.
//!
//! | Module | Has |
//! |---|---|
//! | `posting_lists` | `PostingLists`, the lists of one communicator's members |
//! | `queues` | `Queues`, those of all communicators |
//! | `signatures` | `Signatures`, the signatures of a communicator's places |
//! | `laws` | what holds of all posting lists |
#![tactic(auto)]

pub mod laws;
mod posting_lists;
mod queues;
mod signatures;

pub use queues::Queues;
