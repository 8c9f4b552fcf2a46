//! What callers can know of an engine: one small machine of requests, posting lists and contributions, what each call
//! does to it and answers, and which traces of calls are legal. The definitions are those of `specs/`, `key` has the one
//! type that they share with code, and `laws` what holds of them.
//!
//! | In `specs/` | Has |
//! |---|---|
//! | `Settings`, `States` | what stays the same; requests, posting lists, contributions |
//! | `Calls`, `Refusals` | the calls, and for each the list of its refusals |
//! | `Changes`, `Steps` | what each accepted call does |
//! | `Machines`, `Runs` | a step with its answer; steps one after the other |
//! | `Entries`, `Traces` | what a trace says, which traces are legal, and their room |
//! | `Reports` | what a trace says of one rank |
//! | `Lents`, `Postings` | the bytes lent; how posting lists and live requests agree |
//! | `Laws`, `Rows` | the laws; worked rows |
#![tactic(auto)]

mod key;
pub mod laws;

pub use key::Key;
