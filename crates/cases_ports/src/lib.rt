//! Tests of ports: test vectors of an engine in one thread, from its opening to its report. All of it is built only for tests.
//! The folder `tests/ports` has the tests that no proof reads: traces, reports, entries, refused memory.
//!
//! | Module | Has |
//! |---|---|
//! | `calls` | the calls of a port |
//! | `signatures` | the signatures of the rows |
//! | `ports` | the rows: each answer is compared with the one that must come |
#![tactic(auto)]

#[cfg(test)]
mod calls;
#[cfg(test)]
mod ports;
#[cfg(test)]
mod signatures;
