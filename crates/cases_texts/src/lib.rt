//! Worked rows of job texts, without an engine and with one. All of it is built only for tests. The folder `tests/texts` has the tests that
//! no proof reads: each fault, limits, words, large texts, what reports attest, the program.
//!
//! | Module | Has |
//! |---|---|
//! | `kind_tests` | the bytes of a pair, and the limits of signatures |
//! | `answering` | the calls that read and answer a text |
//! | `shown` | what a user sees of a text |
//! | `answer_tests` | texts, with what a user sees of them |
//! | `told_tests` | texts with a fault, and the line that a user reads |
//! | `cut_tests` | texts that were cut off |
//! | `fakes` | readers and writers that fail |
//! | `reading_tests` | a text that is read whole, and the results of errors of a reader and of a writer |
//! | `texts` | texts that several modules take |
//! | `running` | texts run with several numbers of progress threads |
//! | `run_tests` | texts with their lines or their fault, and a report |
//! | `wait_tests` | texts that go on only if the right wait returns, and texts in which none does |
//! | `gate_tests` | a text whose combinations are held, so that threads work at the same time |
#![tactic(auto)]

#[cfg(test)]
mod answer_tests;
#[cfg(test)]
mod answering;
#[cfg(test)]
mod cut_tests;
#[cfg(test)]
mod fakes;
#[cfg(test)]
mod gate_tests;
#[cfg(test)]
mod kind_tests;
#[cfg(test)]
mod reading_tests;
#[cfg(test)]
mod run_tests;
#[cfg(test)]
mod running;
#[cfg(test)]
mod shown;
#[cfg(test)]
mod texts;
#[cfg(test)]
mod told_tests;
#[cfg(test)]
mod wait_tests;
