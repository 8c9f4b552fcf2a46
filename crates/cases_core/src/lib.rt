//! Worked rows of the engine in one thread: of lists, of the arena, of schedules and plans, and of the core's calls. All of it is built
//! only for tests. The folder `tests/engine` has the tests that no proof reads: schedules in lock-step, messages, values, bytes, postings,
//! random jobs.
//!
//! | Module | Has |
//! |---|---|
//! | `lists` | nodes moved between lists |
//! | `arena` | rows of calls of an arena |
//! | `plans` | which schedules are accepted, their rounds, and how many exchanges plans have |
//! | `rows` | calls of the core with the answers that must come |
//! | `completions` | completion calls with the answers that must come |
#![tactic(auto)]

#[cfg(test)]
mod arena;
#[cfg(test)]
mod completions;
#[cfg(test)]
mod lists;
#[cfg(test)]
mod plans;
#[cfg(test)]
mod rows;
