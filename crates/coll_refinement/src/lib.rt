//! The tables of the engine, as functions: live requests in their slots, posting lists, contributions, messages; the
//! condition that they keep; what each call changes in them; and that each change keeps the condition and is a step of
//! the machine of `coll_machine`. There is no code here: the definitions are those of `specs/`, `proofs/Statements` and
//! `proofs/EngineStatements` have what lemmas say of each change, and `laws` has two engines that meet the condition.
//!
//! | In `specs/` | Has |
//! |---|---|
//! | `Requests`, `Tables` | a live request; the tables, those of an engine just opened, and what callers can know of them |
//! | `Sound` | the condition: each collective runs on its track, each slot lies on the right list |
//! | `Changes` | the tables after each call |
//! | `FreeLocks`, `Remaining` | what callers can see between calls; the actions that are left |
//! | `Shown`, `Cores` | the tables that an arena, posting lists and instances show; an engine's condition |
//! | `OneSlots`, `Engines` | what an engine's calls promise one another of these three |
//! | `Rows`, `StartRows` | two small engines, call by call |
#![tactic(auto)]

pub mod laws;
