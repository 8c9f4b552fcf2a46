//! Reads the lines of a job text, one after another, into a history: the ranks, their communicators, and the commands of each rank.
//!
//! A line is judged from its left, by the history of the lines before it; the first rule that it breaks is its fault. Both are
//! defined in `specs/Judging.antt` as functions of the bytes. [`History::read`] returns the fault of the first such line, or
//! the history of all lines. Whether the requests of different ranks belong together is judged above this crate.
//!
//! | Module | Has |
//! |---|---|
//! | `cause` | `Cause`, which rule a text breaks |
//! | `fault` | `Fault`, a cause and its line; `ScriptFault`, and the fault of a line |
//! | `cutting`, `words` | lines and words; `Words`, the words of a line that are still to be read |
//! | `command`, `posted`, `given`, `named` | `Command`, its signature, what it gives and which requests it names |
//! | `issued_command` | `IssuedCommand`, a command with its line and its rank |
//! | `signatures`, `communicators`, `values`, `requests` | readers of a line's words, from the left |
//! | `verb`, `commands`, `lines` | what a line says |
//! | `section`, `reader` | what is kept of a section and of a text while their lines are read |
//! | `history`, `request` | `History`, what the lines have said; `Request`, and `Start`, one of its starts |
//! | `laws` | laws of all texts |
#![tactic(auto)]

mod cause;
mod command;
mod commands;
mod communicators;
mod cutting;
mod fault;
mod given;
mod history;
mod issued_command;
pub mod laws;
mod lines;
mod named;
mod posted;
mod reader;
mod request;
mod requests;
mod section;
mod signatures;
mod values;
mod verb;
mod words;

pub use cause::Cause;
pub use command::Command;
pub use cutting::line_count;
pub use fault::{Fault, ScriptFault};
pub use given::GivenBytes;
pub use history::History;
pub use issued_command::IssuedCommand;
pub use named::Named;
pub use posted::OwnSignature;
pub use request::{Request, Start};
