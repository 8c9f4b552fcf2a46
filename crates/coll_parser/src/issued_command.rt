use crate::command::Command;

/// A command, with its line, from 1 on, and the rank that issues it.
#[derive(Debug, Drop)]
pub struct IssuedCommand {
    pub line: u32,
    pub rank: u8,
    pub command: Command,
}
