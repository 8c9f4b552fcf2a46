//! When an entry of a trace was made.

/// Which call made an entry of the trace, and when.
#[derive(Clone, Copy, Debug, PartialEq, Eq)]
pub struct Span {
    /// The line of the command; 0 for the `waitall` that stands unwritten after each section.
    pub line: u32,
    /// When the call began, in nanoseconds from the beginning of the run.
    pub from: u64,
    /// When it had ended.
    pub until: u64,
}
