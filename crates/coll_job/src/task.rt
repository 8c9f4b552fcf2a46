//! What the words of a command line ask for.

use crate::drawing::DrawingTask;
use crate::views::Views;
use coll_check::CheckForm;
use coll_diagnosis::ExplainOptions;

/// What is to be done, and with which job text; a drawing of a collective takes no text.
#[derive(Clone, Copy, Debug, PartialEq, Eq)]
pub struct Task<'w> {
    pub way: Way<'w>,
    /// The file of the text. If there is none, the text is read from standard input.
    pub file: Option<&'w str>,
}

/// What is to be done with a job text or with a signature.
#[derive(Clone, Copy, Debug, PartialEq, Eq)]
pub enum Way<'w> {
    /// `plain`: compute each value directly.
    Plain,
    /// `run`: run the text by threads.
    Run(RunOptions<'w>),
    /// `explain`: report whether the runs stall, and which rank then waits for which.
    Explain(Explaining<'w>),
    /// `check`: report all faults, or, if there are none, what `explain` reports.
    Check(CheckForm),
    /// `draw`: draw the schedules of a collective.
    Draw(DrawingTask<'w>),
    /// `draw run`: run the text by threads, and draw what they did, to the file or, if there is none, to standard output.
    DrawRun { workers: u8, file: Option<&'w str> },
}

/// How a text is explained, and what is written beside the explanation.
#[derive(Clone, Copy, Debug, PartialEq, Eq)]
pub struct Explaining<'w> {
    pub options: ExplainOptions,
    /// How many states a search for a run that deadlocks looks at, at most.
    pub depth: u32,
    /// The file that gets the page of the explanation, if one is wanted.
    pub page: Option<&'w str>,
}

/// How a text is run, and what is reported of the run beside its values.
#[derive(Clone, Copy, Debug, PartialEq, Eq)]
pub struct RunOptions<'w> {
    /// The number of progress threads, beside a thread for each rank.
    pub workers: u8,
    /// Whether nothing is shown while the run goes on.
    pub is_quiet: bool,
    /// The file that gets the explanation of a run that stalls, if one is wanted.
    pub explanation: Option<&'w str>,
    /// The files that get what the run did.
    pub views: Views<'w>,
}
