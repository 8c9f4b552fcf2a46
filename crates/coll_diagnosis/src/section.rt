use crate::step::{Act, Completes, Step};
use coll_parser::Request;
use coll_script::{Command, Named};
use std::alloc::{AllocError, Global};

/// The commands and requests of a rank, as far as they bear on which rank waits for which.
#[derive(Debug, Drop)]
pub struct RankSection<'s> {
    /// The commands, and after them the unwritten `waitall`.
    pub steps: Vec<Step>,
    /// The requests, by their numbers.
    pub requests: Vec<Request<'s>>,
    /// The number of requests that the steps so far make.
    made: usize,
}

impl<'s> RankSection<'s> {
    /// The section of a rank with these requests, before its first command.
    pub(crate) fn new(alloc: Global, requests: Vec<Request<'s>>) -> RankSection<'s> {
        RankSection {
            steps: Vec::new(alloc),
            requests,
            made: 0,
        }
    }

    /// Adds a command, which stands in that line.
    pub(crate) fn say(
        &mut self,
        alloc: Global,
        line: u32,
        command: &Command,
    ) -> Result<(), AllocError> {
        let act = Act::of(alloc, command, self.made)?;
        if command.is_posting() {
            self.made = self.made.saturating_add(1);
        }
        self.steps.push(Step {
            line: Some(line),
            act,
        })?;
        Ok(())
    }

    /// Adds the unwritten `waitall` after all commands.
    pub(crate) fn end(&mut self) -> Result<(), AllocError> {
        let count = u32::try_from(self.requests.len()).unwrap_or(u32::MAX);
        self.steps.push(Step {
            line: None,
            act: Act::Complete {
                call: Completes::All,
                requests: Named::first(count),
            },
        })?;
        Ok(())
    }
}
