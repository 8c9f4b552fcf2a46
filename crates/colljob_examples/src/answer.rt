use coll_job::run;
use std::alloc::Global;
use std::fs::Files;
use std::io::{self, Cursor};
use std::rt::Clock;
use std::sync::Wait;
use std::thread::Threads;

/// What a user sees: the exit status, standard output and standard error.
#[derive(PartialEq, Drop)]
pub struct Answer {
    pub status: u8,
    pub lines: Vec<u8>,
    pub errors: Vec<u8>,
}

impl Answer {
    /// The program's answer to these words after its name, with that text on standard input.
    pub fn to<M: Threads + Wait + Sync + Files + Clock>(
        machine: &M,
        alloc: Global,
        words: &[&str],
        text: &[u8],
    ) -> io::Result<Answer> {
        let mut owned = Vec::new(alloc);
        owned.push(String::from_str(alloc, "colljob")?)?;
        for word in words {
            owned.push(String::from_str(alloc, word)?)?;
        }
        let mut lines = Vec::new(alloc);
        let mut errors = Vec::new(alloc);
        let mut input = Cursor::new(text);
        let status = run(machine, alloc, &owned, &mut input, &mut lines, &mut errors);
        Ok(Answer {
            status,
            lines,
            errors,
        })
    }

    /// The lines of a job.
    pub fn of_lines(alloc: Global, lines: Vec<u8>) -> Answer {
        Answer {
            status: 0,
            lines,
            errors: Vec::new(alloc),
        }
    }

    /// The lines of an explanation of a deadlock.
    pub fn of_stall(alloc: Global, lines: Vec<u8>) -> Answer {
        Answer {
            status: 3,
            ..Answer::of_lines(alloc, lines)
        }
    }

    /// A fault with that status.
    pub fn of_fault(alloc: Global, status: u8, errors: Vec<u8>) -> Answer {
        Answer {
            status,
            lines: Vec::new(alloc),
            errors,
        }
    }

    /// The same answer to a text with a name: its fault stands after that name.
    pub fn named(&self, alloc: Global, name: &str) -> io::Result<Answer> {
        let mut errors = Vec::new(alloc);
        if !self.errors.is_empty() {
            errors.extend_from_slice(name.as_bytes())?;
            errors.extend_from_slice(b": ")?;
        }
        errors.extend_from_slice(&self.errors)?;
        Ok(Answer {
            status: self.status,
            lines: Vec::from_slice(alloc, &self.lines)?,
            errors,
        })
    }
}
