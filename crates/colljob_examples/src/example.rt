use crate::answer::Answer;
use crate::stall::explained_as;
use std::alloc::Global;
use std::fs::{self, File, Files, remove_file};
use std::io;
use std::io::Read;
use std::rt::Clock;
use std::sync::Wait;
use std::thread::Threads;

/// The words of a command line after the program's name.
const PLAIN: &[&str] = &["plain"];

/// The file to which a run that deadlocks writes its explanation.
const WHY: &str = "why.text";

/// The explanation of a text that never deadlocks.
const NEVER_STALLS: &[u8] = b"never stalls, in any run, with any MPI library (proved)\n";

const RUNS: [&[&str]; 3] = [
    &["run", "--workers", "0"],
    &["run", "--workers", "2"],
    &["run", "--workers", "8"],
];

/// A job text, with the stored answers to it.
#[derive(Drop)]
pub struct Example {
    file: String,
    text: Vec<u8>,
    plain: Answer,
    run: Answer,
    /// The explanation of the text by its file's name.
    explained: Answer,
}

impl Example {
    /// Reads the example of that name: `NAME.job`, and beside it `NAME.out` or `NAME.fault`. If its run by threads deadlocks,
    /// `NAME.run` has the line of the deadlock, and `NAME.explain` the explanation.
    pub fn read(rt: &HostRuntime, name: &str) -> io::Result<Example> {
        let file = format!(in rt.alloc(); "{name}.job")?;
        let text = fs::read(rt, file.as_str())?;
        let plain = plain_answer(rt, name)?;
        let run = match fs::read(rt, format!(in rt.alloc(); "{name}.run")?) {
            Ok(errors) => Answer::of_fault(rt.alloc(), 3, errors),
            Err(_) => plain_answer(rt, name)?,
        };
        let explained = match fs::read(rt, format!(in rt.alloc(); "{name}.explain")?) {
            Ok(lines) => explained_as(rt.alloc(), lines),
            Err(_) if plain.status != 0 => plain.named(rt.alloc(), file.as_str())?,
            Err(_) => explained_as(rt.alloc(), Vec::from_slice(rt.alloc(), NEVER_STALLS)?),
        };
        Ok(Example {
            file,
            text,
            plain,
            run,
            explained,
        })
    }

    /// Whether the program answers the text as stored: computed directly and run by threads, from standard input and from its
    /// file, and explained from its file.
    pub fn is_answered<M: Threads + Wait + Sync + Files + Clock>(
        &self,
        machine: &M,
        alloc: Global,
    ) -> io::Result<bool> {
        if Answer::to(machine, alloc, PLAIN, &self.text)? != self.plain {
            return Ok(false);
        }
        for words in RUNS {
            if Answer::to(machine, alloc, words, &self.text)? != self.run {
                return Ok(false);
            }
        }
        let named = ["explain", self.file.as_str()];
        Ok(
            Answer::to(machine, alloc, &named, b"")? == self.explained
                && self.is_checked(machine, alloc)?
                && self.is_run_explained(machine, alloc)?
                && self.is_answered_by_name(machine, alloc, "plain", &self.plain)?
                && self.is_answered_by_name(machine, alloc, "run", &self.run)?,
        )
    }

    /// Whether a check reports the explanation of a text without a fault, and begins with the fault of a text that has one.
    fn is_checked<M: Threads + Wait + Sync + Files + Clock>(
        &self,
        machine: &M,
        alloc: Global,
    ) -> io::Result<bool> {
        let answer = Answer::to(machine, alloc, &["check", self.file.as_str()], b"")?;
        if self.plain.status != 0 {
            return Ok(answer.status == 2 && answer.errors.starts_with(&self.plain.errors));
        }
        let mut errors = Vec::from_slice(alloc, self.file.as_bytes())?;
        errors.extend_from_slice(b": no fault\n")?;
        errors.extend_from_slice(&self.explained.lines)?;
        Ok(
            answer.status == self.explained.status
                && answer.errors == errors
                && answer.lines.is_empty(),
        )
    }

    /// Whether a run that deadlocks writes its explanation to the file that is named, and another run writes none; both answer as
    /// without that file.
    fn is_run_explained<M: Threads + Wait + Sync + Files + Clock>(
        &self,
        machine: &M,
        alloc: Global,
    ) -> io::Result<bool> {
        let file = self.file.as_str();
        let words = ["run", "--explain", WHY, file];
        if Answer::to(machine, alloc, &words, b"")? != self.run.named(alloc, file)? {
            return Ok(false);
        }
        let mut why = Vec::new(alloc);
        let Ok(mut written) = File::open(machine, WHY) else {
            return Ok(self.run.status != 3);
        };
        written.read_to_end(&mut why)?;
        remove_file(machine, WHY)?;
        Ok(self.run.status == 3 && why == self.explained.lines)
    }

    /// Whether the program gives that answer to the word with the text's file after it.
    fn is_answered_by_name<M: Threads + Wait + Sync + Files + Clock>(
        &self,
        machine: &M,
        alloc: Global,
        word: &str,
        answer: &Answer,
    ) -> io::Result<bool> {
        let file = self.file.as_str();
        Ok(Answer::to(machine, alloc, &[word, file], b"")? == answer.named(alloc, file)?)
    }
}

fn plain_answer(rt: &HostRuntime, name: &str) -> io::Result<Answer> {
    match fs::read(rt, format!(in rt.alloc(); "{name}.out")?) {
        Ok(lines) => Ok(Answer::of_lines(rt.alloc(), lines)),
        Err(_) => {
            let errors = fs::read(rt, format!(in rt.alloc(); "{name}.fault")?)?;
            Ok(Answer::of_fault(rt.alloc(), 2, errors))
        }
    }
}
