use crate::screen::{Colors, Screen};
use crate::tasks::{run_on, told};
use coll_script::JobFault;
use std::fs::Files;
use std::io::IsTerminal;
use std::process::ExitCode;
use std::rt::Clock;
use std::sync::Wait;
use std::thread::Threads;
use std::{env, io};

/// Runs the program on the machine's words, files and standard streams. Returns its exit status. `main` passes its runtime,
/// which is the permission to start threads.
pub fn main_of<M: Threads + Wait + Sync + Files + Clock>(
    rt: &HostRuntime,
    machine: &M,
) -> ExitCode {
    let alloc = rt.alloc();
    let stderr = rt.stderr();
    let mut errors = io::writer(&stderr);
    let Ok(words) = env::args(rt) else {
        let _ = rt.eprintln("error: a word isn't UTF-8");
        return ExitCode::from(2);
    };
    let Ok(words) = words.collect::<Vec<String>>(alloc) else {
        return ExitCode::from(told(None, JobFault::Memory, &mut errors));
    };
    let mut input = rt.reader();
    let status = run_on(
        machine,
        alloc,
        &StandardError { rt },
        &words,
        &mut input,
        &mut io::writer(rt),
        &mut errors,
    );
    ExitCode::from(status)
}

/// The machine's standard error, as a screen.
#[derive(Drop)]
struct StandardError<'r> {
    rt: &'r HostRuntime,
}

impl Screen for StandardError<'_> {
    fn is_watched(&self) -> bool {
        self.rt.stderr().is_terminal()
    }

    /// Terminals, where nobody asked for no colours (no-color.org).
    fn colors(&self) -> Colors {
        let asks_for_none = match env::var(self.rt, "NO_COLOR") {
            Ok(value) => !value.is_empty(),
            Err(_) => false,
        };
        Colors {
            output: !asks_for_none && self.rt.stdout().is_terminal(),
            errors: !asks_for_none && self.is_watched(),
        }
    }

    fn show(&self, text: &str) {
        let _ = self.rt.eprint(text);
    }
}
