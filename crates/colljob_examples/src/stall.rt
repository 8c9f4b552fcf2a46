use crate::answer::Answer;
use std::alloc::Global;
use std::fs::{self, Files};
use std::io;
use std::rt::Clock;
use std::sync::Wait;
use std::thread::Threads;

/// The forms of an explanation, which are also the endings of their files.
const FORMS: [&str; 3] = ["text", "json", "dot"];

/// Whether the text `stalls/NAME.job` is explained as stored, in each form that is stored beside it: of all ranks in `NAME.all`.
pub fn is_explained<M: Threads + Wait + Sync + Files + Clock>(
    rt: &HostRuntime,
    machine: &M,
    name: &str,
) -> io::Result<bool> {
    let lines = fs::read(rt, format!(in rt.alloc(); "stalls/{name}.text")?)?;
    let status = status_of(&lines);
    let file = format!(in rt.alloc(); "stalls/{name}.job")?;
    for form in FORMS {
        if let Ok(lines) = fs::read(rt, format!(in rt.alloc(); "stalls/{name}.{form}")?) {
            let words = words_for(form, file.as_str());
            if Answer::to(machine, rt.alloc(), &words, b"")? != answer(rt.alloc(), status, lines) {
                return Ok(false);
            }
        }
    }
    if let Ok(lines) = fs::read(rt, format!(in rt.alloc(); "stalls/{name}.all")?) {
        let words = ["explain", "--all", file.as_str()];
        if Answer::to(machine, rt.alloc(), &words, b"")? != answer(rt.alloc(), status, lines) {
            return Ok(false);
        }
    }
    let strict = ["explain", "--strict", file.as_str()];
    let wanted = answer(rt.alloc(), strict_status_of(&lines), lines);
    Ok(Answer::to(machine, rt.alloc(), &strict, b"")? == wanted)
}

/// The words that ask for the explanation of a file in one form.
fn words_for<'a>(form: &'a str, file: &'a str) -> [&'a str; 4] {
    ["explain", "--format", form, file]
}

/// The answer with these lines of an explanation.
pub fn explained_as(alloc: Global, lines: Vec<u8>) -> Answer {
    answer(alloc, status_of(&lines), lines)
}

fn answer(alloc: Global, status: u8, lines: Vec<u8>) -> Answer {
    Answer {
        status,
        lines,
        errors: Vec::new(alloc),
    }
}

/// The exit status of an explanation, by its beginning.
fn status_of(lines: &[u8]) -> u8 {
    if lines.starts_with(b"stalled")
        || lines.starts_with(b"by this engine's schedules every run stalls")
    {
        3
    } else if lines.starts_with(b"warning: may stall")
        || lines.starts_with(b"stalls in some runs")
    {
        6
    } else {
        0
    }
}

/// The exit status if a deadlock with another library counts.
fn strict_status_of(lines: &[u8]) -> u8 {
    if lines.starts_with(b"warning: ") {
        6
    } else {
        status_of(lines)
    }
}
