use crate::answer::Answer;
use std::alloc::Global;
use std::fs::{self, Files};
use std::io;
use std::rt::Clock;
use std::sync::Wait;
use std::thread::Threads;

/// Whether the faults of the text `mistakes/NAME.job` are reported as stored: as lines in `NAME.text`, as JSON in `NAME.json`,
/// and in colours in `NAME.color`, if there is such a file.
pub fn is_checked<M: Threads + Wait + Sync + Files + Clock>(
    rt: &HostRuntime,
    machine: &M,
    name: &str,
) -> io::Result<bool> {
    let alloc = rt.alloc();
    let file = format!(in alloc; "mistakes/{name}.job")?;
    let errors = fs::read(rt, format!(in alloc; "mistakes/{name}.text")?)?;
    let lines = fs::read(rt, format!(in alloc; "mistakes/{name}.json")?)?;
    let status = status_of(&errors);
    if let Ok(painted) = fs::read(rt, format!(in alloc; "mistakes/{name}.color")?) {
        let words = ["check", "--color", "always", file.as_str()];
        if Answer::to(machine, alloc, &words, b"")? != as_text(alloc, status, painted) {
            return Ok(false);
        }
    }
    let json = ["check", "--format", "json", file.as_str()];
    let wanted = Answer {
        status,
        lines,
        errors: Vec::new(alloc),
    };
    Ok(
        Answer::to(machine, alloc, &["check", file.as_str()], b"")?
            == as_text(alloc, status, errors)
            && Answer::to(machine, alloc, &json, b"")? == wanted,
    )
}

/// The answer with these lines on standard error.
fn as_text(alloc: Global, status: u8, errors: Vec<u8>) -> Answer {
    Answer {
        status,
        lines: Vec::new(alloc),
        errors,
    }
}

/// The exit status of a check with these lines. A text of `mistakes/` without a fault never deadlocks.
fn status_of(errors: &[u8]) -> u8 {
    let stored = b": no fault\nnever stalls";
    if errors
        .windows(stored.len())
        .any(|part| part == stored.as_slice())
    {
        0
    } else {
        2
    }
}
