use crate::answer::Answer;
use std::fs::{self, Files};
use std::io;
use std::rt::Clock;
use std::sync::Wait;
use std::thread::Threads;

/// Words of a command line, and the stored text of `words/` that they print. The script `colljob` answers these words from that text.
pub const TEXTS: [(&str, &[&str]); 25] = [
    ("help", &["--help"]),
    ("help", &["-h"]),
    ("help", &["help"]),
    ("help_plain", &["plain", "--help"]),
    ("help_plain", &["plain", "-h"]),
    ("help_plain", &["help", "plain"]),
    ("help_run", &["run", "--help"]),
    ("help_run", &["run", "-h"]),
    ("help_run", &["help", "run"]),
    ("help_explain", &["explain", "--help"]),
    ("help_explain", &["explain", "-h"]),
    ("help_explain", &["help", "explain"]),
    ("help_check", &["check", "--help"]),
    ("help_check", &["check", "-h"]),
    ("help_check", &["help", "check"]),
    ("help_draw", &["draw", "--help"]),
    ("help_draw", &["draw", "-h"]),
    ("help_draw", &["help", "draw"]),
    ("help_draw_run", &["draw", "run", "--help"]),
    ("help_draw_run", &["draw", "run", "-h"]),
    ("help_draw_waits", &["draw", "waits", "--help"]),
    ("help_draw_waits", &["draw", "waits", "-h"]),
    ("version", &["--version"]),
    ("version", &["-V"]),
    ("no_words", &[]),
];

/// Whether the words print the stored text: on standard output, or, if there are no words, on standard error.
pub fn are_answered<M: Threads + Wait + Sync + Files + Clock>(
    rt: &HostRuntime,
    machine: &M,
    text: &str,
    words: &[&str],
) -> io::Result<bool> {
    let stored = fs::read(rt, format!(in rt.alloc(); "words/{text}")?)?;
    let wanted = if words.is_empty() {
        Answer::of_fault(rt.alloc(), 2, stored)
    } else {
        Answer::of_lines(rt.alloc(), stored)
    };
    Ok(Answer::to(machine, rt.alloc(), words, b"")? == wanted)
}
