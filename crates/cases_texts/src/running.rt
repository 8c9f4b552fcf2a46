//! Runs texts with several numbers of progress threads, and compares each end with the one that must come.

ghost use Rattle.std.specs.Prelude.{◌≤◌};

use coll_run::run_job;
use coll_script::JobFault;
use coll_shared::NoGate;
use std::alloc::Global;
use std::rt::Clock;
use std::sync::Wait;
use std::thread::Threads;

/// Whether a run of the text has these lines, or this fault.
fn ends_so<R: Threads + Wait + Clock + Sync>(
    rt: &R,
    alloc: Global,
    text: &str,
    want: Result<&str, JobFault>,
    workers: u8,
) -> bool
    requires { workers ≤ 8 }
{
    let answer = run_job(rt, alloc, text.as_bytes(), workers, &NoGate);
    match (answer, want) {
        (Ok((lines, _)), Ok(want)) => lines.as_slice() == want.as_bytes(),
        (Err(fault), Err(want)) => fault == want,
        _ => false,
    }
}

/// The first number of progress threads with which a run of the text ends otherwise. None if there is none.
fn misfit_of<R: Threads + Wait + Clock + Sync>(
    rt: &R,
    alloc: Global,
    text: &str,
    want: Result<&str, JobFault>,
    workers: &[u8],
) -> Option<u8> {
    for count in workers {
        if *count > 8 || !ends_so(rt, alloc, text, want, *count) {
            return Some(*count);
        }
    }
    None
}

/// The first text with other lines, by its index, and the number of progress threads. None if there is none.
pub fn first_misfit<R: Threads + Wait + Clock + Sync>(
    rt: &R,
    alloc: Global,
    rows: &[(&str, &str)],
    workers: &[u8],
) -> Option<(usize, u8)> {
    for (index, (text, lines)) in rows.iter().enumerate() {
        if let Some(count) = misfit_of(rt, alloc, text, Ok(*lines), workers) {
            return Some((index, count));
        }
    }
    None
}

/// The first text with another fault, by its index, and the number of progress threads. None if there is none.
pub fn first_other_end<R: Threads + Wait + Clock + Sync>(
    rt: &R,
    alloc: Global,
    rows: &[(&str, JobFault)],
    workers: &[u8],
) -> Option<(usize, u8)> {
    for (index, (text, fault)) in rows.iter().enumerate() {
        if let Some(count) = misfit_of(rt, alloc, text, Err(*fault), workers) {
            return Some((index, count));
        }
    }
    None
}
