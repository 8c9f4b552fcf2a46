//! Runs the stored examples, directly and by threads, and compares the answers with the stored ones. The job texts of the
//! folder in which it runs are compared with the lines or the fault beside them, and with why they deadlock. It prints a line for
//! each of these texts; then one for each job text of `stalls/`, which are only explained; of `mistakes/`, which are only
//! checked; and of `runs/`, the files of whose runs are compared; one for files that aren't written; one for files that existed
//! before; and one for each text of `words/` and `draws/`, which the program prints for words alone. Then it goes on as
//! `colljob` does, with its own words and standard input. That has a text with a fault, so it ends with the status for that,
//! and writes no more.
#![tactic(auto)]

mod answer;
mod draw;
mod example;
mod kept;
mod mistake;
mod shown;
mod stall;
mod words;

use coll_job::main_of;
use draw::{DRAWS, is_drawn};
use example::Example;
use kept::is_mode_kept;
use mistake::is_checked;
use shown::{SHOWN, is_kept_back, is_shown};
use stall::is_explained;
use std::fs::{Files, read_dir};
use std::io;
use std::process::ExitCode;
use std::rt::Clock;
use std::sync::Wait;
use std::thread::Threads;
use words::{TEXTS, are_answered};

fn main(rt: HostRuntime) -> ExitCode {
    match answer_all(&rt, &rt) {
        Ok(()) => main_of(&rt, &rt),
        Err(_) => ExitCode::FAILURE,
    }
}

/// Runs each example, and the words of each stored text, and prints a line for it.
fn answer_all<M: Threads + Wait + Sync + Files + Clock>(
    rt: &HostRuntime,
    machine: &M,
) -> anyhow::Result<()> {
    for name in &names(rt, ".")? {
        let example = Example::read(rt, name)?;
        print(rt, name, example.is_answered(machine, rt.alloc())?)?;
    }
    for name in &names(rt, "stalls")? {
        print(rt, name, is_explained(rt, machine, name)?)?;
    }
    for name in &names(rt, "mistakes")? {
        print(rt, name, is_checked(rt, machine, name)?)?;
    }
    for name in SHOWN {
        print(rt, name, is_shown(rt, machine, name)?)?;
    }
    print(rt, "unwritten", is_kept_back(machine, rt.alloc())?)?;
    print(rt, "kept", is_mode_kept(rt, machine)?)?;
    for (text, words) in TEXTS {
        print(rt, text, are_answered(rt, machine, text, words)?)?;
    }
    for (name, words) in DRAWS {
        print(rt, name, is_drawn(rt, machine, name, words)?)?;
    }
    Ok(())
}

fn print(rt: &HostRuntime, name: &str, as_stored: bool) -> io::Result<()> {
    let answer = if as_stored { "as stored" } else { "otherwise" };
    println!(rt; "{name}: {answer}")
}

/// The names of a folder's job texts, sorted, without their ending.
fn names(rt: &HostRuntime, folder: &str) -> io::Result<Vec<String>> {
    let mut names = Vec::new(rt.alloc());
    for entry in read_dir(rt, folder)? {
        let entry = entry?;
        if let Some(name) = entry.file_name().strip_suffix(".job") {
            names.push(String::from_str(rt.alloc(), name)?)?;
        }
    }
    names.sort()?;
    Ok(names)
}
