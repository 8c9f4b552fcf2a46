use crate::answer::Answer;
use std::fs::{self, Files, Permissions, metadata, remove_file, set_permissions};
use std::io;
use std::os::unix::fs::PermissionsExt;
use std::rt::Clock;
use std::sync::Wait;
use std::thread::Threads;

/// A file that exists before the run.
const KEPT: &str = "kept.txt";

const OLD: &str = "old\n";

/// Whether a file of a run gets the mode of the file that it replaces, and a file that nobody may write stays as it was.
pub fn is_mode_kept<M: Threads + Wait + Sync + Files + Clock>(
    rt: &HostRuntime,
    machine: &M,
) -> io::Result<bool> {
    let is_replaced = is_left(rt, machine, 0o640, 0)?;
    let is_refused = is_left(rt, machine, 0o444, 1)?;
    Ok(is_replaced && is_refused)
}

/// Whether a run that writes a file of that mode ends with that status and leaves the mode; and keeps the old bytes exactly if
/// the status isn't 0.
fn is_left<M: Threads + Wait + Sync + Files + Clock>(
    rt: &HostRuntime,
    machine: &M,
    mode: u32,
    status: u8,
) -> io::Result<bool> {
    fs::write(machine, KEPT, OLD)?;
    set_permissions(machine, KEPT, Permissions::from_mode(mode))?;
    let words = ["run", "--out", KEPT, "sum_of_three.job"];
    let answer = Answer::to(machine, rt.alloc(), &words, b"")?;
    let left = metadata(machine, KEPT)?.permissions().mode() & 0o777;
    let bytes = fs::read(rt, KEPT)?;
    remove_file(machine, KEPT)?;
    let is_old = bytes.as_slice() == OLD.as_bytes();
    Ok(answer.status == status && left == mode && is_old == (status != 0))
}
