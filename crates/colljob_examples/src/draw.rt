use crate::answer::Answer;
use std::fs::{self, Files};
use std::io;
use std::rt::Clock;
use std::sync::Wait;
use std::thread::Threads;

/// The stored texts of `draws/`, and the words of a command line that print them: a drawing on standard output (one of waits
/// with the status of a deadlock), or on standard error what is wrong with the words.
pub const DRAWS: [(&str, &[&str]); 9] = [
    (
        "allreduce_of_six.txt",
        &["draw", "allreduce sum i32 1", "--members", "6"],
    ),
    (
        "allreduce_of_six.txt",
        &["draw", "allreduce", "sum", "i32", "1", "--members", "6"],
    ),
    (
        "exscan_of_five.txt",
        &["draw", "exscan max i64 2", "--members", "5"],
    ),
    (
        "rows_of_three.txt",
        &["draw", "allgatherv i16 2 0 1", "--members", "3"],
    ),
    (
        "alltoall_of_four.svg",
        &["draw", "alltoall byte 3", "--members", "4", "--svg"],
    ),
    (
        "crossed_barriers.dot",
        &["draw", "waits", "--dot", "crossed_barriers.job"],
    ),
    (
        "many_circles.dot",
        &["draw", "waits", "--dot", "--all", "stalls/many_circles.job"],
    ),
    (
        "other_operation.fault",
        &["draw", "allreduce summ i32 1", "--members", "6"],
    ),
    (
        "no_such_root.fault",
        &["draw", "bcast 7 i32 1", "--members", "6"],
    ),
];

/// Whether the words print the stored text.
pub fn is_drawn<M: Threads + Wait + Sync + Files + Clock>(
    rt: &HostRuntime,
    machine: &M,
    name: &str,
    words: &[&str],
) -> io::Result<bool> {
    let stored = fs::read(rt, format!(in rt.alloc(); "draws/{name}")?)?;
    let wanted = if name.ends_with(".fault") {
        Answer::of_fault(rt.alloc(), 2, stored)
    } else if name.ends_with(".dot") {
        Answer::of_stall(rt.alloc(), stored)
    } else {
        Answer::of_lines(rt.alloc(), stored)
    };
    Ok(Answer::to(machine, rt.alloc(), words, b"")? == wanted)
}
