ghost use Rattle.std.specs.Prelude.{◌<◌, length};

use crate::answer::Answer;
use std::alloc::Global;
use std::fs::{self, File, Files, remove_file};
use std::io;
use std::rt::Clock;
use std::sync::Wait;
use std::thread::Threads;

/// The texts whose runs have stored files.
pub const SHOWN: [&str; 3] = ["communicators", "persistent", "sum_of_three"];

/// The files on what it did that a run writes.
const FILES: [&str; 6] = [
    "run.trace",
    "run.stats",
    "run.picture",
    "run.timeline",
    "run.json",
    "run.html",
];

/// A file in a folder that doesn't exist.
const NOWHERE: &str = "nowhere/run.trace";

/// The numbers of progress threads of the runs.
const WORKERS: [&str; 3] = ["0", "2", "8"];

/// The most ranks of a job.
const MAX_RANKS: usize = 64;

/// The stored answer to a text, and the stored files of its runs.
#[derive(Drop)]
struct Stored {
    /// The name of the text's file.
    text: String,
    answer: Answer,
    /// The entries, rank by rank.
    trace: Vec<u8>,
    /// The tables, if no number of them varies.
    stats: Option<Vec<u8>>,
    json: Vec<u8>,
}

impl Stored {
    fn read(rt: &HostRuntime, name: &str) -> io::Result<Stored> {
        let alloc = rt.alloc();
        let lines = fs::read(rt, format!(in alloc; "{name}.out")?)?;
        Ok(Stored {
            text: format!(in alloc; "{name}.job")?,
            answer: Answer::of_lines(alloc, lines),
            trace: fs::read(rt, format!(in alloc; "runs/{name}.trace")?)?,
            stats: fs::read(rt, format!(in alloc; "runs/{name}.stats")?).ok(),
            json: fs::read(rt, format!(in alloc; "runs/{name}.json")?)?,
        })
    }
}

/// Whether the runs of a text show what they did as stored in `runs/`: the entries, rank by rank, in `NAME.trace`; the tables
/// in `NAME.stats`, if their numbers are the same in each run; and the values in `NAME.json`. The picture, the one of `draw
/// run`, the timeline and the page for a browser must have a bar for each completion.
pub fn is_shown<M: Threads + Wait + Sync + Files + Clock>(
    rt: &HostRuntime,
    machine: &M,
    name: &str,
) -> io::Result<bool> {
    let stored = Stored::read(rt, name)?;
    let mut is_stored = true;
    for workers in WORKERS {
        let is_run = is_run_shown(rt, machine, &stored, workers)?;
        is_stored = is_stored && is_run;
    }
    Ok(is_stored)
}

/// Whether one run of the text does so.
fn is_run_shown<M: Threads + Wait + Sync + Files + Clock>(
    rt: &HostRuntime,
    machine: &M,
    stored: &Stored,
    workers: &str,
) -> io::Result<bool> {
    let alloc = rt.alloc();
    let words = words_for(workers, stored.text.as_str());
    let answer = Answer::to(machine, alloc, &words, b"")?;
    if answer != stored.answer {
        return Ok(false);
    }
    let trace = by_rank(alloc, &fs::read(rt, FILES[0])?)?;
    let stats = fs::read(rt, FILES[1])?;
    let picture = fs::read(rt, FILES[2])?;
    let timeline = fs::read(rt, FILES[3])?;
    let json = fs::read(rt, FILES[4])?;
    let page = fs::read(rt, FILES[5])?;
    for file in FILES {
        remove_file(machine, file)?;
    }
    let run = ["draw", "run", "--workers", workers, stored.text.as_str()];
    let drawing = Answer::to(machine, alloc, &run, b"")?;
    let bars = count(&stored.trace, b" completed ");
    let drawn = count(&picture, b"  completed ");
    let timed = count(&timeline, b"\"ph\":\"X\"");
    // The page has the timeline as a string.
    let paged = count(&page, b"\\\"ph\\\":\\\"X\\\"");
    let is_drawn = drawing.status == 0 && count(&drawing.lines, b"  completed ") == bars;
    let is_counted = is_counted(&stored.stats, &stats);
    Ok(
        trace == stored.trace
            && json == stored.json
            && is_counted
            && is_drawn
            && drawn == bars
            && timed == bars
            && paged == bars,
    )
}

/// Whether a run whose file can't be written reports this after the file's name, and writes nothing else; and whether a run
/// that deadlocks writes no file.
pub fn is_kept_back<M: Threads + Wait + Sync + Files + Clock>(
    machine: &M,
    alloc: Global,
) -> io::Result<bool> {
    let nowhere = [
        "run",
        "--trace",
        NOWHERE,
        "--stats",
        FILES[1],
        "sum_of_three.job",
    ];
    let answer = Answer::to(machine, alloc, &nowhere, b"")?;
    let is_told = answer.status == 1
        && answer.lines.is_empty()
        && answer.errors.starts_with(b"nowhere/run.trace: ");
    let stalls = ["run", "--trace", FILES[0], "crossed_barriers.job"];
    let answer = Answer::to(machine, alloc, &stalls, b"")?;
    Ok(
        is_told
            && answer.status == 3
            && File::open(machine, FILES[0]).is_err()
            && File::open(machine, FILES[1]).is_err(),
    )
}

/// Whether tables are the stored ones, if there are stored ones.
fn is_counted(stored: &Option<Vec<u8>>, tables: &Vec<u8>) -> bool {
    match stored {
        Some(stored) => stored == tables,
        None => true,
    }
}

/// The words that run a text, with all files on what the run did.
fn words_for<'a>(workers: &'a str, text: &'a str) -> [&'a str; 18] {
    [
        "run",
        "--workers",
        workers,
        "--trace",
        FILES[0],
        "--stats",
        FILES[1],
        "--picture",
        FILES[2],
        "--timeline",
        FILES[3],
        "--html",
        FILES[5],
        "--format",
        "json",
        "--out",
        FILES[4],
        text,
    ]
}

/// The lines of a trace, rank by rank; those of a rank keep their order.
fn by_rank(alloc: Global, trace: &[u8]) -> io::Result<Vec<u8>> {
    let mut sorted = Vec::new(alloc);
    for rank in 0..MAX_RANKS {
        let head = format!(in alloc; "rank {rank} ")?;
        for line in trace.split(|byte| *byte == b'\n') {
            if line.starts_with(head.as_bytes()) {
                sorted.extend_from_slice(line)?;
                sorted.push(b'\n')?;
            }
        }
    }
    Ok(sorted)
}

/// How many times a part occurs in a text.
fn count(text: &[u8], part: &[u8]) -> usize
    requires { 0 < length part.now }
{
    text.windows(part.len())
        .filter(|found| *found == part)
        .count()
}
