ghost use Rattle.std.specs.Prelude.{◌≡◌, ◌≢◌, ◌<◌, ◌≤◌, ◌||◌, false, true, IfOk, IfErr, IfNone, IfSome, OnOk};
ghost use Rattle.std.specs.Io.KnownBytes.{Keeps};
ghost use Rattle.clap.specs.Words.{kind_of};
ghost use Rattle.coll_script.specs.Faults.{status_of};
ghost use Rattle.coll_job.specs.Endings.{status_in};
ghost use Rattle.coll_job.specs.Tasks.{workers_of, may_write, name_of, AnswersText, IsAnswered, IsJudged, IsRefusal, IsStatusOf};

use crate::answering::{answer_file, write_answer};
use crate::host::Host;
use crate::screen::{NoScreen, Screen};
use crate::task::Task;
use crate::words::task_of;
use clap::Error;
use clap::error::ErrorKind;
use coll_script::{CountedReader, JobFault, Witnessed, write_lines};
use std::alloc::Global;
use std::fs::Files;
use std::io;
use std::io::{Read, Write};
use std::rt::Clock;
use std::sync::Wait;
use std::thread::Threads;

/// The exit status if the words are wrong.
pub(crate) const BAD_WORDS: u8 = 2;

/// Does what the words of a command line ask for, the program's own name first: `colljob plain` writes the lines of a job text,
/// `colljob run` runs the text by threads of `machine` and writes the lines of what they got, `colljob explain` writes whether
/// its runs stall, and `colljob check` writes its faults. The text comes from the file of `machine` that the words name, or
/// from `input`. `colljob draw` draws the schedules of a collective, and takes no text. Returns the exit status. At a fault
/// nothing is written to `output`, except at a write fault, and `errors` gets the fault's line; a failure to write that line is
/// ignored.
pub fn run<M: Threads + Wait + Sync + Files + Clock, R: Read, W: Write, E: Write>(
    machine: &M,
    alloc: Global,
    words: &[String],
    input: &mut R,
    output: &mut W,
    errors: &mut E,
) -> u8
    ensures statuses { result ≤ 6 }
    // Only an answer, a fault of the streams, an explanation, or faults as JSON leave anything on standard output.
    ensures unwritten { 3 < result → result ≢ 6 → Keeps (W.contents output.old) (W.contents output.new) }
{
    run_on(machine, alloc, &NoScreen, words, input, output, errors)
}

/// Does the same as `run`, but with `errors` on a screen: faults may have colours, and a long run shows how far it is.
pub fn run_on<
    M: Threads + Wait + Sync + Files + Clock,
    S: Screen + Sync,
    R: Read,
    W: Write,
    E: Write,
>(
    machine: &M,
    alloc: Global,
    screen: &S,
    words: &[String],
    input: &mut R,
    output: &mut W,
    errors: &mut E,
) -> u8
    ensures statuses { result ≤ 6 }
    ensures unwritten { 3 < result → result ≢ 6 → Keeps (W.contents output.old) (W.contents output.new) }
{
    let mut signature = String::new(alloc);
    let parsed = task_of(alloc, screen.colors(), words, &mut signature);
    do_parsed(
        &mut Host::new(machine),
        alloc,
        screen,
        parsed,
        &mut CountedReader::new(input),
        &mut Witnessed::new(output),
        &mut Witnessed::new(errors),
    )
}

/// Does the task that a parser made of the words. If it made none, writes what the parser says of them.
pub fn do_parsed<
    M: Threads + Wait + Sync + Files + Clock,
    S: Screen + Sync,
    R: Read,
    W: Write,
    E: Write,
>(
    host: &mut Host<'_, M>,
    alloc: Global,
    screen: &S,
    parsed: Result<Task<'_>, Error>,
    input: &mut CountedReader<'_, R>,
    output: &mut Witnessed<'_, W>,
    errors: &mut Witnessed<'_, E>,
) -> u8
    requires unread { input.old.reads ≡ 0 }
    requires workers { IfOk parsed (λ task. workers_of task.way ≤ 8) }
    ensures statuses { result ≤ 6 }
    // If the parser makes no task, the status is 2, except for help, the version and refused memory.
    ensures refused { IfErr parsed.entry (λ error. IsRefusal (kind_of error) result) }
    // If it makes a task on standard input, the status is 2 exactly if the text has a fault.
    ensures judged { IfOk parsed.entry (λ task. IfNone task.file (IsJudged task.way (R.remaining input.old.reader.now) result)) }
    // If such a task is answered, its answer was written: under `plain` and `run` the meaning of the text, under `explain` and `check`
    // what they say with that status. If a file is named, it is the answer to the text that was read.
    ensures answered { IfOk parsed.entry (λ task. IfNone task.file
        (IsAnswered task.way (name_of task.file) result (R.remaining input.old.reader.now) (W.contents output.old.stream.now) (W.contents output.new.stream.now)
        (E.contents errors.old.stream.now) (E.contents errors.new.stream.now))) }
    ensures answered_file { IfOk parsed.entry (λ task. IfSome task.file (λ name.
        AnswersText task.way (name_of task.file) result (W.contents output.old.stream.now) (W.contents output.new.stream.now)
        (E.contents errors.old.stream.now) (E.contents errors.new.stream.now))) }
    // The status is 1 only if the input, the output, standard error or a file failed.
    ensures cause { result ≡ 1 → (input.new.failed || (output.new.failed || (errors.new.failed || host.new.failed))) ≡ true }
    ensures same_output { output.new.stream.ghost_name ≡ output.old.stream.ghost_name }
    ensures unwritten { 3 < result → result ≢ 6 → Keeps (W.contents output.old.stream.now) (W.contents output.new.stream.now) }
    // `may_write` says for which tasks and statuses standard output may change; if the parser makes no task, only help is written there.
    ensures unwritten_task { IfOk parsed.entry
        (λ task. may_write task.way result ≡ false → Keeps (W.contents output.old.stream.now) (W.contents output.new.stream.now)) }
    ensures unwritten_words { IfErr parsed.entry (λ error. 1 < result → Keeps (W.contents output.old.stream.now) (W.contents output.new.stream.now)) }
{
    match parsed {
        Ok(task) => do_task(host, alloc, screen, task, input, output, errors),
        Err(error) => help(alloc, &error, output, errors.stream),
    }
}

/// Does a task, as `run` does it for its words.
pub fn do_task<
    M: Threads + Wait + Sync + Files + Clock,
    S: Screen + Sync,
    R: Read,
    W: Write,
    E: Write,
>(
    host: &mut Host<'_, M>,
    alloc: Global,
    screen: &S,
    task: Task<'_>,
    input: &mut CountedReader<'_, R>,
    output: &mut Witnessed<'_, W>,
    errors: &mut Witnessed<'_, E>,
) -> u8
    requires unread { input.old.reads ≡ 0 }
    requires workers { workers_of task.way ≤ 8 }
    ensures status { IsStatusOf task.entry.way result }
    // For a text from standard input the status is 2 exactly if the text has a fault.
    ensures judged { IfNone task.entry.file (IsJudged task.entry.way (R.remaining input.old.reader.now) result) }
    // If it is answered, the answer was written: under `plain` and `run` the meaning of the text, under `explain` and `check` what they
    // say with that status. If a file is named, it is the answer to the text that was read.
    ensures answered { IfNone task.entry.file
        (IsAnswered task.entry.way (name_of task.entry.file) result (R.remaining input.old.reader.now)
        (W.contents output.old.stream.now) (W.contents output.new.stream.now)
        (E.contents errors.old.stream.now) (E.contents errors.new.stream.now)) }
    ensures answered_file { IfSome task.entry.file (λ name.
        AnswersText task.entry.way (name_of task.entry.file) result (W.contents output.old.stream.now) (W.contents output.new.stream.now)
        (E.contents errors.old.stream.now) (E.contents errors.new.stream.now)) }
    // The status is 1 only if the input, the output, standard error or a file failed.
    ensures cause { result ≡ 1 → (input.new.failed || (output.new.failed || (errors.new.failed || host.new.failed))) ≡ true }
    ensures same_output { output.new.stream.ghost_name ≡ output.old.stream.ghost_name }
    // `may_write` says for which tasks and statuses standard output may change.
    ensures unwritten { may_write task.entry.way result ≡ false → Keeps (W.contents output.old.stream.now) (W.contents output.new.stream.now) }
{
    match task.file {
        None => {
            let answer = write_answer(host, alloc, screen, task, input, output, errors);
            ended(None, answer, input.error(), output.error(), errors.stream)
        }
        Some(name) => {
            let answer = answer_file(host, alloc, screen, task, name, output, errors);
            ended(
                Some(name),
                answer,
                host.error(),
                output.error(),
                errors.stream,
            )
        }
    }
}

/// The exit status of an answer. Reports a fault; one of reading or of writing with the error of its stream.
fn ended<E: Write>(
    file: Option<&str>,
    answer: Result<u8, JobFault>,
    read: Option<io::Error>,
    written: Option<io::Error>,
    errors: &mut E,
) -> u8
    ensures status { result ≡ status_in answer }
    ensures untold { OnOk answer (E.contents errors.new ≡ E.contents errors.old) }
{
    match answer {
        Ok(status) => status,
        Err(fault) => told_with(file, fault, error_of(fault, read, written), errors),
    }
}

/// The error of the stream to which the fault belongs, if it is a read or write fault.
fn error_of(
    fault: JobFault,
    read: Option<io::Error>,
    written: Option<io::Error>,
) -> Option<io::Error> {
    match fault {
        JobFault::Read => read,
        JobFault::Write => written,
        _ => None,
    }
}

/// Writes what clap says of the words: help to `output`, with status 0; an error of the words to `errors`, with status 2.
fn help<W: Write, E: Write>(
    alloc: Global,
    error: &Error,
    output: &mut Witnessed<'_, W>,
    errors: &mut E,
) -> u8
    ensures statuses { result ≤ 5 }
    ensures refused { IsRefusal (kind_of error.now) result }
    ensures cause { result ≡ 1 → output.new.failed ≡ true }
    ensures same_output { output.new.stream.ghost_name ≡ output.old.stream.ghost_name }
    ensures unwritten { 1 < result → Keeps (W.contents output.old.stream.now) (W.contents output.new.stream.now) }
{
    match error.kind() {
        ErrorKind::DisplayHelp | ErrorKind::DisplayVersion => show(alloc, error, output, errors),
        ErrorKind::OutOfMemory => told(None, JobFault::Memory, errors),
        _ => {
            let _ = write!(errors, "{error}");
            BAD_WORDS
        }
    }
}

/// Writes help, or the version.
fn show<W: Write, E: Write>(
    alloc: Global,
    error: &Error,
    output: &mut Witnessed<'_, W>,
    errors: &mut E,
) -> u8
    ensures statuses { result ≤ 5 }
    ensures asked { result ≢ 2 }
    ensures cause { result ≡ 1 → output.new.failed ≡ true }
    ensures same_output { output.new.stream.ghost_name ≡ output.old.stream.ghost_name }
    ensures unwritten { 1 < result → Keeps (W.contents output.old.stream.now) (W.contents output.new.stream.now) }
{
    let Ok(text) = format!(in alloc; "{error}") else {
        return told(None, JobFault::Memory, errors);
    };
    match write_lines(output, text.as_str().as_bytes()) {
        Ok(()) => 0,
        Err(_) => told_with(None, JobFault::Write, output.error(), errors),
    }
}

/// Reports a fault, after the name of the text's file, and returns its exit status. A write fault doesn't concern that file, so
/// it is reported without the name.
pub fn told<E: Write>(file: Option<&str>, fault: JobFault, errors: &mut E) -> u8
    ensures { result ≡ status_of fault }
{
    told_with(file, fault, None, errors)
}

/// Reports a fault with the error of its stream, if it has one, and returns its exit status. If the reader of the output has
/// closed it, nothing is reported, as usual for tools.
fn told_with<E: Write>(
    file: Option<&str>,
    fault: JobFault,
    error: Option<io::Error>,
    errors: &mut E,
) -> u8
    ensures { result ≡ status_of fault }
{
    if fault != JobFault::Write || !is_gone(error) {
        let _ = tell(file, fault, error, errors);
    }
    fault.status()
}

/// Whether the reader of the output has closed it.
fn is_gone(error: Option<io::Error>) -> bool {
    match error {
        Some(error) => error.kind() == io::ErrorKind::BrokenPipe,
        None => false,
    }
}

/// Writes the line of a fault.
fn tell<E: Write>(
    file: Option<&str>,
    fault: JobFault,
    error: Option<io::Error>,
    errors: &mut E,
) -> io::Result<()> {
    if let Some(name) = file {
        if fault != JobFault::Write {
            write!(errors, "{name}: ")?;
        }
    }
    match error {
        Some(error) => writeln!(errors, "{fault}: {error}"),
        None => fault.print(errors),
    }
}
