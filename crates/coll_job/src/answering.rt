//! Answers a text: what a task asks for of a text is written.

ghost use Rattle.std.specs.Prelude.{◌≡◌, ◌≤◌, ◌+◌, ◌||◌, Some, false, IfOk, IfErr, IfSome, take};
ghost use Rattle.coll_kinds.specs.Limits.{max_text};
ghost use Rattle.coll_script.specs.Plain.{HasCause, IsReadFault};
ghost use Rattle.coll_job.specs.Endings.{EndsTask, status_in};
ghost use Rattle.coll_job.specs.Tasks.{workers_of, name_of, AnswersText, IsAnswer, IsJudged};

use crate::carrying_out::{draw_run, run_text};
use crate::drawing::draw;
use crate::host::Host;
use crate::pages::explain;
use crate::screen::Screen;
use crate::task::{Task, Way};
use coll_check::check_job;
use coll_script::{CountedReader, JobFault, Witnessed, plain_job, read_text};
use std::alloc::Global;
use std::fs::Files;
use std::io::{Read, Write};
use std::rt::Clock;
use std::sync::Wait;
use std::thread::Threads;

/// The exit status if a file can't be opened: that of a read fault.
const UNOPENED: u8 = 1;

/// Reads the job text of a task from a file, and writes what the task asks for. Returns the exit status.
pub(crate) fn answer_file<
    M: Threads + Wait + Sync + Files + Clock,
    S: Screen + Sync,
    W: Write,
    E: Write,
>(
    host: &mut Host<'_, M>,
    alloc: Global,
    screen: &S,
    task: Task<'_>,
    name: &str,
    output: &mut Witnessed<'_, W>,
    errors: &mut Witnessed<'_, E>,
) -> Result<u8, JobFault>
    requires workers { workers_of task.way ≤ 8 }
    ensures ends { EndsTask task.entry.way result host.new.failed host.new.failed (output.new.failed || errors.new.failed)
        (W.contents output.old.stream.now) (W.contents output.new.stream.now) }
    // The answer to the text that was read was written.
    ensures answered { IfOk result (λ status. AnswersText task.entry.way (name_of task.entry.file) status
        (W.contents output.old.stream.now) (W.contents output.new.stream.now) (E.contents errors.old.stream.now) (E.contents errors.new.stream.now)) }
    ensures same_output { output.new.stream.ghost_name ≡ output.old.stream.ghost_name }
{
    match host.open(name) {
        Ok(file) => match read_file(host, alloc, file) {
            Ok(text) => answer_text(host, alloc, screen, task, &text, output, errors),
            Err(fault) => Err(fault),
        },
        Err(error) => {
            let _ = writeln!(errors.stream, "{name}: {error}");
            Ok(UNOPENED)
        }
    }
}

/// Reads the text of a file, and notes whether the file failed.
fn read_file<M: Files>(
    host: &mut Host<'_, M>,
    alloc: Global,
    file: M::File,
) -> Result<Vec<u8>, JobFault>
    ensures fault { IfErr result IsReadFault }
    ensures cause { IfErr result (λ fault. HasCause fault host.new.failed false) }
{
    let mut file = file;
    read_all(host, alloc, &mut file)
}

/// Reads a text from an opened file, up to one byte more than a text may have, and notes whether the file failed.
fn read_all<M: Files, R: Read>(
    host: &mut Host<'_, M>,
    alloc: Global,
    file: &mut R,
) -> Result<Vec<u8>, JobFault>
    ensures text { IfOk result (λ text. IfSome (R.remaining file.old) (λ input. text.items ≡ take (max_text + 1) input)) }
    ensures fault { IfErr result IsReadFault }
    ensures cause { IfErr result (λ fault. HasCause fault host.new.failed false) }
{
    let mut reader = CountedReader::new(file);
    let text = read_text(alloc, &mut reader);
    host.heed(&reader);
    text
}

/// Writes what a task asks for of a text that was read. Returns the exit status.
fn answer_text<M: Threads + Wait + Sync + Files + Clock, S: Screen + Sync, W: Write, E: Write>(
    host: &mut Host<'_, M>,
    alloc: Global,
    screen: &S,
    task: Task<'_>,
    text: &[u8],
    output: &mut Witnessed<'_, W>,
    errors: &mut Witnessed<'_, E>,
) -> Result<u8, JobFault>
    requires workers { workers_of task.way ≤ 8 }
    ensures ends { EndsTask task.entry.way result host.new.failed host.new.failed (output.new.failed || errors.new.failed)
        (W.contents output.old.stream.now) (W.contents output.new.stream.now) }
    ensures answered { IfOk result (λ status. IsAnswer task.entry.way (name_of task.entry.file) status (Some text.now)
        (W.contents output.old.stream.now) (W.contents output.new.stream.now) (E.contents errors.old.stream.now) (E.contents errors.new.stream.now)) }
    ensures same_output { output.new.stream.ghost_name ≡ output.old.stream.ghost_name }
{
    let mut bytes = text;
    let mut reader = CountedReader::new(&mut bytes);
    let answer = write_answer(host, alloc, screen, task, &mut reader, output, errors);
    host.heed(&reader);
    answer
}

/// Reads the job text of a task, and writes what the task asks for. Returns the exit status.
pub(crate) fn write_answer<
    M: Threads + Wait + Sync + Files + Clock,
    S: Screen + Sync,
    R: Read,
    W: Write,
    E: Write,
>(
    host: &mut Host<'_, M>,
    alloc: Global,
    screen: &S,
    task: Task<'_>,
    reader: &mut CountedReader<'_, R>,
    output: &mut Witnessed<'_, W>,
    errors: &mut Witnessed<'_, E>,
) -> Result<u8, JobFault>
    requires unread { reader.old.reads ≡ 0 }
    requires workers { workers_of task.way ≤ 8 }
    ensures ends { EndsTask task.entry.way result host.new.failed reader.new.failed (output.new.failed || errors.new.failed)
        (W.contents output.old.stream.now) (W.contents output.new.stream.now) }
    ensures judged { IsJudged task.entry.way (R.remaining reader.old.reader.now) (status_in result) }
    // The answer was written.
    ensures answered { IfOk result (λ status.
        IsAnswer task.entry.way (name_of task.entry.file) status (R.remaining reader.old.reader.now)
        (W.contents output.old.stream.now) (W.contents output.new.stream.now)
        (E.contents errors.old.stream.now) (E.contents errors.new.stream.now)) }
    ensures same_output { output.new.stream.ghost_name ≡ output.old.stream.ghost_name }
{
    let name = name_of(task.file);
    match task.way {
        Way::Plain => {
            plain_job(alloc, reader, output)?;
            Ok(0)
        }
        Way::Run(options) => run_text(
            host,
            alloc,
            screen,
            options,
            task.file,
            reader,
            output,
            errors.stream,
        ),
        Way::Explain(explaining) => explain(
            host,
            alloc,
            name,
            explaining,
            reader,
            output,
            errors.stream,
        ),
        Way::Check(form) => check_job(alloc, name, form, reader, output, errors),
        Way::Draw(draft) => draw(host, alloc, draft, output, errors.stream),
        Way::DrawRun { workers, file } => {
            draw_run(host, alloc, workers, file, reader, output, errors.stream)
        }
    }
}

/// The name of a text in messages.
pub(crate) fn name_of(file: Option<&str>) -> &str
    ensures { result.now ≡ name_of file.entry }
{
    match file {
        Some(name) => name,
        None => "<stdin>",
    }
}
