//! Runs a job text by threads, and writes what is reported of the run.

ghost use Rattle.std.specs.Prelude.{◌≡◌, ◌≤◌, false, IfOk, IfErr, IfSome, Ok};
ghost use Rattle.coll_script.specs.Meaning.{meaning};
ghost use Rattle.coll_script.specs.Plain.{IsFaultOf, WritesMeaning};
ghost use Rattle.coll_job.specs.Endings.{EndsWithin, status_in};
ghost use Rattle.coll_job.specs.Tasks.{IsTextStatus};

use crate::answering::name_of;
use crate::host::Host;
use crate::keeping::{UNWRITTEN, put};
use crate::progress::ProgressLine;
use crate::screen::Screen;
use crate::stalls::are_stall_files_kept;
use crate::task::RunOptions;
use crate::viewing::{keep_views, picture_of};
use coll_run::{NoWatch, Recording, recorded_job, threaded_job};
use coll_script::{CountedReader, JobFault, Witnessed, read_text, write_lines};
use std::alloc::Global;
use std::fs::Files;
use std::io::{Read, Write};
use std::rt::Clock;
use std::sync::Wait;
use std::thread::Threads;

/// Runs a text by threads, writes the files on what the run did, and then the values. Returns the exit status. `file` is the
/// name of the text's file.
pub(crate) fn run_text<
    M: Threads + Wait + Sync + Files + Clock,
    S: Screen + Sync,
    R: Read,
    W: Write,
    E: Write,
>(
    host: &mut Host<'_, M>,
    alloc: Global,
    screen: &S,
    options: RunOptions<'_>,
    file: Option<&str>,
    reader: &mut CountedReader<'_, R>,
    output: &mut Witnessed<'_, W>,
    errors: &mut E,
) -> Result<u8, JobFault>
    requires unread { reader.old.reads ≡ 0 }
    requires workers { options.workers ≤ 8 }
    ensures ends { EndsWithin 1 result host.new.failed reader.new.failed output.new.failed
        (W.contents output.old.stream.now) (W.contents output.new.stream.now) }
    ensures judged { IfSome (R.remaining reader.old.reader.now) (λ input. IsTextStatus input (status_in result)) }
    ensures answered { IfOk result (λ status. status ≡ 0 → IfSome (R.remaining reader.old.reader.now)
        (λ input. WritesMeaning input (W.contents output.old.stream.now) (W.contents output.new.stream.now))) }
    ensures same_output { output.new.stream.ghost_name ≡ output.old.stream.ghost_name }
{
    let is_shown = !options.is_quiet && screen.is_watched();
    if !is_shown && !options.views.are_wanted() && options.explanation.is_none() {
        threaded_job(host.machine, alloc, options.workers, reader, output)?;
        return Ok(0);
    }
    let text = read_text(alloc, reader)?;
    run_recorded(
        host, alloc, screen, options, is_shown, file, &text, output, errors,
    )
}

/// Runs a text by threads, with all that is reported of the run beside its values.
fn run_recorded<M: Threads + Wait + Sync + Files + Clock, S: Screen + Sync, W: Write, E: Write>(
    host: &mut Host<'_, M>,
    alloc: Global,
    screen: &S,
    options: RunOptions<'_>,
    is_shown: bool,
    file: Option<&str>,
    text: &[u8],
    output: &mut Witnessed<'_, W>,
    errors: &mut E,
) -> Result<u8, JobFault>
    requires { options.workers ≤ 8 }
    ensures ends { EndsWithin 1 result host.new.failed false output.new.failed (W.contents output.old.stream.now) (W.contents output.new.stream.now) }
    ensures judged { IsTextStatus text.now (status_in result) }
    ensures answered { IfOk result (λ status. status ≡ 0 → WritesMeaning text.now (W.contents output.old.stream.now) (W.contents output.new.stream.now)) }
    ensures same_output { output.new.stream.ghost_name ≡ output.old.stream.ghost_name }
{
    let recorded = watched_job(host.machine, alloc, screen, is_shown, text, options.workers);
    if let Err(JobFault::Stalled) = &recorded {
        if !are_stall_files_kept(host, alloc, &options, file, text, errors)? {
            return Ok(UNWRITTEN);
        }
    }
    let recording = recorded?;
    if !keep_views(
        host,
        alloc,
        &options.views,
        name_of(file),
        &recording,
        errors,
    )? {
        return Ok(UNWRITTEN);
    }
    write_lines(output, &recording.lines)?;
    Ok(0)
}

/// Runs a text by threads, and shows how far the run is if `is_shown`.
fn watched_job<M: Threads + Wait + Sync + Clock, S: Screen + Sync>(
    machine: &M,
    alloc: Global,
    screen: &S,
    is_shown: bool,
    text: &[u8],
    workers: u8,
) -> Result<Recording, JobFault>
    requires { workers ≤ 8 }
    ensures meaning { IfOk result (λ done. meaning text.now ≡ Ok done.lines.items) }
    ensures faults { IfErr result (IsFaultOf text.now) }
{
    if is_shown {
        shown_job(machine, alloc, screen, text, workers)
    } else {
        recorded_job(machine, alloc, text, workers, &NoWatch)
    }
}

/// Runs a text by threads, and shows how far the run is.
fn shown_job<M: Threads + Wait + Sync + Clock, S: Screen + Sync>(
    machine: &M,
    alloc: Global,
    screen: &S,
    text: &[u8],
    workers: u8,
) -> Result<Recording, JobFault>
    requires { workers ≤ 8 }
    ensures meaning { IfOk result (λ done. meaning text.now ≡ Ok done.lines.items) }
    ensures faults { IfErr result (IsFaultOf text.now) }
{
    let progress = ProgressLine::new(machine, alloc, screen);
    let recorded = recorded_job(machine, alloc, text, workers, &progress);
    progress.clear();
    recorded
}

/// Runs a text by threads, and draws what the run did. Returns the exit status.
pub(crate) fn draw_run<M: Threads + Wait + Sync + Files + Clock, R: Read, W: Write, E: Write>(
    host: &mut Host<'_, M>,
    alloc: Global,
    workers: u8,
    file: Option<&str>,
    reader: &mut CountedReader<'_, R>,
    output: &mut Witnessed<'_, W>,
    errors: &mut E,
) -> Result<u8, JobFault>
    requires unread { reader.old.reads ≡ 0 }
    requires workers { workers ≤ 8 }
    ensures ends { EndsWithin 1 result host.new.failed reader.new.failed output.new.failed
        (W.contents output.old.stream.now) (W.contents output.new.stream.now) }
    ensures judged { IfSome (R.remaining reader.old.reader.now) (λ input. IsTextStatus input (status_in result)) }
    ensures same_output { output.new.stream.ghost_name ≡ output.old.stream.ghost_name }
{
    let text = read_text(alloc, reader)?;
    draw_recorded(host, alloc, workers, file, &text, output, errors)
}

/// Runs a text by threads, and draws what the run did.
fn draw_recorded<M: Threads + Wait + Sync + Files + Clock, W: Write, E: Write>(
    host: &mut Host<'_, M>,
    alloc: Global,
    workers: u8,
    file: Option<&str>,
    text: &[u8],
    output: &mut Witnessed<'_, W>,
    errors: &mut E,
) -> Result<u8, JobFault>
    requires { workers ≤ 8 }
    ensures ends { EndsWithin 1 result host.new.failed false output.new.failed (W.contents output.old.stream.now) (W.contents output.new.stream.now) }
    ensures judged { IsTextStatus text.now (status_in result) }
    ensures same_output { output.new.stream.ghost_name ≡ output.old.stream.ghost_name }
{
    let recording = recorded_job(host.machine, alloc, text, workers, &NoWatch)?;
    let picture = picture_of(alloc, &recording)?;
    put(host, alloc, file, &picture, output, errors)
}
