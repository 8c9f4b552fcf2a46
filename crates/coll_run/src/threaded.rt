//! Runs a job text, from a reader to a writer.

ghost use Rattle.std.specs.Prelude.{◌≡◌, ◌≢◌, ◌≤◌, ◌+◌, IfErr, IfSome, OnOk};
ghost use Rattle.std.specs.Io.KnownBytes.{Keeps};
ghost use Rattle.coll_kinds.specs.Limits.{max_text};
ghost use Rattle.coll_script.specs.Plain.{HasCause, IsInputFault, WritesMeaning};

use crate::running::run_job;
use coll_script::{CountedReader, JobFault, Witnessed, read_text, write_lines};
use coll_shared::NoGate;
use std::alloc::Global;
use std::io::{Read, Write};
use std::rt::Clock;
use std::sync::Wait;
use std::thread::Threads;

/// Reads a job text, runs it by threads, with `workers` progress threads, and writes its output lines. At a fault nothing is
/// written, except at a write fault.
///
/// # Errors
///
/// `Read` if the reader failed; then those of [`run_job`]; then `Write` if the writer failed.
pub fn threaded_job<T: Threads + Wait + Clock + Sync, R: Read, W: Write>(
    rt: &T,
    alloc: Global,
    workers: u8,
    reader: &mut CountedReader<'_, R>,
    writer: &mut Witnessed<'_, W>,
) -> Result<(), JobFault>
    requires unread { reader.old.reads ≡ 0 }
    requires workers { workers ≤ 8 }
    // What was written is the meaning of what was read, and nothing else.
    ensures ok { OnOk result
        (IfSome (R.remaining reader.old.reader.now) (λ input. WritesMeaning input (W.contents writer.old.stream.now) (W.contents writer.new.stream.now))) }
    // The fault of a text is the one that the definition of a text's meaning gives.
    ensures faults { IfErr result (IsInputFault (R.remaining reader.old.reader.now)) }
    // The result is a read fault only if the reader failed, and a write fault only if the writer did.
    ensures cause { IfErr result (λ fault. HasCause fault reader.new.failed writer.new.failed) }
    ensures same_writer { writer.new.stream.ghost_name ≡ writer.old.stream.ghost_name }
    ensures unwritten { IfErr result (λ fault. fault ≢ JobFault.Write → Keeps (W.contents writer.old.stream.now) (W.contents writer.new.stream.now)) }
    ensures reads { reader.new.reads ≤ max_text + 1 }
{
    let text = read_text(alloc, reader)?;
    let told = run_job(rt, alloc, &text, workers, &NoGate)?;
    write_lines(writer, &told.0)
}
