//! A job text without an engine: it is read, and the lines of its values are computed and written.

ghost use Rattle.std.specs.Prelude.{◌≡◌, ◌≢◌, ◌<◌, ◌≤◌, ◌+◌, ◌++◌, length, take, vec_len, true, false, IfOk, IfErr, OnOk, OnErr, IsOkUnless, IfSome, Ok};
ghost use Rattle.std.specs.Io.KnownBytes.{Appends, Consumes, Keeps, IsAtEnd};
ghost use Rattle.coll_kinds.specs.Limits.{max_text};
ghost use Rattle.coll_script.specs.Plain.{HasCause, IsReadFault, IsPlainFault, WritesMeaning, IsAnswerFault};
ghost use Rattle.coll_script.specs.Meaning.{meaning};

use crate::counted::CountedReader;
use crate::fault::JobFault;
use crate::script::Script;
use crate::witnessed::Witnessed;
use coll_kinds::MAX_TEXT;
use std::alloc::Global;
use std::io::{Read, Write};

/// The most bytes that are read of a text: one more than it may have.
const READ_LIMIT: usize = MAX_TEXT + 1;

/// The most bytes of one read.
const PIECE: usize = 8192;

/// Reads a text up to its end, or up to and including the first byte beyond the length that a text may have. Any error of the
/// reader is [`JobFault::Read`], even one that might pass if the read were repeated; refused memory is [`JobFault::Memory`].
pub fn read_text<R: Read>(
    alloc: Global,
    reader: &mut CountedReader<'_, R>,
) -> Result<Vec<u8>, JobFault>
    requires unread { reader.old.reads ≡ 0 }
    ensures text { IfOk result (λ text. IfSome (R.remaining reader.old.reader.now) (λ input. text.items ≡ take (max_text + 1) input)) }
    ensures left { IfOk result (λ text. Consumes (R.remaining reader.old.reader.now) (R.remaining reader.new.reader.now) text.items) }
    ensures faults { IfErr result IsReadFault }
    // The result is a read fault only if the reader failed.
    ensures cause { IfErr result (λ fault. HasCause fault reader.new.failed false) }
    ensures reads { reader.new.reads ≤ max_text + 1 }
    // Each read except the last gave a byte.
    ensures few { IfOk result (λ text. reader.new.reads ≤ length text.items + 1) }
    ensures same_reference { reader.new.reader.ghost_name ≡ reader.old.reader.ghost_name }
{
    let mut text = Vec::new(alloc);
    let mut piece = [0u8; PIECE];
    for _ in 0..READ_LIMIT {
        let n = read_piece(reader, READ_LIMIT - text.len(), &mut piece, &mut text)?;
        if n == 0 || text.len() == READ_LIMIT {
            return Ok(text);
        }
    }
    Ok(text)
}

/// Appends the bytes of one read, at most `room` and at most a piece. Returns their number; 0 is the end.
fn read_piece<R: Read>(
    reader: &mut CountedReader<'_, R>,
    room: usize,
    piece: &mut [u8],
    text: &mut Vec<u8>,
) -> Result<usize, JobFault>
    requires some { 0 < room }
    requires buffer { 0 < length piece.old }
    requires few { reader.old.reads < max_text + 1 }
    ensures bound { IfOk result (λ n. n ≤ room) }
    ensures text { IfOk result (λ n. text.new.items ≡ text.old.items ++ take n piece.new) }
    ensures len { IfOk result (λ n. vec_len text.new ≡ vec_len text.old + n) }
    ensures consumed { IfOk result (λ n. Consumes (R.remaining reader.old.reader.now) (R.remaining reader.new.reader.now) (take n piece.new)) }
    ensures end { IfOk result (λ n. n ≡ 0 → IsAtEnd (R.remaining reader.new.reader.now)) }
    ensures reads { reader.new.reads ≡ reader.old.reads + 1 }
    ensures same_reference { reader.new.reader.ghost_name ≡ reader.old.reader.ghost_name }
    ensures faults { IfErr result IsReadFault }
    ensures cause { IfErr result (λ fault. HasCause fault reader.new.failed false) }
{
    let room = room.min(piece.len());
    let Ok(n) = reader.read(&mut piece[..room]) else {
        return Err(JobFault::Read);
    };
    match text.extend_from_slice(&piece[..n]) {
        Ok(()) => Ok(n),
        Err(_) => Err(JobFault::Memory),
    }
}

/// Reads a job text, and writes its output lines: the value of every post and start. At a fault nothing is written, except at a
/// write fault.
///
/// # Errors
///
/// `Read` if the reader failed, `Text` if the text has a fault, `Write` if the writer failed, and `Memory` if memory was refused.
pub fn plain_job<R: Read, W: Write>(
    alloc: Global,
    reader: &mut CountedReader<'_, R>,
    writer: &mut Witnessed<'_, W>,
) -> Result<(), JobFault>
    requires unread { reader.old.reads ≡ 0 }
    // What was written is the meaning of what was read, and nothing else.
    ensures ok { OnOk result
        (IfSome (R.remaining reader.old.reader.now) (λ input. WritesMeaning input (W.contents writer.old.stream.now) (W.contents writer.new.stream.now))) }
    // The fault of a text is the one that the definition of a text's meaning gives.
    ensures faults { IfErr result (IsPlainFault (R.remaining reader.old.reader.now)) }
    // The result is a read fault only if the reader failed, and a write fault only if the writer did.
    ensures cause { IfErr result (λ fault. HasCause fault reader.new.failed writer.new.failed) }
    ensures same_writer { writer.new.stream.ghost_name ≡ writer.old.stream.ghost_name }
    ensures unwritten { IfErr result (λ fault. fault ≢ JobFault.Write → Keeps (W.contents writer.old.stream.now) (W.contents writer.new.stream.now)) }
    ensures reads { reader.new.reads ≤ max_text + 1 }
    // The reader has lost what was read, and no byte more.
    ensures left { OnOk result (IfSome (R.remaining reader.old.reader.now) (λ input.
        Consumes (R.remaining reader.old.reader.now) (R.remaining reader.new.reader.now) (take (max_text + 1) input))) }
    ensures same_reference { reader.new.reader.ghost_name ≡ reader.old.reader.ghost_name }
{
    let text = read_text(alloc, reader)?;
    let lines = answer(alloc, &text)?;
    write_lines(writer, &lines)
}

/// Writes all lines, and flushes them. Any error of the writer is [`JobFault::Write`].
pub fn write_lines<W: Write>(writer: &mut Witnessed<'_, W>, lines: &[u8]) -> Result<(), JobFault>
    ensures same_reference { writer.new.stream.ghost_name ≡ writer.old.stream.ghost_name }
    ensures ok { OnOk result (Appends (W.contents writer.old.stream.now) (W.contents writer.new.stream.now) lines.now) }
    ensures fault { IsOkUnless result JobFault.Write }
    ensures cause { OnErr result (writer.new.failed ≡ true) }
{
    match writer.write_through(lines) {
        Ok(()) => Ok(()),
        Err(_) => Err(JobFault::Write),
    }
}

/// The output lines of a text.
fn answer(alloc: Global, text: &[u8]) -> Result<Vec<u8>, JobFault>
    ensures ok { IfOk result (λ lines. meaning text.now ≡ Ok lines.items) }
    ensures faults { IfErr result (IsAnswerFault text.now) }
{
    let script = Script::read(alloc, text)?;
    Ok(script.plain_lines()?)
}
