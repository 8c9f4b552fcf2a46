//! Writes a file whole or not at all.

ghost use Rattle.std.specs.Prelude.{◌≡◌, true, false, IfNone, OnOk, IsOkUnless};
ghost use Rattle.std.specs.Io.KnownBytes.{Appends};
ghost use Rattle.coll_job.specs.Endings.{EndsWithin};

use crate::host::Host;
use coll_script::{JobFault, Witnessed, write_lines};
use std::alloc::Global;
use std::fs::{
    File, Files, Metadata, OpenFile, OpenOptions, metadata, remove_file, rename, symlink_metadata,
};
use std::io;
use std::io::{ErrorKind, Write};
use std::os::unix::fs::MetadataExt;

/// The exit status if a file can't be written: that of a write fault.
pub(crate) const UNWRITTEN: u8 = 1;

/// Writes to the file that is named, or, if none is, to standard output. Returns the exit status. If the file can't be written,
/// `errors` gets its name and the reason.
pub(crate) fn put<F: Files, W: Write, E: Write>(
    host: &mut Host<'_, F>,
    alloc: Global,
    file: Option<&str>,
    bytes: &[u8],
    output: &mut Witnessed<'_, W>,
    errors: &mut E,
) -> Result<u8, JobFault>
    // The status is 1 only if a file failed, and the result a write fault only if the output did.
    ensures ends { EndsWithin 1 result host.new.failed false output.new.failed (W.contents output.old.stream.now) (W.contents output.new.stream.now) }
    // Without a file standard output gets the bytes, and nothing else.
    ensures written { IfNone file.entry (OnOk result (Appends (W.contents output.old.stream.now) (W.contents output.new.stream.now) bytes.now)) }
    ensures fault { IsOkUnless result JobFault.Write }
    ensures same_output { output.new.stream.ghost_name ≡ output.old.stream.ghost_name }
{
    match file {
        None => write_lines(output, bytes)?,
        Some(file) => {
            if !is_kept(host, alloc, file, bytes, errors) {
                return Ok(UNWRITTEN);
            }
        }
    }
    Ok(0)
}

/// Writes a file. Returns whether that succeeded; if not, `errors` gets the file's name and the reason.
pub(crate) fn is_kept<F: Files, E: Write>(
    host: &mut Host<'_, F>,
    alloc: Global,
    file: &str,
    bytes: &[u8],
    errors: &mut E,
) -> bool
    ensures { result ≡ false → host.new.failed ≡ true }
{
    match host.keep(alloc, file, bytes) {
        Ok(()) => true,
        Err(error) => {
            let _ = writeln!(errors, "{file}: {error}");
            false
        }
    }
}

/// Writes a file, whole or not at all. Until it is complete it has another name beside it; at an error nothing of it is left,
/// and a file that had the name keeps its bytes. A file that replaces another one gets the mode of that one. A link, a pipe, a
/// device or anything else that isn't a file gets the bytes itself.
///
/// # Errors
///
/// Those of the system; `PermissionDenied` if a file has the name that nobody may write; `InvalidInput` if it is the file to
/// which standard output or standard error goes: what goes there later would replace the bytes, or be lost with the old file.
pub(crate) fn keep<F: Files>(files: &F, alloc: Global, name: &str, bytes: &[u8]) -> io::Result<()> {
    let Ok(there) = symlink_metadata(files, name) else {
        return write_beside(files, alloc, name, None, bytes);
    };
    if let Ok(found) = metadata(files, name) {
        if found.is_file() {
            check_stream(files, &OWN_OUTPUT, &found)?;
            check_stream(files, &OWN_ERRORS, &found)?;
            check_writable(files, name, &found)?;
        }
    }
    if there.is_file() {
        write_beside(files, alloc, name, Some(&there), bytes)
    } else {
        write(files, name, bytes)
    }
}

/// A stream of the program, and why a file to which it goes is refused.
struct Stream {
    name: &'static str,
    refusal: &'static str,
}

static OWN_OUTPUT: Stream = Stream {
    name: "/dev/stdout",
    refusal: "standard output goes to this file, so name another one",
};

static OWN_ERRORS: Stream = Stream {
    name: "/dev/stderr",
    refusal: "standard error goes to this file, so name another one",
};

/// Refuses a file to which a stream of the program goes.
fn check_stream<F: Files>(files: &F, stream: &Stream, found: &Metadata) -> io::Result<()> {
    match metadata(files, stream.name) {
        Ok(own) if is_same(&own, found) => {
            Err(io::Error::new(ErrorKind::InvalidInput, stream.refusal))
        }
        _ => Ok(()),
    }
}

/// Whether both describe one file. On a file system that numbers no files, no two are the same.
fn is_same(one: &Metadata, other: &Metadata) -> bool {
    one.ino() != 0 && one.ino() == other.ino() && one.dev() == other.dev()
}

/// Refuses a file that can't be written. A file that nobody may write is refused even to a user who may write all files.
fn check_writable<F: Files>(files: &F, name: &str, found: &Metadata) -> io::Result<()> {
    if found.permissions().readonly() {
        return Err(io::Error::from(ErrorKind::PermissionDenied));
    }
    let _file = OpenOptions::new().write(true).open(files, name)?;
    Ok(())
}

/// Writes a file beside the name, and gives it the name once it is complete. At an error nothing of it is left.
fn write_beside<F: Files>(
    files: &F,
    alloc: Global,
    name: &str,
    old: Option<&Metadata>,
    bytes: &[u8],
) -> io::Result<()> {
    let part = format!(in alloc; "{name}.part")?;
    let kept = keep_as(files, part.as_str(), name, old, bytes);
    if kept.is_err() {
        let _ = remove_file(files, part.as_str());
    }
    kept
}

/// Writes a file under the name `part`, with the mode of the old file, and renames it to `name` once it is complete.
fn keep_as<F: Files>(
    files: &F,
    part: &str,
    name: &str,
    old: Option<&Metadata>,
    bytes: &[u8],
) -> io::Result<()> {
    let mut file = File::create(files, part)?;
    if let Some(old) = old {
        if file.metadata()?.permissions() != old.permissions() {
            file.set_permissions(old.permissions())?;
        }
    }
    write_to(&mut file, bytes)?;
    rename(files, part, name)
}

fn write<F: Files>(files: &F, name: &str, bytes: &[u8]) -> io::Result<()> {
    let mut file = File::create(files, name)?;
    write_to(&mut file, bytes)
}

/// Writes the bytes to a file that was opened, and nothing else.
fn write_to<W: Write>(file: &mut W, bytes: &[u8]) -> io::Result<()>
    ensures { OnOk result (Appends (W.contents file.old) (W.contents file.new) bytes.now) }
{
    file.write_all(bytes)?;
    file.flush()
}
