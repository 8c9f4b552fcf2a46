//! Reads the words of a signature on the command line like those of a job text.

ghost use Rattle.std.specs.Prelude.{IsOkUnless};

use coll_faults::{Detail, Faults, Marked};
use coll_kinds::{MAX_TEXT, Mode, Signature};
use coll_script::{Command, History, JobFault, ScriptFault, shown_as};
use std::alloc::{AllocError, Global};
use std::io;
use std::io::Write;

/// The beginning of a job text's line that asks for a collective, before the words.
const BEFORE: &str = "init 0 ";

/// The signature of the words for `members` members. None if they break a rule; `errors` then gets the words, the rule, and
/// what may be meant. The only fault is [`JobFault::Memory`].
pub(crate) fn signature_of<E: Write>(
    alloc: Global,
    words: &str,
    members: u8,
    errors: &mut E,
) -> Result<Option<Signature>, JobFault>
    ensures { IsOkUnless result JobFault.Memory }
{
    let Ok(words) = joined(alloc, words) else {
        return Err(JobFault::Memory);
    };
    let Ok(text) = job_of(alloc, words.as_str(), members) else {
        return Err(JobFault::Memory);
    };
    let text = text.as_str().as_bytes();
    if text.len() > MAX_TEXT {
        let _ = writeln!(errors, "error: a signature of more than {MAX_TEXT} bytes");
        return Ok(None);
    }
    match History::read(alloc, text) {
        Ok(history) => Ok(asked(&history)),
        Err(ScriptFault::NoMemory) => Err(JobFault::Memory),
        Err(ScriptFault::Text(_)) => match Faults::of(alloc, text) {
            Ok(faults) => {
                if let Some(faults) = faults {
                    let _ = tell(words.as_str(), &faults, errors);
                }
                Ok(None)
            }
            Err(_) => Err(JobFault::Memory),
        },
    }
}

/// The words, with one space between each two.
fn joined(alloc: Global, words: &str) -> Result<String, AllocError> {
    let mut joined = String::new(alloc);
    for word in words.split_ascii_whitespace() {
        if !joined.is_empty() {
            joined.push(' ')?;
        }
        joined.push_str(word)?;
    }
    Ok(joined)
}

/// A job text whose last line asks for the collective.
fn job_of(alloc: Global, words: &str, members: u8) -> Result<String, AllocError> {
    format!(in alloc; "ranks {members}\nrank 0\n{BEFORE}{words}\n")
}

/// The signature for which the last command asks.
fn asked(history: &History) -> Option<Signature> {
    match &history.commands().last()?.command {
        Command::Init { sig, .. } => Some(Signature {
            mode: Mode::Once,
            ..*sig.sig()
        }),
        _ => None,
    }
}

/// Writes the first fault.
fn tell<E: Write>(words: &str, faults: &Faults, errors: &mut E) -> io::Result<()> {
    writeln!(errors, "error: {}", faults.first.fault.cause)?;
    match &faults.first.detail {
        Detail::Words(marked) => tell_words(words, marked, errors),
        Detail::Place { .. } | Detail::Bare => writeln!(errors, "  | {words}"),
    }
}

/// Shows the words, with those marked that are meant, and writes what is known of them.
fn tell_words<E: Write>(words: &str, marked: &Marked, errors: &mut E) -> io::Result<()> {
    write!(errors, "  | ")?;
    for byte in words.as_bytes() {
        write!(errors, "{}", shown_as(*byte))?;
    }
    write!(errors, "\n  | ")?;
    for _ in BEFORE.len()..marked.start {
        write!(errors, " ")?;
    }
    for _ in 0..marked.len.max(1) {
        write!(errors, "^")?;
    }
    writeln!(errors, " {}", marked.label.as_str())?;
    for note in &marked.notes {
        writeln!(errors, "  = note: {}", note.as_str())?;
    }
    if let Some(suggestion) = &marked.suggestion {
        writeln!(errors, "  = help: {}", suggestion.help())?;
    }
    Ok(())
}
