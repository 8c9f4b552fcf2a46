//! The commands of a section.

ghost use Rattle.std.specs.Prelude.{◌≡◌, ◌+◌, ◌<◌, length, unwrap_or, OnOk};
ghost use Rattle.std.specs.List.{range_with_len};
ghost use Rattle.coll_parser.specs.Lines.{made, post, init, start, startable, free, one, some, room};
ghost use Rattle.coll_parser.specs.Code.{history_of, posting_view, read_by, IsReader, IsStamped, SameButStamps, Asks, Reads, ReadsSo};

use crate::cause::Cause;
use crate::command::Command;
use crate::communicators::{communicator, group_of, values_due};
use crate::fault::LineFault;
use crate::given::GivenBytes;
use crate::named::Named;
use crate::posted::OwnSignature;
use crate::reader::Reader;
use crate::requests::{one, requests, startable};
use crate::section::SectionEntry;
use crate::signatures::signature;
use crate::values::values;
use crate::verb::Verb;
use crate::words::Words;
use coll_kinds::{MAX_REQUESTS, Mode};
use std::alloc::Global;

/// The command that begins with `verb` and goes on with `words`, in the section of `rank`, in the line of that number. Linear in the line.
pub(crate) fn command(
    alloc: Global,
    reader: &mut Reader,
    number: u32,
    verb: Verb,
    rank: u8,
    words: &mut Words,
) -> Result<Command, LineFault>
    requires reader { IsReader number reader.old }
    requires stamped { IsStamped number reader.old }
    requires rank { rank < unwrap_or reader.old.ranks 0 }
    ensures read { ReadsSo (λ c. c) result words.new (read_by verb (history_of reader.old) rank words.old) }
    ensures same { OnOk result (SameButStamps reader.old reader.new) }
    ensures stamped { OnOk result (IsStamped (number + 1) reader.new) }
{
    match verb {
        Verb::Post => post(alloc, reader, number, rank, words),
        Verb::Init => init(alloc, reader, number, rank, words),
        Verb::Start => start(alloc, reader, number, rank, words),
        Verb::Free => free(reader, number, rank, words),
        Verb::Wait => Ok(Command::Wait(one_of(reader, number, rank, words)?)),
        Verb::Test => Ok(Command::Test(one_of(reader, number, rank, words)?)),
        Verb::WaitAny => Ok(Command::WaitAny(some(alloc, reader, number, rank, words)?)),
        Verb::WaitSome => Ok(Command::WaitSome(some(alloc, reader, number, rank, words)?)),
        Verb::WaitAll if words.is_empty() => Ok(Command::WaitAll(all(reader, number, rank))),
        Verb::WaitAll => Ok(Command::WaitAll(some(alloc, reader, number, rank, words)?)),
    }
}

/// A nonblocking collective.
#[tactic(auto, unfolding(crate::specs::Lines::post))]
fn post(
    alloc: Global,
    reader: &Reader,
    number: u32,
    rank: u8,
    words: &mut Words,
) -> Result<Command, LineFault>
    requires { IsReader number reader.now }
    ensures { ReadsSo (λ c. c) result words.new (post (history_of reader.now) rank words.old) }
{
    let comm = communicator(&reader.groups, rank, words)?;
    let n = group_of(&reader.groups, comm).len() as u8;
    let sig = signature(Mode::Once, n, words)?;
    let count = values_due(&reader.groups, rank, comm, &sig);
    let given = values(alloc, count, sig.ty, words)?;
    room(reader, number)?;
    Ok(Command::Post {
        comm,
        sig: OwnSignature::new(alloc, sig)?,
        given: GivenBytes::from_vec(given),
    })
}

/// A persistent collective.
#[tactic(auto, unfolding(crate::specs::Lines::init))]
fn init(
    alloc: Global,
    reader: &Reader,
    number: u32,
    rank: u8,
    words: &mut Words,
) -> Result<Command, LineFault>
    requires { IsReader number reader.now }
    ensures { ReadsSo (λ c. c) result words.new (init (history_of reader.now) rank words.old) }
{
    let comm = communicator(&reader.groups, rank, words)?;
    let n = group_of(&reader.groups, comm).len() as u8;
    let sig = signature(Mode::Persistent, n, words)?;
    words.end()?;
    room(reader, number)?;
    Ok(Command::Init {
        comm,
        sig: OwnSignature::new(alloc, sig)?,
    })
}

/// Checks that there is room for one more request.
fn room(reader: &Reader, number: u32) -> Result<(), Cause>
    requires { IsReader number reader.now }
    ensures { Asks result (room (history_of reader.now)) }
{
    if reader.total < MAX_REQUESTS as u32 {
        Ok(())
    } else {
        Err(Cause::TooManyRequests)
    }
}

/// The start of a request.
#[tactic(auto, unfolding(crate::specs::Lines::start))]
fn start(
    alloc: Global,
    reader: &Reader,
    number: u32,
    rank: u8,
    words: &mut Words,
) -> Result<Command, LineFault>
    requires reader { IsReader number reader.now }
    requires rank { rank < unwrap_or reader.now.ranks 0 }
    ensures { ReadsSo (λ c. c) result words.new (start (history_of reader.now) rank words.old) }
{
    let (req, entry) = startable_of(reader, number, rank, words)?;
    let count = values_due(&reader.groups, rank, entry.comm, &entry.sig);
    let given = values(alloc, count, entry.sig.ty, words)?;
    Ok(Command::Start {
        req,
        given: GivenBytes::from_vec(given),
    })
}

/// The end of a request.
#[tactic(auto, unfolding(crate::specs::Lines::free))]
fn free(reader: &Reader, number: u32, rank: u8, words: &mut Words) -> Result<Command, LineFault>
    requires reader { IsReader number reader.now }
    requires rank { rank < unwrap_or reader.now.ranks 0 }
    ensures { ReadsSo (λ c. c) result words.new (free (history_of reader.now) rank words.old) }
{
    let (req, _) = startable_of(reader, number, rank, words)?;
    words.end()?;
    Ok(Command::Free(req))
}

/// The one request that the words name.
fn one_of(reader: &Reader, number: u32, rank: u8, words: &mut Words) -> Result<u32, Cause>
    requires reader { IsReader number reader.now }
    requires rank { rank < unwrap_or reader.now.ranks 0 }
    ensures { Reads (λ q. q) result words.new (one (history_of reader.now) rank words.old) }
{
    one(reader.sections[rank as usize].entries.len(), words)
}

/// All requests of the section so far.
fn all(reader: &Reader, number: u32, rank: u8) -> Named
    requires reader { IsReader number reader.now }
    requires rank { rank < unwrap_or reader.now.ranks 0 }
    ensures { result ≡ range_with_len 0 (length (made (history_of reader.now) rank)) }
{
    Named::first(reader.sections[rank as usize].entries.len() as u32)
}

/// The requests that the words name, at least one and none twice. Linear in the line, and in the requests that the rank has
/// made since it last named several.
fn some(
    alloc: Global,
    reader: &mut Reader,
    number: u32,
    rank: u8,
    words: &mut Words,
) -> Result<Named, LineFault>
    requires reader { IsReader number reader.old }
    requires stamped { IsStamped number reader.old }
    requires rank { rank < unwrap_or reader.old.ranks 0 }
    ensures read { ReadsSo (λ named. named) result words.new (some (history_of reader.old) rank words.old) }
    ensures same { OnOk result (SameButStamps reader.old reader.new) }
    ensures stamped { OnOk result (IsStamped (number + 1) reader.new) }
{
    let count = reader.sections[rank as usize].entries.len();
    let stamps = &mut reader.stamps[rank as usize];
    stamps.resize(count, 0)?;
    requests(alloc, stamps, number, words)
}

/// The request of the next word, which a start or a free may name, and its number.
fn startable_of<'r>(
    reader: &'r Reader,
    number: u32,
    rank: u8,
    words: &mut Words,
) -> Result<(u32, &'r SectionEntry), Cause>
    requires reader { IsReader number reader.now }
    requires rank { rank < unwrap_or reader.now.ranks 0 }
    ensures { Reads (λ p. (p.0, posting_view p.1.now)) result words.new (startable (history_of reader.now) rank words.old) }
{
    startable(&reader.sections[rank as usize], words)
}
