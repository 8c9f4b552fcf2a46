//! The words that name requests.

ghost use Rattle.std.specs.Prelude.{◌≡◌, ℕ, ◌<◌, ◌≤◌, [], length, slice_index};
ghost use Rattle.coll_parser.specs.Reading.{numbers, numbers_from};
ghost use Rattle.coll_parser.specs.Histories.{History, issued_by};
ghost use Rattle.coll_parser.specs.Lines.{request_in, made, startable, one};
ghost use Rattle.coll_parser.specs.declared.cause.Cause.TheVariants.{NamedTwice};
ghost use Rattle.coll_parser.specs.Code.{texts, posting_view, IsKept, Reads, ReadsSo, FindsSo};

use crate::cause::Cause;
use crate::fault::LineFault;
use crate::named::Named;
use crate::section::{Section, SectionEntry};
use crate::words::{Words, request_in};
use std::alloc::Global;

/// The one request that the words name, below `count`.
pub(crate) fn one(count: usize, words: &mut Words) -> Result<u32, Cause>
    requires { count ≤ 4096 }
    ensures { (h : History) (rank : ℕ) → length (made h rank) ≡ count → Reads (λ q. q) result words.new (one h rank words.old) }
{
    let q = words.request(count)?;
    words.end()?;
    Ok(q)
}

/// The requests that the words name, at least one and none twice. `stamps` has for each request of the section the last line
/// that named it among several, each before this one. Linear in the line; if the line names one request, it needs no memory.
pub(crate) fn requests(
    alloc: Global,
    stamps: &mut [u32],
    line: u32,
    words: &mut Words,
) -> Result<Named, LineFault>
    requires few { length stamps.old ≤ 4096 }
    requires earlier { (q : ℕ) → q < length stamps.old → slice_index stamps.old q < line }
    ensures read { ReadsSo (λ named. named) result words.new (numbers (request_in (length stamps.old)) NamedTwice words.old) }
    ensures stamps { (q : ℕ) → q < length stamps.old → slice_index stamps.new q ≤ line }
{
    match words.take_rest() {
        [] => Err(LineFault::Broken(Cause::BadWords)),
        [word] => Ok(Named::one(request_in(stamps.len(), word)?)),
        words => Ok(Named::these(several(alloc, stamps, line, words)?)),
    }
}

/// The requests that these words name, none of them twice.
fn several(
    alloc: Global,
    stamps: &mut [u32],
    line: u32,
    words: &[&[u8]],
) -> Result<Vec<u32>, LineFault>
    requires few { length stamps.old ≤ 4096 }
    requires earlier { (q : ℕ) → q < length stamps.old → slice_index stamps.old q < line }
    ensures read { FindsSo (λ named. named.items) result (numbers_from (request_in (length stamps.old)) NamedTwice [] (texts words.now)) }
    ensures stamps { (q : ℕ) → q < length stamps.old → slice_index stamps.new q ≤ line }
{
    let count = stamps.len();
    let mut named = Vec::with_capacity(alloc, words.len())?;
    for word in words {
        let q = request_in(count, word)?;
        if stamps[q as usize] == line {
            return Err(LineFault::Broken(Cause::NamedTwice));
        }
        stamps[q as usize] = line;
        named.push(q)?;
    }
    Ok(named)
}

/// The request that the next word names, which a start or a free may name, and its number.
#[tactic(auto, unfolding(crate::specs::Lines::startable))]
pub(crate) fn startable<'s>(
    section: &'s Section,
    words: &mut Words,
) -> Result<(u32, &'s SectionEntry), Cause>
    requires { length section.now.entries.items ≤ 4096 }
    ensures { (next : ℕ) (h : History) (rank : ℕ) → IsKept next (issued_by rank h.commands) section.now
        → Reads (λ p. (p.0, posting_view p.1.now)) result words.new (startable h rank words.old) }
{
    let q = words.request(section.entries.len())?;
    if !section.is_startable(q) {
        return Err(Cause::NotStartable);
    }
    Ok((q, &section.entries[q as usize]))
}
