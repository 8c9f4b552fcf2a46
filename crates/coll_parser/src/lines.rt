//! What a line says.

ghost use Rattle.std.specs.Prelude.{◌≡◌, ◌+◌, ◌<◌, ◌≤◌, [], length, Some, None, Ok, IfOk, OnOk, MatchResult};
ghost use Rattle.std.specs.List.{AllByRecursion, range_with_len};
ghost use Rattle.coll_parser.specs.Cutting.{words_of};
ghost use Rattle.coll_parser.specs.Lines.{ranks, comm, section, command, later, line_by, line};
ghost use Rattle.coll_parser.specs.Code.{texts, rows_view, history_of, begun, IsKept, IsReader, IsStamped, FailsSo, Reads, ReadsSo};

use crate::cause::Cause;
use crate::commands::command;
use crate::communicators::group;
use crate::cutting::cut;
use crate::fault::LineFault;
use crate::reader::Reader;
use crate::section::Section;
use crate::words::{Words, rank_in, verb_of};
use coll_kinds::MAX_COMMUNICATORS;
use std::alloc::{AllocError, Global};

/// The least number that is too great for a number of ranks.
const RANKS_LIMIT: u64 = 65;

impl Reader {
    /// Reads the line of that number. Linear in the line, and for the first one in the number of ranks. The line's words are
    /// left in `words`, whose memory the next line uses again.
    pub(crate) fn read_line<'a>(
        &mut self,
        alloc: Global,
        number: u32,
        bytes: &'a [u8],
        words: &mut Vec<&'a [u8]>,
    ) -> Result<(), LineFault>
        requires reader { IsReader number self.old }
        requires stamped { IsStamped number self.old }
        requires few { number < 1048578 }
        ensures read { MatchResult result
            (λ _. line number (history_of self.old) (words_of bytes.now) ≡ Ok (history_of self.new))
            (λ fault. FailsSo fault (line number (history_of self.old) (words_of bytes.now))) }
        ensures reader { OnOk result (IsReader (number + 1) self.new) }
        ensures stamped { OnOk result (IsStamped (number + 1) self.new) }
    {
        cut(bytes, words)?;
        self.read_words(alloc, number, words)
    }

    /// Reads the line of that number, which has these words.
    #[tactic(auto, unfolding(crate::specs::Lines::line))]
    fn read_words(&mut self, alloc: Global, number: u32, words: &[&[u8]]) -> Result<(), LineFault>
        requires reader { IsReader number self.old }
        requires stamped { IsStamped number self.old }
        requires few { number < 1048578 }
        ensures read { MatchResult result
            (λ _. line number (history_of self.old) (texts words.now) ≡ Ok (history_of self.new))
            (λ fault. FailsSo fault (line number (history_of self.old) (texts words.now))) }
        ensures reader { OnOk result (IsReader (number + 1) self.new) }
        ensures stamped { OnOk result (IsStamped (number + 1) self.new) }
    {
        match words {
            [] => Ok(()),
            [[b'#', ..], ..] => Ok(()),
            [first, rest @ ..] => self.line_by(alloc, number, first, &mut Words::new(rest)),
        }
    }

    /// Reads a line that has words, by the first one.
    fn line_by(
        &mut self,
        alloc: Global,
        number: u32,
        first: &[u8],
        words: &mut Words,
    ) -> Result<(), LineFault>
        requires reader { IsReader number self.old }
        requires stamped { IsStamped number self.old }
        requires few { number < 1048578 }
        ensures read { ReadsSo (λ _. history_of self.new) result words.new
            (line_by self.old.ranks number first.now (history_of self.old) words.old) }
        ensures reader { OnOk result (IsReader (number + 1) self.new) }
        ensures stamped { OnOk result (IsStamped (number + 1) self.new) }
    {
        let Some(n) = self.ranks else {
            return if first == b"ranks".as_slice() {
                self.ranks(alloc, number, words)
            } else {
                Err(LineFault::Broken(Cause::MissingRanks))
            };
        };
        self.later(alloc, number, n, first, words)
    }

    /// Reads the number of ranks.
    #[tactic(auto, unfolding(crate::specs::Lines::ranks))]
    fn ranks(&mut self, alloc: Global, number: u32, words: &mut Words) -> Result<(), LineFault>
        requires reader { IsReader number self.old }
        requires first { self.old.ranks ≡ None }
        ensures read { ReadsSo (λ _. history_of self.new) result words.new (ranks (history_of self.old) words.old) }
        ensures reader { OnOk result (IsReader (number + 1) self.new) }
        ensures stamped { OnOk result (IsStamped (number + 1) self.new) }
    {
        let n = words.number_within(1, RANKS_LIMIT, Cause::BadNumber)? as u8;
        words.end()?;
        self.begin(alloc, number, n)?;
        Ok(())
    }

    /// Begins a job of `n` ranks, with a communicator of all of them. Linear in `n`.
    fn begin(&mut self, alloc: Global, number: u32, n: u8) -> Result<(), AllocError>
        requires reader { IsReader number self.old }
        requires first { self.old.ranks ≡ None }
        requires some { 1 ≤ n }
        requires few { n ≤ 64 }
        ensures begun { OnOk result (history_of self.new ≡ begun n (history_of self.old)) }
        ensures reader { OnOk result (IsReader (number + 1) self.new) }
        ensures stamped { OnOk result (IsStamped (number + 1) self.new) }
    {
        self.sections = sections(alloc, n)?;
        self.stamps = stamps(alloc, n)?;
        self.groups = Vec::new(alloc);
        self.groups.push(all_ranks(alloc, n)?)?;
        self.ranks = Some(n);
        Ok(())
    }

    /// Reads a line after the first one that says anything, in a job of `n` ranks.
    fn later(
        &mut self,
        alloc: Global,
        number: u32,
        n: u8,
        first: &[u8],
        words: &mut Words,
    ) -> Result<(), LineFault>
        requires reader { IsReader number self.old }
        requires stamped { IsStamped number self.old }
        requires few { number < 1048578 }
        requires ranks { self.old.ranks ≡ Some n }
        ensures read { ReadsSo (λ _. history_of self.new) result words.new
            (later number n first.now (history_of self.old) words.old) }
        ensures reader { OnOk result (IsReader (number + 1) self.new) }
        ensures stamped { OnOk result (IsStamped (number + 1) self.new) }
    {
        if first == b"ranks".as_slice() {
            Err(LineFault::Broken(Cause::OutOfPlace))
        } else if first == b"comm".as_slice() {
            self.comm(alloc, number, n, words)
        } else if first == b"rank".as_slice() {
            self.section(number, n, words)?;
            Ok(())
        } else {
            self.command(alloc, number, first, words)
        }
    }

    /// Reads the members of one more communicator.
    #[tactic(auto, unfolding(crate::specs::Lines::comm))]
    fn comm(
        &mut self,
        alloc: Global,
        number: u32,
        n: u8,
        words: &mut Words,
    ) -> Result<(), LineFault>
        requires reader { IsReader number self.old }
        requires stamped { IsStamped number self.old }
        requires ranks { self.old.ranks ≡ Some n }
        ensures read { ReadsSo (λ _. history_of self.new) result words.new (comm n (history_of self.old) words.old) }
        ensures reader { OnOk result (IsReader (number + 1) self.new) }
        ensures stamped { OnOk result (IsStamped (number + 1) self.new) }
    {
        if self.opened.is_some() {
            return Err(LineFault::Broken(Cause::OutOfPlace));
        }
        if self.groups.len() >= MAX_COMMUNICATORS {
            return Err(LineFault::Broken(Cause::BadCommunicator));
        }
        let members = group(alloc, n, words)?;
        self.groups.push(members)?;
        Ok(())
    }

    /// Reads the rank whose section begins.
    #[tactic(auto, unfolding(crate::specs::Lines::section))]
    fn section(&mut self, number: u32, n: u8, words: &mut Words) -> Result<(), Cause>
        requires reader { IsReader number self.old }
        requires stamped { IsStamped number self.old }
        requires ranks { self.old.ranks ≡ Some n }
        ensures read { Reads (λ _. history_of self.new) result words.new (section n (history_of self.old) words.old) }
        ensures reader { OnOk result (IsReader (number + 1) self.new) }
        ensures stamped { OnOk result (IsStamped (number + 1) self.new) }
    {
        let rank = rank_in(n, words.next()?)?;
        words.end()?;
        self.opened = Some(rank);
        Ok(())
    }

    /// Reads a command of the section that is open.
    #[tactic(auto, unfolding(crate::specs::Lines::command))]
    fn command(
        &mut self,
        alloc: Global,
        number: u32,
        first: &[u8],
        words: &mut Words,
    ) -> Result<(), LineFault>
        requires reader { IsReader number self.old }
        requires stamped { IsStamped number self.old }
        ensures read { ReadsSo (λ _. history_of self.new) result words.new
            (command number first.now (history_of self.old) words.old) }
        ensures reader { OnOk result (IsReader (number + 1) self.new) }
        ensures stamped { OnOk result (IsStamped (number + 1) self.new) }
    {
        let verb = verb_of(first).ok_or(Cause::UnknownCommand)?;
        let rank = self.opened.ok_or(Cause::OutOfPlace)?;
        let issued = command(alloc, self, number, verb, rank, words)?;
        self.issue(number, rank, issued)?;
        Ok(())
    }
}

/// All ranks below `n`, in rising order.
fn all_ranks(alloc: Global, n: u8) -> Result<Vec<u8>, AllocError>
    ensures { IfOk result (λ ranks. ranks.items ≡ range_with_len 0 n) }
{
    (0..n).collect(alloc)
}

/// The sections of `n` ranks, without commands.
fn sections(alloc: Global, n: u8) -> Result<Vec<Section>, AllocError>
    ensures count { IfOk result (λ sections. length sections.items ≡ n) }
    ensures kept { IfOk result (λ sections. AllByRecursion (IsKept 1 []) sections.items) }
{
    let mut sections = Vec::new(alloc);
    for _ in 0..n {
        sections.push(Section {
            entries: Vec::new(alloc),
            waited: 0,
        })?;
    }
    Ok(sections)
}

/// The stamps of `n` ranks, without requests.
fn stamps(alloc: Global, n: u8) -> Result<Vec<Vec<u32>>, AllocError>
    ensures count { IfOk result (λ stamps. length stamps.items ≡ n) }
    ensures none { IfOk result (λ stamps. AllByRecursion (λ s. s ≡ []) (rows_view stamps.items)) }
{
    let mut stamps = Vec::new(alloc);
    for _ in 0..n {
        stamps.push(Vec::new(alloc))?;
    }
    Ok(stamps)
}
