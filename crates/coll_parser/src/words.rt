//! The words of a line, taken from the left.

ghost use Rattle.std.specs.Prelude.{◌≡◌, ℕ, ◌≤◌, ◌<◌, ◌^◌, ◌==◌, [], map, ok_or, length, Ok, IfOk};
ghost use Rattle.std.specs.Option.{option_map};
ghost use Rattle.coll_kinds.specs.Texts.{number_of};
ghost use Rattle.coll_parser.specs.declared.cause.Cause.TheVariants.{BadNumber};
ghost use Rattle.coll_parser.specs.Reading.{word, end};
ghost use Rattle.coll_parser.specs.Lines.{number_within, next, request_in, rank_in, command_of};
ghost use Rattle.coll_parser.specs.Code.{texts, read_by, Reads};

use crate::cause::Cause;
use crate::verb::Verb;
use coll_kinds::read_number;
use std::marker::Model;

/// The words of a line that haven't been read yet. A clause sees the list of their bytes.
#[derive(Debug, Drop)]
pub(crate) struct Words<'w, 'a> {
    rest: &'w [&'a [u8]],
}

impl<'w, 'a> Model for Words<'w, 'a> {
    ghost use Rattle.std.specs.Prelude.{ℕ, List, map};

    ghost Value = { List (List ℕ) };

    ghost view = { λ w. map (λ word. word.now) w.rest.now };
}

impl<'w, 'a> Words<'w, 'a> {
    /// The words of a line.
    pub(crate) fn new(rest: &'w [&'a [u8]]) -> Words<'w, 'a>
        ensures { result ≡ texts rest.now }
    {
        Words { rest }
    }

    /// Takes the next word.
    pub(crate) fn next(&mut self) -> Result<&'a [u8], Cause>
        ensures { Reads (λ w. w.now) result self.new (word self.old) }
    {
        match self.rest {
            [] => Err(Cause::BadWords),
            [word, rest @ ..] => {
                self.rest = rest;
                Ok(*word)
            }
        }
    }

    /// Takes a number.
    pub(crate) fn number(&mut self) -> Result<u128, Cause>
        ensures { Reads (λ n. n) result self.new (next (λ w. ok_or (number_of w) BadNumber) self.old) }
    {
        let word = self.next()?;
        read_number(word).ok_or(Cause::BadNumber)
    }

    /// Checks that no word is left.
    pub(crate) fn end(&self) -> Result<(), Cause>
        ensures { Reads (λ _. tt) result self.now (end self.now) }
    {
        if self.rest.is_empty() {
            Ok(())
        } else {
            Err(Cause::BadWords)
        }
    }

    pub(crate) fn is_empty(&self) -> bool
        ensures { result ≡ (length self.now == 0) }
    {
        self.rest.is_empty()
    }

    /// Takes all words that are left.
    pub(crate) fn take_rest(&mut self) -> &'w [&'a [u8]]
        ensures rest { map (λ word. word.now) result.now ≡ self.old }
        ensures none { self.new ≡ [] }
    {
        let rest = self.rest;
        self.rest = &[];
        rest
    }

    /// Takes a number from `low` on and below `limit`. Any other word has the fault `cause`.
    pub(crate) fn number_within(&mut self, low: u32, limit: u64, cause: Cause) -> Result<u32, Cause>
        requires { limit ≤ 2 ^ 32 }
        ensures { Reads (λ n. n) result self.new (next (λ w. ok_or (number_within low limit w) cause) self.old) }
    {
        let word = self.next()?;
        number_within(low, limit, word).ok_or(cause)
    }

    /// Takes the number of one of `count` requests.
    pub(crate) fn request(&mut self, count: usize) -> Result<u32, Cause>
        requires { count ≤ 4096 }
        ensures reads { Reads (λ q. q) result self.new (next (request_in count) self.old) }
    {
        let word = self.next()?;
        request_in(count, word)
    }
}

/// The request that a word names, one of `count` requests.
pub(crate) fn request_in(count: usize, word: &[u8]) -> Result<u32, Cause>
    requires { count ≤ 4096 }
    ensures given { result ≡ request_in count word.now }
    ensures known { IfOk result (λ q. q < count) }
{
    let q = read_number(word).ok_or(Cause::BadNumber)?;
    if q < count as u128 {
        Ok(q as u32)
    } else {
        Err(Cause::UnknownRequest)
    }
}

/// The number that a word is, if it is from `low` on and below `limit`.
fn number_within(low: u32, limit: u64, word: &[u8]) -> Option<u32>
    requires { limit ≤ 2 ^ 32 }
    ensures { result ≡ number_within low limit word.now }
{
    let number = read_number(word)?;
    if u128::from(low) <= number && number < u128::from(limit) {
        Some(number as u32)
    } else {
        None
    }
}

/// The rank that a word names, in a job of `n` ranks.
pub(crate) fn rank_in(n: u8, word: &[u8]) -> Result<u8, Cause>
    requires { n ≤ 64 }
    ensures given { result ≡ rank_in n word.now }
    ensures below { IfOk result (λ rank. rank < n) }
{
    match number_within(0, u64::from(n), word) {
        Some(rank) => Ok(rank as u8),
        None => Err(Cause::BadRank),
    }
}

/// The command for which a first word stands.
pub(crate) fn verb_of(word: &[u8]) -> Option<Verb>
    ensures { option_map read_by result ≡ command_of word.now }
{
    if word == b"post".as_slice() {
        Some(Verb::Post)
    } else if word == b"init".as_slice() {
        Some(Verb::Init)
    } else if word == b"start".as_slice() {
        Some(Verb::Start)
    } else if word == b"wait".as_slice() {
        Some(Verb::Wait)
    } else if word == b"test".as_slice() {
        Some(Verb::Test)
    } else if word == b"free".as_slice() {
        Some(Verb::Free)
    } else if word == b"waitany".as_slice() {
        Some(Verb::WaitAny)
    } else if word == b"waitsome".as_slice() {
        Some(Verb::WaitSome)
    } else if word == b"waitall".as_slice() {
        Some(Verb::WaitAll)
    } else {
        None
    }
}
