//! Combinations of up to eight bytes, which are handed out by value.

ghost use Rattle.std.specs.Prelude.{◌≡◌};
ghost use Rattle.coll_core.specs.Works.{IsPiece, result_of};

use crate::word::{Word, combined_words};
use coll_bytes::Bytes;
use coll_kinds::{Datatype, Op, Ticket};
use std::marker::Model;

/// A combination of operands of up to eight bytes, handed out by value to be computed outside the
/// engine. It can't be dropped: `run` and then `Core::commit_short` take it, or `discard` if its
/// engine is gone.
#[derive(Debug)]
pub struct ShortWork {
    ticket: Ticket,
    round: usize,
    index: usize,
    op: Op,
    ty: Datatype,
    left: Word,
    right: Word,
}

impl Model for ShortWork {
    ghost use Rattle.coll_core.specs.Works.{Piece, IsPiece};

    ghost Value = { Piece };

    ghost view = { λ w. record { ticket = w.ticket; round = w.round; index = w.index; op = w.op; ty = w.ty; left = w.left; right = w.right } };

    ghost invariant = { λ w. IsPiece (record { ticket = w.ticket; round = w.round; index = w.index; op = w.op; ty = w.ty; left = w.left; right = w.right }) };
}

/// A `ShortWork` with its result. It can't be dropped: `Core::commit_short` takes it, or `discard`
/// if its engine is gone.
#[derive(Debug)]
pub struct DoneShortWork {
    work: ShortWork,
    result: Word,
}

impl Model for DoneShortWork {
    ghost use Rattle.std.specs.Prelude.{◌≡◌};
    ghost use Rattle.coll_core.specs.Works.{Made, result_of};

    ghost Value = { Made };

    ghost view = { λ d. record { piece = d.work; bytes = d.result } };

    ghost invariant = { λ d. d.result ≡ result_of d.work };
}

impl ShortWork {
    /// Makes a combination of a request's action, with its operands.
    pub(crate) fn new(
        ticket: Ticket,
        round: usize,
        index: usize,
        op: Op,
        ty: Datatype,
        left: Word,
        right: Word,
    ) -> ShortWork
        requires { IsPiece (record { ticket = ticket; round = round; index = index; op = op; ty = ty; left = left; right = right }) }
        ensures { result ≡ record { ticket = ticket; round = round; index = index; op = op; ty = ty; left = left; right = right } }
    {
        ShortWork {
            ticket,
            round,
            index,
            op,
            ty,
            left,
            right,
        }
    }

    /// Returns the request whose action it is.
    pub fn ticket(&self) -> Ticket
        ensures { result ≡ self.now.ticket }
    {
        self.ticket
    }

    /// Returns the action's round.
    pub fn round(&self) -> usize
        ensures { result ≡ self.now.round }
    {
        self.round
    }

    /// Returns the action's index in its round.
    pub fn index(&self) -> usize
        ensures { result ≡ self.now.index }
    {
        self.index
    }

    pub fn op(&self) -> Op
        ensures { result ≡ self.now.op }
    {
        self.op
    }

    pub fn ty(&self) -> Datatype
        ensures { result ≡ self.now.ty }
    {
        self.ty
    }

    /// Returns the first operand.
    pub fn left(&self) -> &[u8]
        ensures { result.now ≡ self.now.left }
    {
        self.left.as_slice()
    }

    /// Returns the second operand.
    pub fn right(&self) -> &[u8]
        ensures { result.now ≡ self.now.right }
    {
        self.right.as_slice()
    }

    /// Computes the combination. Takes no memory.
    #[inline(always)]
    pub fn run(self) -> DoneShortWork
        ensures { result.piece ≡ self }
    {
        let result = combined_words(self.op, self.ty, &self.left, &self.right);
        DoneShortWork { work: self, result }
    }

    /// Lets the combination go though no engine takes it back, as `Work::discard`.
    #[inline(always)]
    pub fn discard(self) {
        let ShortWork {
            ticket: _,
            round: _,
            index: _,
            op: _,
            ty: _,
            left: _,
            right: _,
        } = self;
    }
}

impl DoneShortWork {
    /// Returns the work whose result it is.
    pub fn work(&self) -> &ShortWork
        ensures { result.now ≡ self.now.piece }
    {
        &self.work
    }

    /// Returns the combination of the work's operands.
    pub fn result(&self) -> &[u8]
        ensures is { result.now ≡ self.now.bytes }
        ensures combined { self.now.bytes ≡ result_of self.now.piece }
    {
        self.result.as_slice()
    }

    /// Returns the result and drops the operands.
    #[inline(always)]
    pub(crate) fn into_result(self) -> Bytes
        ensures is { result ≡ self.bytes }
        ensures combined { self.bytes ≡ result_of self.piece }
    {
        let DoneShortWork { work, result } = self;
        work.discard();
        Bytes::few(result.as_slice())
    }

    /// Lets the combination go though no engine takes its result, as `Work::discard`.
    pub fn discard(self) {
        let DoneShortWork { work, result: _ } = self;
        work.discard();
    }
}
