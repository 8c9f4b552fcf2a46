ghost use Rattle.std.specs.Prelude.{◌≡◌, IfOk, IfErr, IfSome, IsOkUnless};
ghost use Rattle.coll_core.specs.Works.{IsPiece, result_of};

use crate::combined::combined;
use crate::shared_result::SharedResult;
use boxcar::tag::{Names, Tag};
use coll_bytes::{Bytes, Home};
use coll_kinds::{Datatype, Op, Refusal, Refused, Ticket};
use coll_match::ResultCell;
use std::alloc::Global;
use std::marker::Model;

/// A handed-out combination with its operands, to be computed outside the engine. It can't be
/// dropped: `run`, `Core::commit` and `Core::abandon` take it, or `discard` if its engine is gone.
#[derive(Debug)]
pub struct Work {
    ticket: Ticket,
    round: usize,
    index: usize,
    op: Op,
    ty: Datatype,
    /// In a block of their own, because each step returns by value what may be a combination.
    operands: Box<Operands>,
}

/// What a combination combines, and where its result goes.
#[derive(Debug, Drop)]
struct Operands {
    alloc: Global,
    left: Bytes,
    right: Bytes,
    /// Where members that combine the same rows look for the result.
    shared: Option<SharedResult>,
    /// The cell in which the engine finds the result.
    cell: Option<ResultCell>,
    /// Where the memory for a long result comes from.
    blocks: Option<Home>,
}

impl Model for Work {
    ghost use Rattle.std.specs.Prelude.{◌≡◌, IfSome};
    ghost use Rattle.coll_core.specs.Works.{Piece, IsPiece, result_of};

    ghost Value = { Piece };

    ghost view = { λ w. record {
      ticket = w.ticket;
      round = w.round;
      index = w.index;
      op = w.op;
      ty = w.ty;
      left = w.operands.value.left;
      right = w.operands.value.right;
    } };

    ghost invariant = { λ w. let piece : Piece =
        record {
          ticket = w.ticket;
          round = w.round;
          index = w.index;
          op = w.op;
          ty = w.ty;
          left = w.operands.value.left;
          right = w.operands.value.right;
        } in
        IsPiece piece × IfSome w.operands.value.cell (λ cell. cell ≡ result_of piece)
        × IfSome w.operands.value.shared (λ shared. shared.cell ≡ result_of piece) };
}

/// Says what the result of a work is, for the cell's rule.
struct ItsResult;

impl Names<Work> for ItsResult {
    ghost numbers = { result_of };
}

/// A combination with its result. It can't be dropped: `commit` takes it, and `discard` where its engine is gone.
#[derive(Debug)]
pub struct DoneWork {
    work: Work,
    result: Bytes,
}

impl Model for DoneWork {
    ghost use Rattle.std.specs.Prelude.{◌≡◌};
    ghost use Rattle.coll_core.specs.Works.{Made, result_of};

    ghost Value = { Made };

    ghost view = { λ d. record { piece = d.work; bytes = d.result } };

    ghost invariant = { λ d. d.result ≡ result_of d.work };
}

impl Work {
    /// Makes a combination of a request's action, with its operands.
    pub(crate) fn new(
        alloc: Global,
        ticket: Ticket,
        round: usize,
        index: usize,
        op: Op,
        ty: Datatype,
        left: Bytes,
        right: Bytes,
        blocks: Option<Home>,
    ) -> Result<Work, Refusal>
        requires { IsPiece (record { ticket = ticket; round = round; index = index; op = op; ty = ty; left = left; right = right }) }
        ensures ok { IfOk result (λ work. work ≡ record { ticket = ticket; round = round; index = index; op = op; ty = ty; left = left; right = right }) }
        ensures refusal { IsOkUnless result Refusal.NoMemory }
    {
        let operands = Operands {
            alloc,
            left,
            right,
            shared: None,
            cell: None,
            blocks,
        };
        match Box::new(alloc, operands) {
            Ok(operands) => Ok(Work {
                ticket,
                round,
                index,
                op,
                ty,
                operands,
            }),
            Err(_) => Err(Refusal::NoMemory),
        }
    }

    /// Returns the request whose action it is.
    pub fn ticket(&self) -> Ticket
        ensures { result ≡ self.now.ticket }
    {
        self.ticket
    }

    /// Returns the action's round.
    pub fn round(&self) -> usize
        ensures { result ≡ self.now.round }
    {
        self.round
    }

    /// Returns the action's index in its round.
    pub fn index(&self) -> usize
        ensures { result ≡ self.now.index }
    {
        self.index
    }

    pub fn op(&self) -> Op
        ensures { result ≡ self.now.op }
    {
        self.op
    }

    pub fn ty(&self) -> Datatype
        ensures { result ≡ self.now.ty }
    {
        self.ty
    }

    /// Returns the first operand.
    pub fn left(&self) -> &[u8]
        ensures { result.now ≡ self.now.left }
    {
        self.operands.left.as_slice()
    }

    /// Returns the second operand.
    pub fn right(&self) -> &[u8]
        ensures { result.now ≡ self.now.right }
    {
        self.operands.right.as_slice()
    }

    /// Returns the tag of the result's bytes. Does nothing at run time.
    pub(crate) fn tag(&self) -> Tag
        ensures { result.numbers ≡ result_of self.now }
    {
        Tag::of::<Work, ItsResult>(self)
    }

    /// Lets members that combine the same rows share the result.
    pub(crate) fn share(&mut self, shared: SharedResult)
        requires { shared.cell ≡ result_of self.old }
        ensures { self.new ≡ self.old }
    {
        self.operands.shared = Some(shared);
    }

    /// Makes a cell for the result, which the work and the engine own. None if memory is refused.
    pub(crate) fn make_cell(&mut self, alloc: Global) -> Option<ResultCell>
        ensures same { self.new ≡ self.old }
        ensures cell { IfSome result (λ cell. cell ≡ result_of self.old) }
    {
        let (own, other) = ResultCell::pair(alloc, &self.tag())?;
        self.operands.cell = Some(other);
        Some(own)
    }

    /// Takes the owner of the result's cell out, if there is one. The engine doesn't find a result
    /// there after that.
    fn take_cell(&mut self) -> Option<ResultCell>
        ensures { self.new ≡ self.old }
    {
        self.operands.cell.take()
    }

    /// Puts the result into the cell.
    #[inline(always)]
    fn put(&self, bytes: &Bytes)
        requires { bytes.now ≡ result_of self.now }
    {
        if let Some(cell) = &self.operands.cell {
            cell.fill(bytes);
        }
    }

    /// Computes the combination. The only refusal is NoMemory, which hands the work back; up to
    /// `FEW` bytes take no memory.
    #[inline(always)]
    pub fn run(self) -> Result<DoneWork, Refused<Work>>
        ensures made { IfOk result (λ done. done.piece ≡ self) }
        ensures refused { IfErr result (λ refused. refused ≡ record { why = Refusal.NoMemory; back = self }) }
    {
        match self.found_or_combined() {
            Ok(result) => {
                self.put(&result);
                Ok(DoneWork { work: self, result })
            }
            Err(_) => Err(Refused {
                why: Refusal::NoMemory,
                back: self,
            }),
        }
    }

    /// Drops the combination though no engine takes it back. It is for a combination whose engine
    /// is gone, because in a live engine its request would run for ever.
    pub fn discard(self) {
        let Work {
            ticket: _,
            round: _,
            index: _,
            op: _,
            ty: _,
            operands: _,
        } = self;
    }

    /// Takes the result of another member that combines the same rows, else computes it for others
    /// too. The only refusal is NoMemory.
    #[inline(always)]
    fn found_or_combined(&self) -> Result<Bytes, Refusal>
        ensures ok { IfOk result (λ bytes. bytes ≡ result_of self.now) }
    {
        let operands = &self.operands;
        let (left, right) = (&operands.left, &operands.right);
        let alloc = operands.alloc;
        let blocks = operands.blocks.as_ref();
        let Some(shared) = &operands.shared else {
            return combined(alloc, self.op, self.ty, left, right, blocks);
        };
        if let Some(bytes) = shared.find(left.len() as usize) {
            return Ok(bytes);
        }
        let bytes = combined(alloc, self.op, self.ty, left, right, blocks)?;
        shared.publish(&bytes);
        Ok(bytes)
    }
}

impl DoneWork {
    /// Returns the work whose result it is.
    pub fn work(&self) -> &Work
        ensures { result.now ≡ self.now.piece }
    {
        &self.work
    }

    /// Returns the combination of the work's operands.
    pub fn result(&self) -> &[u8]
        ensures is { result.now ≡ self.now.bytes }
        ensures combined { self.now.bytes ≡ result_of self.now.piece }
    {
        self.result.as_slice()
    }

    /// Returns the result and drops the operands.
    pub(crate) fn into_result(self) -> Bytes
        ensures is { result ≡ self.bytes }
        ensures combined { self.bytes ≡ result_of self.piece }
    {
        let DoneWork { work, result } = self;
        work.discard();
        result
    }

    /// Takes the owner of the result's cell out, if there is one.
    pub(crate) fn take_cell(&mut self) -> Option<ResultCell>
        ensures { self.new ≡ self.old }
    {
        self.work.take_cell()
    }

    /// Drops the combination though no engine takes its result, as `Work::discard` does.
    pub fn discard(self) {
        let DoneWork { work, result: _ } = self;
        work.discard();
    }
}
