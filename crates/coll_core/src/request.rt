ghost use Rattle.std.specs.Prelude.{◌≡◌, ◌≢◌, ◌≤◌, ◌<◌, ◌+◌, ◌^◌, suc, length, take, drop, None, Some, IsTrue, ◌↔◌, IsSome, IfSome, IfOk, IsOkUnless};
ghost use Rattle.std.specs.Prelude.{IfErr, [], is_some};
ghost use Rattle.std.specs.Option.{ForSome};
ghost use Rattle.coll_arena.specs.ListNames.{number_of};
ghost use Rattle.coll_match.specs.Instances.{given, mail};
ghost use Rattle.coll_sched.specs.Actions.{Fits, IsCombine};
ghost use Rattle.coll_sched.specs.Points.{IsPoint, actions_of};
ghost use Rattle.coll_sched.specs.Regions.{Inside, read_of};
ghost use Rattle.coll_refinement.specs.Requests.{advanced, key};
ghost use Rattle.coll_refinement.specs.Sound.{Stands};
ghost use Rattle.coll_core.specs.Buffers.{HasRoom};
ghost use Rattle.coll_core.specs.Requests.{PassesEnds, CanReceive, IsListOf, ReadsRows, next_of, schedule, shown};
ghost use Rattle.coll_core.specs.Advancing.{IsSent};
ghost use Rattle.coll_core.specs.Works.{Combined, IsOwnResult, IsShort, Piece, StandsAt, result_of};

use crate::buffer::Buffer;
use crate::sent::Sent;
use crate::shared_result::{LONG, SharedResult};
use crate::short_work::{DoneShortWork, ShortWork};
use crate::work::{DoneWork, Work};
use coll_arena::{ListName, Ticket};
use coll_bytes::{Blocks, Bytes};
use coll_kinds::{Datatype, Op, Refusal};
use coll_match::{Combination, Key, Matches, ResultCell};
use coll_plans::Plan;
use coll_sched::Action;
use std::alloc::Global;

/// What the engine keeps of a live request.
#[derive(Debug, Drop)]
pub(crate) struct Request {
    /// The world rank that owns the request.
    pub(crate) rank: u8,
    pub(crate) comm: u32,
    /// The request's index in its member's posting list on the communicator.
    pub(crate) place: u32,
    /// Where the instance's contributions lie: a hint for look-ups of `Matches`.
    pub(crate) hint: usize,
    pub(crate) plan: Plan,
    /// How often the request was started.
    pub(crate) starts: u32,
    /// The round of the next action, and the action's index in it.
    pub(crate) round: usize,
    pub(crate) index: usize,
    /// The schedule's buffer; empty while the request is inactive.
    pub(crate) buffer: Buffer,
}

impl Request {
    /// Returns the instance of the current start, else of the last start, else of the first.
    pub(crate) fn key(&self) -> Key
        ensures { result ≡ key (shown self.now) }
    {
        Key {
            comm: self.comm,
            place: self.place,
            start: self.starts.saturating_sub(1),
        }
    }

    /// Returns the next action; None after the last.
    pub(crate) fn next(&self) -> Option<Action>
        ensures is { result ≡ next_of (shown self.now) }
        ensures fits { IfSome result (λ action. Fits (schedule (shown self.now)).size action) }
        ensures short { IsSome result → self.now.index + 1 < 2 ^ 63 }
    {
        self.plan.schedule().action(self.round, self.index)
    }

    /// Returns the list for an active request, from its next action and from whether the message
    /// that it waits for is there.
    #[inline(always)]
    pub(crate) fn list(&self, matches: &Matches) -> ListName
        requires { IsPoint (schedule (shown self.now)) self.now.round self.now.index }
        ensures stands { Stands self.now.plan.n (mail matches.now (key (shown self.now))) (number_of result) (shown self.now) }
        ensures list { IsListOf self.now.comm result }
    {
        match self.next() {
            None => ListName::Done(self.comm),
            Some(Action::Recv { of, .. }) => {
                if matches.ready(self.key(), self.hint, of, self.plan.member(), self.round) {
                    ListName::Ready
                } else {
                    ListName::Queue(self.comm)
                }
            }
            Some(Action::Send { .. }) => ListName::Ready,
            Some(Action::Copy { .. }) => ListName::Ready,
            Some(Action::Combine { .. }) => ListName::Ready,
        }
    }

    /// Tells whether the request waits for a message that is there. The message just sent needs no
    /// look-up.
    pub(crate) fn can_receive(&self, matches: &Matches, sent: Sent) -> bool
        requires { IsSent matches.now sent }
        ensures { IsTrue result ↔ CanReceive (mail matches.now (key (shown self.now))) (shown self.now) }
    {
        let Some(Action::Recv { of, .. }) = self.next() else {
            return false;
        };
        let awaited = Sent {
            key: self.key(),
            from: of,
            to: self.plan.member(),
            round: self.round,
        };
        awaited == sent || matches.ready(awaited.key, self.hint, of, awaited.to, self.round)
    }

    /// Goes past the ends of rounds to the next action, or to the end.
    pub(crate) fn pass_ends(&mut self)
        requires round_in { self.old.round ≤ length (schedule (shown self.old)).rounds }
        requires index_in { self.old.index ≤ length (actions_of (schedule (shown self.old)) self.old.round) }
        ensures { PassesEnds (shown self.old) (shown self.new) self.old.index }
    {
        let point = self.plan.schedule().following(self.round, self.index);
        self.round = point.round;
        self.index = point.index;
    }

    /// Goes one action on.
    pub(crate) fn advance(&mut self)
        requires round_in { self.old.round ≤ length (schedule (shown self.old)).rounds }
        requires some { next_of (shown self.old) ≢ None }
        ensures { PassesEnds (shown self.old) (shown self.new) (suc self.old.index) }
    {
        let Some(_) = self.next() else { unreachable!() };
        self.index += 1;
        self.pass_ends();
    }

    /// Returns the next combination with its operands. The only refusal is NoMemory.
    #[inline(always)]
    pub(crate) fn work(
        &mut self,
        alloc: Global,
        ticket: Ticket,
        matches: &mut Matches,
        blocks: &Blocks,
    ) -> Result<Work, Refusal>
        requires combine { IfSome (next_of (shown self.old)) IsCombine }
        requires some { next_of (shown self.old) ≢ None }
        requires rows { ReadsRows (given matches.old (key (shown self.old))) (shown self.old) }
        requires sized { length self.old.buffer ≡ (schedule (shown self.old)).size }
        ensures same { self.new ≡ self.old }
        ensures matches { matches.new ≡ matches.old }
        ensures work { IfOk result (λ work. StandsAt (shown self.old) work) }
        ensures ticket { IfOk result (λ work. work.ticket ≡ ticket) }
        ensures refusal { IsOkUnless result Refusal.NoMemory }
    {
        let Some(
            Action::Combine {
                op,
                ty,
                left,
                right,
                ..
            },
        ) = self.next()
        else {
            unreachable!()
        };
        let first = self.buffer.part(alloc, left)?;
        let second = self.buffer.part(alloc, right)?;
        let blocks = if left.len >= LONG {
            blocks.share()
        } else {
            None
        };
        let mut work = Work::new(
            alloc, ticket, self.round, self.index, op, ty, first, second, blocks,
        )?;
        if left.len < LONG {
            return Ok(work);
        }
        self.share_result(matches, &mut work);
        self.buffer.await_result(alloc, &mut work, left, right);
        Ok(work)
    }

    /// Lets other members of an allreduce that combine the same rows share the result of `work`, if
    /// there is memory for a cell.
    fn share_result(&self, matches: &mut Matches, work: &mut Work)
        requires rows { ReadsRows (given matches.old (key (shown self.now))) (shown self.now) }
        requires stands { StandsAt (shown self.now) work.old }
        ensures work { work.new ≡ work.old }
        ensures matches { matches.new ≡ matches.old }
    {
        let Some(joined) = self.plan.combined_by(self.round) else {
            return;
        };
        let of = Combination {
            op: work.op(),
            ty: work.ty(),
            first: joined.first,
            count: joined.count,
        };
        let shared = matches.share_combined(self.key(), self.hint, of, &work.tag());
        if let Some((cell, is_first)) = shared {
            work.share(SharedResult { cell, is_first });
        }
    }

    /// Returns the next combination with operands of up to eight bytes. Takes no memory.
    #[inline(always)]
    pub(crate) fn short_work(&mut self, alloc: Global, ticket: Ticket, action: Action) -> ShortWork
        requires next { next_of (shown self.old) ≡ Some action }
        requires short { IsShort action }
        requires fits { Fits (schedule (shown self.old)).size action }
        requires sized { length self.old.buffer ≡ (schedule (shown self.old)).size }
        ensures same { self.new ≡ self.old }
        ensures work { StandsAt (shown self.old) result }
        ensures ticket { result.ticket ≡ ticket }
    {
        let Action::Combine {
            op,
            ty,
            left,
            right,
            ..
        } = action
        else {
            unreachable!()
        };
        let first = self.buffer.word(alloc, left);
        let second = self.buffer.word(alloc, right);
        ShortWork::new(ticket, self.round, self.index, op, ty, first, second)
    }

    /// Tells whether the next action is the combination of `work`, with the same operands.
    #[inline(always)]
    pub(crate) fn stands_at_short(&self, work: &ShortWork) -> bool
        requires { length self.now.buffer ≡ (schedule (shown self.now)).size }
        ensures { IsTrue result ↔ StandsAt (shown self.now) work.now }
    {
        let Some(
            Action::Combine {
                op,
                ty,
                left,
                right,
                ..
            },
        ) = self.next()
        else {
            return false;
        };
        if self.round != work.round() || self.index != work.index() {
            return false;
        }
        if !are_alike_short(op, ty, work) {
            return false;
        }
        self.buffer.has(left, work.left()) && self.buffer.has(right, work.right())
    }

    /// Tells whether the next action is the combination of `work`, with the same operands.
    #[inline(always)]
    pub(crate) fn stands_at(&self, work: &Work) -> bool
        requires { length self.now.buffer ≡ (schedule (shown self.now)).size }
        ensures { IsTrue result ↔ StandsAt (shown self.now) work.now }
    {
        let Some(
            Action::Combine {
                op,
                ty,
                left,
                right,
                ..
            },
        ) = self.next()
        else {
            return false;
        };
        if self.round != work.round() || self.index != work.index() {
            return false;
        }
        if !are_alike(op, ty, work) {
            return false;
        }
        self.buffer.has(left, work.left()) && self.buffer.has(right, work.right())
    }

    /// Returns the result of the next combination, if `done` belongs to it. If the work owns the
    /// other half of the request's own cell, that is the result in the cell. Else the operands of
    /// `done` are compared, and its result is taken.
    pub(crate) fn result_by(&self, done: DoneWork) -> Option<Bytes>
        requires { length self.now.buffer ≡ (schedule (shown self.now)).size }
        ensures own { IfSome result (IsOwnResult (shown self.now) done.piece) }
        ensures stands { StandsAt (shown self.now) done.piece → IsTrue (is_some result) }
    {
        let mut done = done;
        let cell = done.take_cell();
        if let Some(bytes) = self.own_result(done.work(), cell) {
            done.discard();
            return Some(bytes);
        }
        if self.stands_at(done.work()) {
            return Some(done.into_result());
        }
        done.discard();
        None
    }

    /// Returns the result in the cell of the next combination, if the work names that combination
    /// and owns the cell's other half. Work of another engine may name the same action.
    #[inline(always)]
    fn own_result(&self, work: &Work, cell: Option<ResultCell>) -> Option<Bytes>
        ensures { IfSome result (IsOwnResult (shown self.now) work.now) }
    {
        let awaited = self.buffer.awaited()?;
        let cell = cell?;
        let Some(
            Action::Combine {
                op,
                ty,
                left,
                right,
                ..
            },
        ) = self.next()
        else {
            return None;
        };
        if work.round() != self.round || work.index() != self.index {
            return None;
        }
        if !are_alike(op, ty, work) || !awaited.is_of(op, ty, left, right) {
            return None;
        }
        if !awaited.cell.was_shared_with(cell) {
            return None;
        }
        awaited.cell.result()
    }

    /// Writes the result of the next combination.
    pub(crate) fn write(&mut self, bytes: Bytes)
        requires own { (work : Piece) × IsOwnResult (shown self.old) work bytes }
        requires sized { length self.old.buffer ≡ (schedule (shown self.old)).size }
        ensures { Combined (shown self.old) (shown self.new) bytes }
    {
        let Some(Action::Combine { into, .. }) = self.next() else {
            unreachable!()
        };
        self.buffer.write(into, bytes);
    }

    /// Writes the result of the next combination.
    pub(crate) fn write_short(&mut self, done: DoneShortWork)
        requires stands { StandsAt (shown self.old) done.piece }
        requires sized { length self.old.buffer ≡ (schedule (shown self.old)).size }
        ensures wrote { Combined (shown self.old) (shown self.new) done.bytes }
        ensures combined { done.bytes ≡ result_of done.piece }
    {
        let Some(Action::Combine { into, .. }) = self.next() else {
            unreachable!()
        };
        self.buffer.write(into, done.into_result());
    }

    /// Takes the outcome out of the buffer, with memory for a copy of it, and goes back to the
    /// first round. The buffer is empty after that. If another owner of the same bytes is known, it
    /// is handed out.
    #[inline(always)]
    pub(crate) fn take_outcome(
        &mut self,
        alloc: Global,
        known: Option<Bytes>,
        blocks: &Blocks,
    ) -> (Bytes, Vec<u8>)
        requires inside { Inside (length self.old.buffer) (schedule (shown self.old)).output }
        requires known { ForSome known (λ bytes. bytes ≡ read_of self.old.buffer (schedule (shown self.old)).output) }
        ensures bytes { result.0 ≡ read_of self.old.buffer (schedule (shown self.old)).output }
        ensures room { HasRoom result.1 (length result.0) }
        ensures left { shown self.new ≡ advanced (shown self.old) (record { round = 0; index = 0; buf = [] }) }
    {
        let output = self.plan.schedule().output();
        self.round = 0;
        self.index = 0;
        self.buffer.take(alloc, output, known, blocks)
    }
}

/// Tells whether the work is of this operation and type.
fn are_alike_short(op: Op, ty: Datatype, work: &ShortWork) -> bool
    ensures { IsTrue result ↔ ((op ≡ work.now.op) × (ty ≡ work.now.ty)) }
{
    op == work.op() && ty == work.ty()
}

/// Tells whether the work is of this operation and type.
fn are_alike(op: Op, ty: Datatype, work: &Work) -> bool
    ensures { IsTrue result ↔ ((op ≡ work.now.op) × (ty ≡ work.now.ty)) }
{
    op == work.op() && ty == work.ty()
}
