ghost use Rattle.std.specs.Prelude.{◌≡◌, ◌<◌, ◌≤◌, None, filter_map, sum_by, IfOk, IsOkUnless, IsErrOf, MatchOption};
ghost use Rattle.std.specs.List.{AllByRecursion};
ghost use Rattle.coll_kinds.specs.Checks.{broken};
ghost use Rattle.coll_draw.specs.Drawings.{arrow_of, combination_of, copy_of};

use crate::arrow::Arrow;
use crate::mark::Mark;
use crate::plans::MemberPlans;
use crate::step::DrawnAction;
use crate::totals::DrawingTotals;
use coll_kinds::{Refusal, Signature};
use std::alloc::{AllocError, Global};
use std::marker::Model;

/// The schedules of one collective of MPI (MPI 4.1, 6.12), for all members of a communicator, as they can be drawn. Only
/// [`Drawing::of`] makes one, so it shows the family of plans that an engine executes.
#[derive(Debug, Drop)]
pub struct Drawing {
    sig: Signature,
    n: u8,
    round_count: usize,
    exchange_count: usize,
    arrows: Vec<Arrow>,
    combinations: Vec<Mark>,
    copies: Vec<Mark>,
}

impl Model for Drawing {
    ghost use Rattle.coll_draw.specs.Drawings.{Drawn, IsDrawing};

    ghost Value = { Drawn };

    ghost view = { λ d. record {
      sig = d.sig;
      n = d.n;
      round_count = d.round_count;
      exchange_count = d.exchange_count;
      arrows =
          d.arrows.items;
      combinations = d.combinations.items;
      copies = d.copies.items;
    } };

    ghost invariant = { λ d. IsDrawing
        (record {
          sig = d.sig;
          n = d.n;
          round_count = d.round_count;
          exchange_count = d.exchange_count;
          arrows =
              d.arrows.items;
          combinations = d.combinations.items;
          copies = d.copies.items;
        }) };
}

impl Drawing {
    ghost use Rattle.coll_plans.specs.Plans.{family};
    ghost use Rattle.coll_draw.specs.Drawings.{arrows, combinations, copies, IsDrawing};
    ghost use Rattle.coll_draw.specs.Counts.{Counts};
    ghost use Rattle.coll_draw.specs.Laws.{IsMessage};

    /// Draws a collective among `n` members. Refuses [`Refusal::BadSignature`] exactly if [`Signature::check`] does, with its
    /// cause; the only other refusal is [`Refusal::NoMemory`]. The cost is linear in the actions of all members' schedules.
    pub fn of(alloc: Global, sig: Signature, n: u8) -> Result<Drawing, Refusal>
        requires not_none { 0 < n }
        requires few { n ≤ 64 }
        ensures sig { IfOk result (λ d. d.sig ≡ sig) }
        ensures n { IfOk result (λ d. d.n ≡ n) }
        ensures refusal { MatchOption (broken sig n)
            (IsOkUnless result Refusal.NoMemory)
            (λ cause. IsErrOf result (Refusal.BadSignature cause)) }
    {
        sig.check(n)?;
        let plans = MemberPlans::of(alloc, sig, n)?;
        let steps = plans.steps(alloc)?;
        Ok(Drawing {
            sig,
            n,
            round_count: plans.round_count(),
            exchange_count: plans.exchange_count(),
            arrows: arrows_of(alloc, &steps)?,
            combinations: combinations_of(alloc, &steps)?,
            copies: copies_of(alloc, &steps)?,
        })
    }

    /// The signature, which breaks no rule.
    pub fn sig(&self) -> &Signature
        ensures sig { result.now ≡ self.now.sig }
        ensures checked { broken self.now.sig self.now.n ≡ None }
    {
        &self.sig
    }

    /// How many members there are, 1 to 64.
    pub fn n(&self) -> u8
        ensures n { result ≡ self.now.n }
        ensures not_none { 0 < result }
        ensures few { result ≤ 64 }
    {
        self.n
    }

    /// All messages, in the order of their rounds, and within a round in the order of their senders. Each Send of the family is
    /// one arrow, and each arrow is a Send with its Recv.
    pub fn arrows(&self) -> &[Arrow]
        ensures arrows { result.now ≡ arrows self.now.n (family self.now.sig self.now.n) }
        ensures messages { AllByRecursion (IsMessage self.now.n (family self.now.sig self.now.n)) result.now }
    {
        self.arrows.as_slice()
    }

    /// All combinations, in the order of their rounds, and within a round in the order of their members.
    pub fn combinations(&self) -> &[Mark]
        ensures { result.now ≡ combinations self.now.n (family self.now.sig self.now.n) }
    {
        self.combinations.as_slice()
    }

    /// All copies within a member's buffer, in the same order as the combinations.
    pub fn copies(&self) -> &[Mark]
        ensures { result.now ≡ copies self.now.n (family self.now.sig self.now.n) }
    {
        self.copies.as_slice()
    }

    /// How many rounds, exchanges, messages, bytes and combinations there are. The cost is linear in the arrows.
    pub fn totals(&self) -> DrawingTotals
        ensures { Counts self.now.n (family self.now.sig self.now.n) result }
    {
        DrawingTotals {
            rounds: self.round_count,
            exchanges: self.exchange_count,
            messages: self.arrows.len(),
            bytes: bytes_of(&self.arrows),
            combinations: self.combinations.len(),
        }
    }
}

fn arrows_of(alloc: Global, steps: &[DrawnAction]) -> Result<Vec<Arrow>, AllocError>
    ensures { IfOk result (λ made. made.items ≡ filter_map arrow_of steps.now) }
{
    steps.iter().filter_map(|step| step.arrow()).collect(alloc)
}

fn combinations_of(alloc: Global, steps: &[DrawnAction]) -> Result<Vec<Mark>, AllocError>
    ensures { IfOk result (λ made. made.items ≡ filter_map combination_of steps.now) }
{
    steps
        .iter()
        .filter_map(|step| step.combination())
        .collect(alloc)
}

fn copies_of(alloc: Global, steps: &[DrawnAction]) -> Result<Vec<Mark>, AllocError>
    ensures { IfOk result (λ made. made.items ≡ filter_map copy_of steps.now) }
{
    steps.iter().filter_map(|step| step.copy()).collect(alloc)
}

/// The number of bytes of all these messages.
fn bytes_of(arrows: &[Arrow]) -> u128
    ensures { result ≡ sum_by (λ arrow. arrow.len) arrows.now }
{
    let mut bytes: u128 = 0;
    for arrow in arrows {
        bytes += u128::from(arrow.len);
    }
    bytes
}
