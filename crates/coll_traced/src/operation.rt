ghost use Rattle.std.specs.Prelude.{◌≡◌, ◌+◌, [], ◌∷◌, ◌++◌, IfSome, IsNone};
ghost use Rattle.coll_report.specs.Views.{seen};
ghost use Rattle.coll_traced.specs.Operations.{IsMade, IsRefused};

use crate::post_operation::PostOperation;
use crate::start_operation::StartOperation;
use crate::tally::{Entries, Tally};
use crate::trace::Appended;
use crate::traced_core::TracedCore;
use coll_core::{Contribution, Offer};
use coll_kinds::Ticket;
use coll_plans::Plan;
use coll_report::Entry;
use std::alloc::Global;

/// The most bytes that an operation gives. A port with more waits for the engine itself, because it
/// compares the bytes of the answer with its own.
const SHORT: usize = 64;

/// A post or a start that one thread leaves to another. The thread that makes it allocates what the
/// post keeps.
#[derive(Drop)]
pub enum Operation {
    Post(PostOperation),
    Start(StartOperation),
}

impl Operation {
    /// Makes the operation for a post of `offer`. `plan` is a second plan of the same collective,
    /// whose owners are counted by the thread that makes the post. None if the offer gives many
    /// bytes or memory is short.
    pub fn post(alloc: Global, comm: u32, plan: Plan, offer: &mut Offer) -> Option<Operation>
        requires { plan ≡ offer.old.plan }
        ensures { offer.new ≡ offer.old }
    {
        if offer.bytes.len() > SHORT {
            return None;
        }
        let operation = PostOperation::of(alloc, comm, plan, offer)?;
        Some(Operation::Post(operation))
    }

    /// Makes the operation for a start with these bytes; None if there are many or memory is short.
    pub fn start(alloc: Global, ticket: Ticket, given: &mut Contribution) -> Option<Operation>
        ensures { given.new ≡ given.old }
    {
        if given.len() > SHORT {
            return None;
        }
        let operation = StartOperation::of(alloc, ticket, given)?;
        Some(Operation::Start(operation))
    }

    /// Makes the post or start for the rank. Returns the ticket and the appended entry, or None if
    /// the engine refuses.
    pub fn make<L: Entries>(
        self,
        traced: &mut TracedCore<L>,
        mine: &mut Tally<L>,
        rank: u8,
    ) -> Option<(Ticket, Appended)>
        ensures entry { IfSome result (λ r. traced.new.entries ≡ traced.old.entries ++ r.1 ∷ []) }
        ensures made { IfSome result (λ r. IsMade self rank r.0 r.1) }
        ensures refused { IsNone result → IsRefused L.setting mine.old self rank }
        ensures counted { IfSome result (λ r. mine.new ≡ mine.old + 1) }
        ensures none { IsNone result → (traced.new.entries ≡ traced.old.entries) × (mine.new ≡ mine.old) }
    {
        match self {
            Operation::Post(operation) => operation.make(traced, mine, rank),
            Operation::Start(operation) => operation.make(traced, mine, rank),
        }
    }
}
