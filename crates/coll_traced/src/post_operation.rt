ghost use Rattle.std.specs.Prelude.{◌≡◌, ◌+◌, ◌<◌, ◌^◌, [], ◌∷◌, ◌++◌, length, IfSome, IsNone, Some};
ghost use Rattle.std.specs.Arc.{arc_value};
ghost use Rattle.coll_kinds.specs.declared.ticket.Ticket.{Ticket as Named};
ghost use Rattle.coll_kinds.specs.declared.refusal.Refusal.{Refusal};
ghost use Rattle.coll_core.specs.Posts.{post_of};
ghost use Rattle.coll_report.specs.Views.{seen};
ghost use Rattle.coll_traced.specs.Denials.{IsDenied};
ghost use Rattle.coll_traced.specs.Calls.{IsPosted};

use crate::prepared::Prepared;
use crate::tally::{Entries, Tally};
use crate::trace::Appended;
use crate::traced_core::TracedCore;
use coll_bytes::Bytes;
use coll_core::{Contribution, Offer};
use coll_kinds::{Signature, Ticket};
use coll_plans::Plan;
use coll_report::Entry;
use std::alloc::Global;
use std::sync::Arc;

/// A post that one thread leaves to another.
#[derive(Drop)]
pub struct PostOperation {
    comm: u32,
    offer: Offer,
    /// A second owner of the contribution, for the entry that comes back.
    bytes: Bytes,
    /// The plan's signature, for the same entry.
    sig: Arc<Signature>,
    ghost shared: { bytes ≡ offer.bytes },
    ghost signed: { arc_value sig ≡ offer.plan.sig },
}

impl PostOperation {
    /// Makes the operation from an offer, whose bytes and signature it shares, and a second plan of
    /// the same collective. None if memory is short.
    pub(crate) fn of(alloc: Global, comm: u32, plan: Plan, own: &mut Offer) -> Option<PostOperation>
        requires few { length own.old.bytes < 2 ^ 32 }
        requires same { plan ≡ own.old.plan }
        ensures { own.new ≡ own.old }
    {
        let sig = own.plan.shared_sig().ok()?;
        let bytes = own.bytes.share(alloc).ok()?;
        let given = own.bytes.share(alloc).ok()?;
        let offer = Offer {
            plan,
            bytes: Contribution::of_bytes(given),
        };
        Some(PostOperation {
            comm,
            offer,
            bytes,
            sig,
        })
    }

    /// Makes the post. Returns its ticket and entry, or None if the engine refuses.
    pub(crate) fn make<L: Entries>(
        self,
        traced: &mut TracedCore<L>,
        mine: &mut Tally<L>,
        rank: u8,
    ) -> Option<(Ticket, Appended)>
        ensures entry { IfSome result (λ r. traced.new.entries ≡ traced.old.entries ++ r.1 ∷ []) }
        ensures posted { IfSome result (λ r. IsPosted rank (Some r.0) self.comm self.offer.plan.sig self.offer.bytes r.1) }
        ensures refused { IsNone result → (why : Refusal) × IsDenied L.setting mine.old (post_of rank self.comm self.offer) why }
        ensures counted { IfSome result (λ r. mine.new ≡ mine.old + 1) }
        ensures none { IsNone result → (traced.new.entries ≡ traced.old.entries) × (mine.new ≡ mine.old) }
    {
        let PostOperation {
            comm,
            mut offer,
            bytes,
            sig,
        } = self;
        traced.audit(mine);
        let prepared = Prepared::of(traced.alloc(), &mut offer);
        match traced.post(mine, rank, comm, offer, prepared) {
            Ok((ticket, _receipt)) => {
                let place = traced.last_place();
                let entry = Entry::Posted {
                    rank,
                    ticket,
                    comm,
                    place,
                    sig,
                    bytes,
                };
                Some((ticket, traced.last(entry)))
            }
            Err(_) => None,
        }
    }
}

/// Returns the ticket in an entry, if the entry is of a post with exactly these arguments.
pub fn posted_in(entry: &Entry, of: u8, on: u32, with: &Signature, given: &[u8]) -> Option<Ticket>
    ensures found { IfSome result (λ ticket. IsPosted of (Some ticket) on with.now given.now (seen entry.now)) }
    ensures none { IsNone result → (ticket : Named) → IsPosted of (Some ticket) on with.now given.now (seen entry.now) → ⊥ }
{
    match entry {
        Entry::Posted {
            rank,
            ticket,
            comm,
            sig,
            bytes,
            ..
        } => {
            if *rank == of && *comm == on && sig.is_same(with) && bytes.as_slice() == given {
                return Some(*ticket);
            }
            None
        }
        _ => None,
    }
}
