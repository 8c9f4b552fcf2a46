ghost use Rattle.std.specs.Prelude.{◌≡◌, ◌↔◌, ◌+◌, ◌<◌, ◌^◌, [], ◌∷◌, ◌++◌, length, IfSome, IsNone, IsTrue, Some};
ghost use Rattle.coll_kinds.specs.declared.refusal.Refusal.{Refusal};
ghost use Rattle.coll_machine.specs.Calls.{Start};
ghost use Rattle.coll_report.specs.Views.{seen};
ghost use Rattle.coll_traced.specs.Denials.{IsDenied};
ghost use Rattle.coll_traced.specs.Calls.{IsStarted};

use crate::tally::{Entries, Tally};
use crate::trace::Appended;
use crate::traced_core::TracedCore;
use coll_bytes::Bytes;
use coll_core::Contribution;
use coll_kinds::Ticket;
use coll_report::Entry;
use std::alloc::Global;

/// A start that one thread leaves to another.
#[derive(Drop)]
pub struct StartOperation {
    ticket: Ticket,
    given: Contribution,
    /// A second owner of the contribution, for the entry that comes back.
    bytes: Bytes,
    ghost shared: { bytes ≡ given },
}

impl StartOperation {
    /// Makes the operation for a start with these bytes, which it shares. None if memory is short.
    pub(crate) fn of(
        alloc: Global,
        ticket: Ticket,
        own: &mut Contribution,
    ) -> Option<StartOperation>
        requires { length own.old < 2 ^ 32 }
        ensures { own.new ≡ own.old }
    {
        let bytes = own.share(alloc).ok()?;
        let given = Contribution::of_bytes(own.share(alloc).ok()?);
        Some(StartOperation {
            ticket,
            given,
            bytes,
        })
    }

    /// Makes the start. Returns its ticket and entry, or None if the engine refuses.
    pub(crate) fn make<L: Entries>(
        self,
        traced: &mut TracedCore<L>,
        mine: &mut Tally<L>,
        rank: u8,
    ) -> Option<(Ticket, Appended)>
        ensures entry { IfSome result (λ r. traced.new.entries ≡ traced.old.entries ++ r.1 ∷ []) }
        ensures started { IfSome result (λ r. IsStarted rank (Some self.ticket) self.given r.1) }
        ensures ticket { IfSome result (λ r. r.0 ≡ self.ticket) }
        ensures refused { IsNone result → (why : Refusal) × IsDenied L.setting mine.old (Start rank self.ticket self.given) why }
        ensures counted { IfSome result (λ r. mine.new ≡ mine.old + 1) }
        ensures none { IsNone result → (traced.new.entries ≡ traced.old.entries) × (mine.new ≡ mine.old) }
    {
        let StartOperation {
            ticket,
            given,
            bytes,
        } = self;
        traced.audit(mine);
        match traced.start(mine, rank, ticket, given) {
            Ok(_receipt) => {
                let start = traced.last_place();
                let entry = Entry::Started {
                    rank,
                    ticket,
                    start,
                    bytes,
                };
                Some((ticket, traced.last(entry)))
            }
            Err(_) => None,
        }
    }
}

/// Tells whether the entry is of a start of the request with exactly these bytes.
pub fn started_in(entry: &Entry, of: u8, request: Ticket, given: &[u8]) -> bool
    ensures { IsTrue result ↔ IsStarted of (Some request) given.now (seen entry.now) }
{
    match entry {
        Entry::Started {
            rank,
            ticket,
            bytes,
            ..
        } => *rank == of && *ticket == request && bytes.as_slice() == given,
        _ => false,
    }
}
