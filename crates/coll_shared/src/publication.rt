//! The contents of a publication record.

ghost use Rattle.std.specs.Prelude.{◌≡◌, ◌↔◌, ◌+◌, IfErr, IfNone, IfOk, IfSome, IsTrue, slice_set};
ghost use Rattle.std.specs.Bool.{OnFalse, OnTrue};
ghost use Rattle.coll_report.specs.Views.{seen};
ghost use Rattle.coll_traced.specs.Waits.{ForOne};
ghost use Rattle.coll_shared.specs.Publications.{IsAnswered, IsAwake, IsExpected, IsPending, IsRegistered, IsServed, IsWait};

use coll_complete::{Request, Requests};
use coll_core::Phase;
use coll_kinds::{Signature, Ticket};
use coll_report::Entry;
use coll_traced::{
    Appended, Awaited, Completed, Entries, Operation, Receipt, Tally, TracedCore, posted_in,
    started_in,
};
use std::mem;

/// What was published, or the answer to it.
#[derive(Drop)]
pub(crate) enum Content<L: Entries> {
    /// A post or a start, which is to be made.
    Operation(Operation),
    /// The port waits for the request.
    Wait(Ticket),
    /// The post or start was made: its request, and its entry.
    Made(Ticket, Appended),
    /// The request was completed.
    Completed(Completed<L>),
    /// The port is to take the lock, and check itself.
    Look,
}

/// What lies in a record, with its port's tally.
#[derive(Drop)]
pub(crate) struct Publication<L: Entries> {
    pub(crate) tally: Tally<L>,
    pub(crate) content: Content<L>,
}

/// The post or start that a port published, by which the port recognises its answer.
#[derive(Clone, Copy)]
pub(crate) enum Expected<'a> {
    Post {
        comm: u32,
        sig: &'a Signature,
        bytes: &'a [u8],
    },
    Start {
        ticket: Ticket,
        bytes: &'a [u8],
    },
}

impl Expected<'_> {
    /// Tells whether the entry is of exactly this post or start by the rank, and of the request.
    fn is_made(&self, rank: u8, request: Ticket, entry: &Entry) -> bool
        ensures { IsTrue result → IsExpected rank self.now request (seen entry.now) }
    {
        match self {
            Expected::Post { comm, sig, bytes } => {
                posted_in(entry, rank, *comm, *sig, *bytes) == Some(request)
            }
            Expected::Start { ticket, bytes } => {
                request == *ticket && started_in(entry, rank, request, *bytes)
            }
        }
    }
}

/// Tells whether the tally counts one more entry than `before`.
fn is_one_more<L: Entries>(tally: &Tally<L>, before: u64) -> bool
    ensures { IsTrue result ↔ (tally.now ≡ before + 1) }
{
    let made = tally.made();
    made > 0 && made - 1 == before
}

/// Registers the rank's port, which waits for the request. Returns whether it has to wait.
#[inline(always)]
fn has_to_wait<L: Entries>(traced: &mut TracedCore<L>, rank: u8, ticket: Ticket) -> bool
    ensures entries { traced.new.entries ≡ traced.old.entries }
    ensures registered { IsTrue result → traced.new.waits ≡ slice_set traced.old.waits rank (ForOne rank ticket) }
    ensures pending { IsTrue result → IsPending traced.new.core rank ticket }
{
    let request = Request::of(ticket);
    match traced.register(rank, Awaited::One(&request)) {
        Ok(true) => matches!(Requests::phase(traced, rank, ticket), Ok(Phase::Pending)),
        _ => false,
    }
}

impl<L: Entries> Publication<L> {
    /// Makes the published operation. If the engine refuses it, the port is to check itself.
    #[inline(always)]
    fn make(&mut self, traced: &mut TracedCore<L>, rank: u8)
        ensures { IsServed L.setting rank self.old.content self.old.tally traced.old.entries self.new.content self.new.tally traced.new.entries }
    {
        match mem::replace(&mut self.content, Content::Look) {
            Content::Operation(operation) => {
                if let Some((ticket, appended)) = operation.make(traced, &mut self.tally, rank) {
                    self.content = Content::Made(ticket, appended);
                }
            }
            content => self.content = content,
        }
    }

    /// Carries out what was published, or registers the port's wait. Returns whether there is an
    /// answer now; then the port is awake.
    #[inline(always)]
    pub(crate) fn serve(&mut self, traced: &mut TracedCore<L>, rank: u8) -> bool
        ensures served { IsServed L.setting rank self.old.content self.old.tally traced.old.entries self.new.content self.new.tally traced.new.entries }
        ensures awake { OnTrue result (IsAwake rank traced.new.waits) }
        ensures registered { OnFalse result (IsRegistered rank self.old.content traced.old.waits traced.new.waits) }
        ensures pending { OnFalse result (IsWait traced.new.core rank self.old.content) }
    {
        match &self.content {
            Content::Operation(_) => self.make(traced, rank),
            Content::Wait(ticket) => {
                let ticket = *ticket;
                if has_to_wait(traced, rank, ticket) {
                    return false;
                }
            }
            _ => {}
        }
        self.answer(traced, rank);
        true
    }

    /// Answers a registered port, which is awake then. Completes the request that the port waits
    /// for, if it is Done; else the port is to check itself.
    #[inline(always)]
    pub(crate) fn answer(&mut self, traced: &mut TracedCore<L>, rank: u8)
        ensures answered { IsAnswered rank self.old.content self.old.tally traced.old.entries self.new.content self.new.tally traced.new.entries }
        ensures awake { IsAwake rank traced.new.waits }
    {
        if let Content::Wait(_) = &self.content {
            self.content = match traced.complete_for(&mut self.tally, rank) {
                Some(completed) => Content::Completed(completed),
                None => Content::Look,
            };
        }
        traced.wake(rank);
    }

    /// Takes the answer to a post or start that the port published after `before` entries: the
    /// tally, with the request and the entry if the operation was made, or None if the port has to
    /// check itself. Anything else is given back.
    pub(crate) fn made(
        self,
        rank: u8,
        expected: Expected<'_>,
        before: u64,
    ) -> Result<(Tally<L>, Option<(Ticket, Receipt)>), Publication<L>>
        ensures counted { IfOk result (λ r. IfSome r.1 (λ made. r.0 ≡ before + 1)) }
        ensures expected { IfOk result (λ r. IfSome r.1 (λ made. IsExpected rank expected.entry made.0 made.1)) }
        ensures look { IfOk result (λ r. IfNone r.1 (r.0 ≡ before)) }
    {
        let Publication { content, tally } = self;
        match content {
            Content::Made(ticket, appended) => {
                if is_one_more(&tally, before) && expected.is_made(rank, ticket, appended.entry()) {
                    return Ok((tally, Some((ticket, Receipt::of(&appended)))));
                }
                let content = Content::Made(ticket, appended);
                Err(Publication { content, tally })
            }
            Content::Look if tally.made() == before => Ok((tally, None)),
            content => Err(Publication { content, tally }),
        }
    }

    /// Takes the answer to a wait for one request: the completion, or None if the port has to check
    /// itself.
    pub(crate) fn completed(
        self,
        rank: u8,
        request: Ticket,
        before: u64,
    ) -> Result<(Tally<L>, Option<Completed<L>>), Publication<L>>
        ensures counted { IfOk result (λ r. IfSome r.1 (λ completed. r.0 ≡ before + 1)) }
        ensures completed { IfOk result (λ r. IfSome r.1 (λ completed. (completed.rank ≡ rank) × (completed.ticket ≡ request) × (completed.made ≡ before))) }
        ensures look { IfOk result (λ r. IfNone r.1 (r.0 ≡ before)) }
    {
        let Publication { content, tally } = self;
        match content {
            Content::Completed(completed) => {
                if is_one_more(&tally, before) && completed.is_for(rank, request, before) {
                    return Ok((tally, Some(completed)));
                }
                let content = Content::Completed(completed);
                Err(Publication { content, tally })
            }
            Content::Look if tally.made() == before => Ok((tally, None)),
            content => Err(Publication { content, tally }),
        }
    }

    /// Returns the tally of a port that gives its wait up, if nothing was made for it after
    /// `before` entries; else the publication.
    pub(crate) fn taken_back(self, before: u64) -> Result<Tally<L>, Publication<L>>
        ensures { IfOk result (λ tally. tally ≡ before) }
    {
        let Publication { content, tally } = self;
        if tally.made() != before {
            return Err(Publication { content, tally });
        }
        drop(content);
        Ok(tally)
    }
}
