ghost use Rattle.std.specs.Prelude.{◌≡◌, ◌≢◌, ℕ, ◌+◌, ◌<◌, ◌≤◌, ◌&&◌, List, [], Some, None, length, is_some, is_none, IsTrue, ◌↔◌, IfOk, IfSome, OnOk};
ghost use Rattle.std.specs.Prelude.{IfErr, OnErr, replicate};
ghost use Rattle.std.specs.List.{list_all};
ghost use Rattle.std.specs.Option.{ForSome, option_copied};
ghost use Rattle.coll_kinds.specs.declared.refusal.Refusal.TheVariants.{NoMemory};
ghost use Rattle.coll_kinds.specs.declared.refusal.Refused.{Refused};
ghost use Rattle.coll_kinds.specs.Puts.{put};
ghost use Rattle.coll_sched.specs.Worlds.{put_mail};
ghost use Rattle.coll_match.specs.Held.{HasJoined, IsOver, combined_rows, given_in, mail_in, seat_in};

use crate::combined_row::{Combination, CombinedRow, cell_of};
use crate::envelope::Envelope;
use crate::mailbox::Mailbox;
use crate::message::Message;
use crate::result_cell::ResultCell;
use boxcar::tag::Tag;
use coll_bytes::Bytes;
use coll_kinds::Refused;
use std::alloc::{AllocError, Global};
use std::marker::Model;

/// What an instance has of one member: the bytes that it gave, the slot of its active request, and the messages that it sent
/// and that weren't taken yet.
#[derive(Debug, Drop)]
struct Share {
    given: Option<Bytes>,
    slot: Option<u32>,
    mailbox: Mailbox,
}

/// The shares of an instance that is over, without anything. Their memory serves the next instance.
#[derive(Debug, Drop)]
pub(crate) struct SpareShares {
    shares: Vec<Share>,
    ghost empty: { shares.items ≡ replicate (length shares.items) (record { given = None; slot = None; mailbox = [] }) },
}

/// What stands of one collective: a share for each member.
#[derive(Debug, Drop)]
pub(crate) struct Instance {
    shares: Vec<Share>,
    /// What all members gave, joined in member order, if a member that left had put it together for its outcome.
    joined: Option<Bytes>,
    /// Combinations of what neighbouring members gave, with cells for their results. Without any it takes no memory.
    combined: Vec<CombinedRow>,
}

impl Model for Instance {
    ghost use Rattle.coll_match.specs.Held.{Held};

    ghost Value = { Held };

    ghost use Rattle.std.specs.Option.{ForSome};
    ghost use Rattle.coll_match.specs.Held.{AreCombined, HasJoined};
    ghost use Rattle.coll_match.specs.Views.{held_of};

    ghost view = { λ a. held_of a.shares.items };

    ghost invariant = { λ a. ForSome a.joined (HasJoined (held_of a.shares.items)) × AreCombined (held_of a.shares.items) a.combined.items };
}

/// Every member has given and has no active request.
fn all_have_left(shares: &[Share]) -> bool
    ensures { result ≡ list_all (λ share. is_some share.given && is_none share.slot) shares.now }
{
    shares
        .iter()
        .all(|share| share.given.is_some() && share.slot.is_none())
}

/// That many shares without anything.
fn empty_shares(alloc: Global, members: u8) -> Result<Vec<Share>, AllocError>
    ensures { IfOk result (λ made. made.items ≡ replicate members (record { given = None; slot = None; mailbox = [] })) }
{
    let mut made = Vec::with_capacity(alloc, usize::from(members))?;
    for _member in 0..members {
        made.push(Share {
            given: None,
            slot: None,
            mailbox: Mailbox::new(alloc),
        })?;
    }
    Ok(made)
}

/// Takes everything out of the shares.
fn empty_all(shares: &mut [Share])
    ensures { shares.new ≡ replicate (length shares.old) (record { given = None; slot = None; mailbox = [] }) }
{
    for member in 0..shares.len() {
        shares[member].empty();
    }
}

impl Share {
    /// Takes everything out.
    fn empty(&mut self)
        ensures { self.new ≡ record { given = None; slot = None; mailbox = [] } }
    {
        self.given = None;
        self.slot = None;
        self.mailbox.empty();
    }
}

impl SpareShares {
    /// Whether there are that many shares.
    pub(crate) fn is_for(&self, members: u8) -> bool
        ensures { IsTrue result ↔ (length self.now.shares.items ≡ members) }
    {
        self.shares.len() == usize::from(members)
    }

    /// An instance of as many members as there are shares, to which none has given. It takes no memory.
    pub(crate) fn into_instance(self, alloc: Global) -> Instance
        ensures members { length result.shares ≡ length self.shares.items }
        ensures given { given_in result ≡ (λ _. None) }
        ensures seats { seat_in result ≡ (λ _. None) }
        ensures mail { mail_in result ≡ (λ _ _ _. None) }
    {
        Instance {
            shares: self.shares,
            joined: None,
            combined: Vec::new(alloc),
        }
    }
}

impl Instance {
    /// The shares, while all that they have goes. It takes no memory.
    pub(crate) fn into_spare(self) -> SpareShares {
        let Instance {
            shares,
            joined: _,
            combined: _,
        } = self;
        let mut shares = shares;
        empty_all(&mut shares);
        SpareShares { shares }
    }

    /// An instance of that many members, to which none has given.
    pub(crate) fn new(alloc: Global, members: u8) -> Result<Instance, AllocError>
        ensures members { IfOk result (λ made. length made.shares ≡ members) }
        ensures given { IfOk result (λ made. given_in made ≡ (λ _. None)) }
        ensures seats { IfOk result (λ made. seat_in made ≡ (λ _. None)) }
        ensures mail { IfOk result (λ made. mail_in made ≡ (λ _ _ _. None)) }
    {
        let shares = empty_shares(alloc, members)?;
        Ok(Instance {
            shares,
            joined: None,
            combined: Vec::new(alloc),
        })
    }

    /// Keeps what a member gives.
    pub(crate) fn join(&mut self, member: u8, bytes: Bytes)
        requires low { member < length self.old.shares }
        requires new { given_in self.old member ≡ None }
        ensures members { length self.new.shares ≡ length self.old.shares }
        ensures given { given_in self.new ≡ put (given_in self.old) member (Some bytes) }
        ensures seats { seat_in self.new ≡ seat_in self.old }
        ensures mail { mail_in self.new ≡ mail_in self.old }
    {
        self.shares[usize::from(member)].given = Some(bytes);
    }

    /// What a member gave.
    pub(crate) fn given(&self, member: u8) -> Option<&[u8]>
        ensures { option_copied result ≡ given_in self.now member }
    {
        let share = self.shares.get(usize::from(member))?;
        share.given.as_ref().map(Bytes::as_slice)
    }

    /// A further owner of what a member gave, where the bytes' block counts its owners; none else. It takes no memory.
    pub(crate) fn share_given(&self, member: u8) -> Option<Bytes>
        ensures { IfSome result (λ bytes. given_in self.now member ≡ Some bytes) }
    {
        let share = self.shares.get(usize::from(member))?;
        share.given.as_ref()?.share_counted()
    }

    /// A further owner of what all members gave, joined in member order; none if no member that left had joined it. It takes no memory.
    pub(crate) fn share_joined(&self) -> Option<Bytes>
        ensures { IfSome result (λ bytes. HasJoined self.now bytes) }
    {
        self.joined.as_ref()?.share_counted()
    }

    /// Returns whether each of `count` members from `first` on has given.
    fn have_given(&self, first: u8, count: u8) -> bool
        requires { first + count < 256 }
        ensures { IsTrue result → (m : ℕ) → first ≤ m → m < first + count → given_in self.now m ≢ None }
    {
        for member in first..first + count {
            if self.given(member).is_none() {
                return false;
            }
        }
        true
    }

    /// Returns an owner of the cell for the bytes of that combination, whose tag is `tag`, and whether this call made the cell. None if
    /// there is no cell and one of the members hasn't given, or if memory is refused.
    pub(crate) fn share_combined(
        &mut self,
        alloc: Global,
        of: Combination,
        tag: &Tag,
    ) -> Option<(ResultCell, bool)>
        requires few { of.first + of.count < 256 }
        requires tag { (missing : ℕ → List ℕ) × (tag.now.numbers ≡ combined_rows (given_in self.old) missing of) }
        ensures cell { IfSome result (λ found. found.0 ≡ tag.now.numbers) }
        ensures same { self.new ≡ self.old }
    {
        if let Some(cell) = cell_of(&self.combined, of) {
            return Some((cell, false));
        }
        if !self.have_given(of.first, of.count) {
            return None;
        }
        let (cell, other) = ResultCell::pair(alloc, tag)?;
        self.combined.push(CombinedRow { of, cell }).ok()?;
        Some((other, true))
    }

    /// Notes the slot of a member's active request.
    pub(crate) fn seat(&mut self, member: u8, slot: u32)
        requires { member < length self.old.shares }
        ensures members { length self.new.shares ≡ length self.old.shares }
        ensures given { given_in self.new ≡ given_in self.old }
        ensures seats { seat_in self.new ≡ put (seat_in self.old) member (Some slot) }
        ensures mail { mail_in self.new ≡ mail_in self.old }
    {
        self.shares[usize::from(member)].slot = Some(slot);
    }

    /// The slot of a member's active request.
    pub(crate) fn seated(&self, member: u8) -> Option<u32>
        ensures { result ≡ seat_in self.now member }
    {
        self.shares.get(usize::from(member))?.slot
    }

    /// Takes a member's note away, and keeps what all members gave, if the member had joined it. Returns whether every member has
    /// given and left.
    pub(crate) fn leave(&mut self, member: u8, joined: Option<Bytes>) -> bool
        requires low { member < length self.old.shares }
        requires joined { ForSome joined (HasJoined self.old) }
        ensures over { IsTrue result ↔ IsOver self.new }
        ensures members { length self.new.shares ≡ length self.old.shares }
        ensures given { given_in self.new ≡ given_in self.old }
        ensures seats { seat_in self.new ≡ put (seat_in self.old) member None }
        ensures mail { mail_in self.new ≡ mail_in self.old }
    {
        self.joined = joined;
        self.shares[usize::from(member)].slot = None;
        all_have_left(&self.shares)
    }

    /// Keeps a message of a member until it is taken, and answers the slot of the receiver's active request. Only NoMemory is
    /// refused, and hands the message back.
    #[inline(always)]
    pub(crate) fn put(
        &mut self,
        from: u8,
        envelope: Envelope,
        message: Message,
    ) -> Result<Option<u32>, Refused<Message>>
        requires member { from < length self.old.shares }
        requires new { mail_in self.old from envelope.to envelope.round ≡ None }
        ensures receiver { IfOk result (λ slot. slot ≡ seat_in self.old envelope.to) }
        ensures refused { IfErr result (λ refused. refused ≡ record { why = NoMemory; back = message }) }
        ensures err { OnErr result (self.new ≡ self.old) }
        ensures members { OnOk result (length self.new.shares ≡ length self.old.shares) }
        ensures given { OnOk result (given_in self.new ≡ given_in self.old) }
        ensures seats { OnOk result (seat_in self.new ≡ seat_in self.old) }
        ensures mail { OnOk result (mail_in self.new ≡ put_mail (mail_in self.old) from envelope.to envelope.round (Some message)) }
    {
        self.shares[usize::from(from)]
            .mailbox
            .put(envelope, message)?;
        Ok(self.seated(envelope.to))
    }

    /// A message of a member stands.
    pub(crate) fn is_ready(&self, from: u8, envelope: Envelope) -> bool
        ensures { result ≡ is_some (mail_in self.now from envelope.to envelope.round) }
    {
        match self.shares.get(usize::from(from)) {
            Some(share) => share.mailbox.is_ready(envelope),
            None => false,
        }
    }

    /// Takes a message of a member out.
    #[inline(always)]
    pub(crate) fn take(&mut self, from: u8, envelope: Envelope) -> Option<Message>
        ensures taken { result ≡ mail_in self.old from envelope.to envelope.round }
        ensures members { length self.new.shares ≡ length self.old.shares }
        ensures given { given_in self.new ≡ given_in self.old }
        ensures seats { seat_in self.new ≡ seat_in self.old }
        ensures mail { mail_in self.new ≡ put_mail (mail_in self.old) from envelope.to envelope.round None }
    {
        let sender = usize::from(from);
        if sender >= self.shares.len() {
            return None;
        }
        self.shares[sender].mailbox.take(envelope)
    }
}
