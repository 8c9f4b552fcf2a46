ghost use Rattle.std.specs.Prelude.{◌≡◌, ℕ, ◌+◌, ◌<◌, ◌≢◌, List, length, Some, None, slice_get, is_some, IsTrue, ◌↔◌, OnOk, IfOk, IfSome, IfErr, OnErr};
ghost use Rattle.std.specs.Option.{ForSome, option_copied, option_copied_mut};
ghost use Rattle.coll_kinds.specs.declared.refusal.Refused.{Refused};
ghost use Rattle.coll_match.specs.Held.{HasJoined, combined_rows, given_in, mail_in, seat_in};
ghost use Rattle.coll_match.specs.Instances.{IsJoined, IsLast, dissolved, given, is_of, joined, left, look_ups, mail, mailed, nothing, roomed, seated, seats};
ghost use Rattle.coll_match.specs.Instances.{size, standing};

use crate::combined_row::Combination;
use crate::envelope::Envelope;
use crate::instance::{Instance, SpareShares};
use crate::message::Message;
use crate::result_cell::ResultCell;
use boxcar::tag::Tag;
use coll_bytes::Bytes;
use coll_kinds::{Refusal, Refused};
use coll_machine::Key;
use indexmap::IndexMap;
use std::alloc::{AllocError, Global};
use std::marker::Model;

/// The instances that stand: what their members gave, the slots of the members' active requests, and the messages.
///
/// A member has left an instance where it has given to it and has no slot noted. Every call finds its instance in constant
/// time on average, however many stand; with the hint that `join` answered it mostly needs no look-up, and no hint changes
/// an answer. `room` and `leave` are linear in an instance's members besides; `put`, `ready` and `take` in the messages of the
/// sender that weren't taken yet; `share_combined` in the combinations that have a cell, and in the members of a new one.
#[derive(Debug, Drop)]
pub struct Matches {
    alloc: Global,
    instances: IndexMap<Key, Instance>,
    /// The shares of the instance that went last, for the next one: to take memory and give it back for each costs more than
    /// what is put there.
    spare: Option<SpareShares>,
}

impl Model for Matches {
    ghost use Rattle.std.specs.Prelude.{List};
    ghost use Rattle.coll_match.specs.Held.{Held};
    ghost use Rattle.coll_machine.specs.declared.key.Key.{Key};

    ghost Value = { List (Key × Held) };

    ghost view = { λ a. a.instances.entries };
}

/// The shares of an instance that goes.
fn shares_of(instance: Option<Instance>) -> Option<SpareShares> {
    match instance {
        Some(instance) => Some(instance.into_spare()),
        None => None,
    }
}

impl Matches {
    ghost use Rattle.std.specs.Borrow.{sem};
    ghost use Rattle.coll_match.specs.Lends.{LendsInstance};

    /// No instance. It takes no memory.
    pub fn new(alloc: Global) -> Matches
        ensures { look_ups result ≡ nothing }
    {
        Matches {
            alloc,
            instances: IndexMap::new(alloc),
            spare: None,
        }
    }

    /// Makes room for what the `n` members of an instance give, where it doesn't stand yet. Only NoMemory is refused.
    pub fn room(&mut self, key: Key, n: u8) -> Result<(), Refusal>
        ensures room { OnOk result (look_ups self.new ≡ roomed (look_ups self.old) key n) }
        ensures refused { IfErr result (λ why. why ≡ Refusal.NoMemory) }
        ensures err { OnErr result (self.new ≡ self.old) }
    {
        if !self.stands(key) {
            let instance = self.make(n)?;
            drop(self.instances.insert(key, instance)?);
        }
        Ok(())
    }

    /// An instance of that many members, to which none has given, in the shares that are kept where they are as many.
    fn make(&mut self, n: u8) -> Result<Instance, AllocError>
        ensures same { self.new ≡ self.old }
        ensures members { IfOk result (λ made. length made.shares ≡ n) }
        ensures given { IfOk result (λ made. given_in made ≡ (λ _. None)) }
        ensures seats { IfOk result (λ made. seat_in made ≡ (λ _. None)) }
        ensures mail { IfOk result (λ made. mail_in made ≡ (λ _ _ _. None)) }
    {
        if let Some(spare) = self.spare.take() {
            if spare.is_for(n) {
                return Ok(spare.into_instance(self.alloc));
            }
        }
        Instance::new(self.alloc, n)
    }

    /// Keeps the bytes that a member gives to an instance, for which room was made. It takes no memory. A member joins
    /// an instance once. The answer is a hint for the calls that follow.
    #[inline(always)]
    pub fn join(&mut self, key: Key, member: u8, bytes: Bytes) -> usize
        requires room { member < size self.old key }
        requires new { given self.old key member ≡ None }
        ensures { look_ups self.new ≡ joined (look_ups self.old) key member bytes }
    {
        let hint = self.place_of(key);
        match self.at_mut(key, hint) {
            Some(instance) => instance.join(member, bytes),
            None => unreachable!(),
        }
        hint
    }

    /// What a member gave to an instance, until the instance is dissolved; also after the member has left.
    pub fn given(&self, key: Key, member: u8) -> Option<&[u8]>
        ensures { option_copied result ≡ given self.now key member }
    {
        self.instances.get(&key)?.given(member)
    }

    /// A further owner of what a member gave to an instance, where the bytes' block counts its owners; none else. It takes no memory.
    pub fn share_given(&self, key: Key, hint: usize, member: u8) -> Option<Bytes>
        ensures { IfSome result (λ bytes. given self.now key member ≡ Some bytes) }
    {
        self.at(key, hint)?.share_given(member)
    }

    /// A further owner of what all members gave to an instance, joined in member order; none if no member that left had joined it. It
    /// takes no memory.
    pub fn share_joined(&self, key: Key, hint: usize) -> Option<Bytes>
        ensures { IfSome result (IsJoined self.now key) }
    {
        self.at(key, hint)?.share_joined()
    }

    /// Returns an owner of the cell for the bytes of that combination, whose tag is `tag`, and whether this call made the cell. The
    /// instance keeps the cell. None if there is no cell and one of the members hasn't given, or if memory is refused.
    pub fn share_combined(
        &mut self,
        key: Key,
        hint: usize,
        of: Combination,
        tag: &Tag,
    ) -> Option<(ResultCell, bool)>
        requires few { of.first + of.count < 256 }
        requires tag { (missing : ℕ → List ℕ) × (tag.now.numbers ≡ combined_rows (given self.old key) missing of) }
        ensures cell { IfSome result (λ found. found.0 ≡ tag.now.numbers) }
        ensures same { self.new ≡ self.old }
    {
        let alloc = self.alloc;
        self.at_mut(key, hint)?.share_combined(alloc, of, tag)
    }

    /// Notes the slot of the active request of a member that has joined. It takes no memory.
    pub fn seat(&mut self, key: Key, hint: usize, member: u8, slot: u32)
        requires { given self.old key member ≢ None }
        ensures { look_ups self.new ≡ seated (look_ups self.old) key member (Some slot) }
    {
        match self.at_mut(key, hint) {
            Some(instance) => instance.seat(member, slot),
            None => unreachable!(),
        }
    }

    /// The slot of a member's active request.
    pub fn seated(&self, key: Key, member: u8) -> Option<u32>
        ensures { result ≡ seats self.now key member }
    {
        self.instances.get(&key)?.seated(member)
    }

    /// A member whose slot is noted leaves: the note goes, what it gave stays. `joined` is a further owner of what all members gave, if
    /// the member had joined it; it is kept for those that leave later. Where every member has now given and left, the answer is true, and
    /// the instance goes with all that was given and every message. It takes no memory.
    pub fn leave(&mut self, key: Key, hint: usize, member: u8, joined: Option<Bytes>) -> bool
        requires seated { seats self.old key member ≢ None }
        requires joined { ForSome joined (λ bytes. ForSome (standing self.old key) (λ held. HasJoined held bytes)) }
        ensures last { IsTrue result ↔ IsLast self.old key member }
        ensures left { look_ups self.new ≡ left (look_ups self.old) key member result }
    {
        let is_last = self.unseat(key, hint, member, joined);
        if is_last {
            self.dissolve(key);
        }
        is_last
    }

    /// Takes a member's note away. Returns whether every member has now given and left.
    fn unseat(&mut self, key: Key, hint: usize, member: u8, joined: Option<Bytes>) -> bool
        requires seated { seats self.old key member ≢ None }
        requires joined { ForSome joined (λ bytes. ForSome (standing self.old key) (λ held. HasJoined held bytes)) }
        ensures last { IsTrue result ↔ IsLast self.old key member }
        ensures seat { look_ups self.new ≡ seated (look_ups self.old) key member None }
    {
        match self.at_mut(key, hint) {
            Some(instance) => instance.leave(member, joined),
            None => unreachable!(),
        }
    }

    /// Drops an instance with all that was given to it and every message.
    fn dissolve(&mut self, key: Key)
        ensures { look_ups self.new ≡ dissolved (look_ups self.old) key }
    {
        self.spare = shares_of(self.instances.swap_remove(&key));
    }

    /// Keeps a message of a member that has joined until it is taken, and answers the slot of the receiver's active
    /// request, so that a sender needs no second look-up. Only NoMemory is refused, and hands the message back.
    #[inline(always)]
    pub fn put(
        &mut self,
        key: Key,
        hint: usize,
        from: u8,
        to: u8,
        round: usize,
        message: Message,
    ) -> Result<Option<u32>, Refused<Message>>
        requires joined { given self.old key from ≢ None }
        requires new { mail self.old key from to round ≡ None }
        ensures receiver { IfOk result (λ slot. slot ≡ seats self.old key to) }
        ensures kept { OnOk result (look_ups self.new ≡ mailed (look_ups self.old) key from to round (Some message)) }
        ensures refused { IfErr result (λ refused. refused ≡ record { why = Refusal.NoMemory; back = message }) }
        ensures err { OnErr result (self.new ≡ self.old) }
    {
        match self.at_mut(key, hint) {
            Some(instance) => instance.put(from, Envelope { to, round }, message),
            None => unreachable!(),
        }
    }

    /// A message of that sender to that receiver stands for the round.
    pub fn ready(&self, key: Key, hint: usize, from: u8, to: u8, round: usize) -> bool
        ensures { result ≡ is_some (mail self.now key from to round) }
    {
        match self.at(key, hint) {
            Some(instance) => instance.is_ready(from, Envelope { to, round }),
            None => false,
        }
    }

    /// Takes a message out; none where none stands for that sender, receiver and round.
    #[inline(always)]
    pub fn take(&mut self, key: Key, hint: usize, from: u8, to: u8, round: usize) -> Option<Message>
        ensures taken { result ≡ mail self.old key from to round }
        ensures gone { look_ups self.new ≡ mailed (look_ups self.old) key from to round None }
    {
        self.at_mut(key, hint)?.take(from, Envelope { to, round })
    }

    /// The index of the last instance, to which members mostly give: it was made last, unless another one went since.
    fn last(&self) -> usize {
        self.instances.len().saturating_sub(1)
    }

    /// Where an instance lies, if it stands.
    fn place_of(&self, key: Key) -> usize {
        let last = self.last();
        if self.is_hinted(key, last) {
            return last;
        }
        self.instances.get_index_of(&key).unwrap_or(0)
    }

    /// The instance stands.
    fn stands(&self, key: Key) -> bool
        ensures { result ≡ is_some (standing self.now key) }
    {
        self.at(key, self.last()).is_some()
    }

    /// The instance lies where the hint says.
    fn is_hinted(&self, key: Key, hint: usize) -> bool
        ensures { result ≡ is_of key (slice_get self.now hint) }
    {
        match self.instances.get_index(hint) {
            Some((there, _)) => *there == key,
            None => false,
        }
    }

    /// What stands of an instance.
    fn at(&self, key: Key, hint: usize) -> Option<&Instance>
        ensures { option_copied result ≡ standing self.now key }
    {
        match self.instances.get_index(hint) {
            Some((there, instance)) if *there == key => Some(instance),
            _ => self.instances.get(&key),
        }
    }

    /// What stands of an instance, for writing.
    fn at_mut(&mut self, key: Key, hint: usize) -> Option<&mut Instance>
        ensures* writes_back { sem 𝓛 (LendsInstance self.entry key result) }
        ensures value { option_copied_mut result ≡ standing self.old key }
    {
        if self.is_hinted(key, hint) {
            self.instances.get_index_mut(hint)
        } else {
            self.instances.get_mut(&key)
        }
    }
}
