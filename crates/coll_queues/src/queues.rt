ghost use Rattle.std.specs.Prelude.{◌≡◌, ℕ, ◌<◌, ◌≤◌, ◌++◌, ◌∷◌, [], None, Some, All, length, map, option_map, IfOk, IfErr, OnOk, OnErr};
ghost use Rattle.std.specs.Arc.{arc_value};
ghost use Rattle.std.specs.Result.{result_err};
ghost use Rattle.coll_kinds.specs.Checks.{broken};
ghost use Rattle.coll_machine.specs.Changes.{put2};
ghost use Rattle.coll_queues.specs.Postings.{HasRoom, groups_of, member_of, number_of, place_of, posts, signed, size};
ghost use Rattle.coll_queues.specs.Refusing.{judge_refusal, member_refusal};
ghost use Rattle.coll_queues.specs.Sound.{IsSound};

use crate::posting_lists::PostingLists;
use coll_kinds::{Refusal, Signature};
use std::alloc::Global;
use std::marker::Model;
use std::sync::Arc;

/// The posting lists of all communicators.
///
/// A member's list has the signatures of the collectives that it has called on the communicator, in order; a place is
/// an index in it, from 0. The lists of one communicator agree at each place that both have, so a place names one
/// collective of all members (MPI 4.1, 6.12). A place is never given back.
#[derive(Debug, Drop)]
pub struct Queues {
    comms: Vec<PostingLists>,
    places: u32,
}

impl Model for Queues {
    ghost use Rattle.coll_queues.specs.Postings.{Postings};

    ghost Value = { Postings };

    ghost use Rattle.coll_queues.specs.Sound.{AreAgreed};

    ghost view = { λ a. record { comms = a.comms.items; places = a.places } };

    ghost invariant = { λ a. AreAgreed a.comms.items };
}

impl Queues {
    /// Empty lists for communicators whose groups have at most 64 ranks each, in member order, and at most that many
    /// places in each list. Only NoMemory is refused. Linear in the number of members of all groups.
    pub fn open(alloc: Global, groups: Vec<Vec<u8>>, places: u32) -> Result<Queues, Refusal>
        requires { All (λ group. length group.items ≤ 64) groups.items }
        ensures groups { IfOk result (λ queues. groups_of queues ≡ map (λ group. group.items) groups.items) }
        ensures places { IfOk result (λ queues. queues.places ≡ places) }
        ensures posts { IfOk result (λ queues. posts queues ≡ (λ _ _. [])) }
        ensures refused { IfErr result (λ why. why ≡ Refusal.NoMemory) }
    {
        let mut comms = Vec::with_capacity(alloc, groups.len())?;
        for group in groups {
            comms.push(PostingLists::new(alloc, group)?)?;
        }
        Ok(Queues { comms, places })
    }

    /// How many members a communicator has; 0 where there is no such communicator. It takes constant time.
    pub fn size(&self, comm: u32) -> u8
        ensures { result ≡ size self.now comm }
    {
        match self.comms.get(comm as usize) {
            Some(lists) => lists.size(),
            None => 0,
        }
    }

    /// The member number of a rank. Linear in the group.
    ///
    /// # Errors
    ///
    /// BadComm where there is no such communicator, then NotMember where the rank isn't in its group.
    pub fn member(&self, comm: u32, rank: u8) -> Result<u8, Refusal>
        ensures refused { result_err result ≡ member_refusal self.now comm rank }
        ensures member { IfOk result (λ member. member_of self.now comm rank ≡ Some member) }
    {
        let Some(lists) = self.comms.get(comm as usize) else {
            return Err(Refusal::BadComm { comm });
        };
        lists.member(rank).ok_or(Refusal::NotMember { rank })
    }

    /// The next place of a rank that is a member: the length of its list. Linear in the group.
    pub fn place_of(&self, comm: u32, rank: u8) -> u32
        requires { member_refusal self.now comm rank ≡ None }
        ensures { result ≡ place_of self.now comm rank }
    {
        let member = self.number(comm, rank);
        self.comms[comm as usize].next_place(member)
    }

    /// The member number of a rank that is a member.
    fn number(&self, comm: u32, rank: u8) -> u8
        requires { member_refusal self.now comm rank ≡ None }
        ensures { member_of self.now comm rank ≡ Some result }
    {
        match self.member(comm, rank) {
            Ok(member) => member,
            Err(_) => unreachable!(),
        }
    }

    /// The place that the signature would get in the rank's list. It enters nothing. Linear in the group.
    ///
    /// # Errors
    ///
    /// In this order: BadComm; NotMember; BadSignature with the first rule that the signature breaks for this group;
    /// Mismatch where another member has another signature at that place, with the world rank of the lowest member
    /// that has the place, and its signature but for an allgatherv's counts, which `signature` gives; PlacesUsed where
    /// the list has its full length. The mode is part of the
    /// signature, so a once call and a persistent one at one place are a Mismatch.
    pub fn judge(&self, comm: u32, rank: u8, sig: &Signature) -> Result<u32, Refusal>
        ensures refused { result_err result ≡ judge_refusal self.now comm rank sig.now }
        ensures place { IfOk result (λ place. place ≡ place_of self.now comm rank) }
    {
        let member = self.member(comm, rank)?;
        self.comms[comm as usize].judge(member, sig, self.places)
    }

    /// `judge` for a member, by its number, of a signature that breaks no rule among the members. It takes constant time, except that a
    /// Mismatch is linear in the group.
    pub fn judge_checked(&self, comm: u32, member: u8, sig: &Signature) -> Result<u32, Refusal>
        requires member_in { member < size self.now comm }
        requires checked { broken sig.now (size self.now comm) ≡ None }
        ensures refused { (rank : ℕ) → member_of self.now comm rank ≡ Some member → result_err result ≡ judge_refusal self.now comm rank sig.now }
        ensures place { (rank : ℕ) → member_of self.now comm rank ≡ Some member → IfOk result (λ place. place ≡ place_of self.now comm rank) }
    {
        self.comms[comm as usize].judge_checked(member, sig, self.places)
    }

    /// Makes room for one more signature in the list of a rank that is a member. Only NoMemory is refused; nothing
    /// that a caller can see changes.
    pub fn room(&mut self, comm: u32, rank: u8) -> Result<(), Refusal>
        requires { member_refusal self.old comm rank ≡ None }
        ensures groups { groups_of self.new ≡ groups_of self.old }
        ensures places { self.new.places ≡ self.old.places }
        ensures posts { posts self.new ≡ posts self.old }
        ensures refusals { judge_refusal self.new ≡ judge_refusal self.old }
        ensures room { OnOk result (HasRoom self.new comm rank) }
        ensures refused { IfErr result (λ why. why ≡ Refusal.NoMemory) }
        ensures err { OnErr result (self.new ≡ self.old) }
    {
        let member = self.number(comm, rank);
        self.comms[comm as usize].reserve(member)?;
        Ok(())
    }

    /// Enters a signature that `judge` accepts at the end of the rank's list, where `room` was made, and answers its
    /// place. It takes no memory. Linear in the group.
    pub fn offer(&mut self, comm: u32, rank: u8, sig: Arc<Signature>) -> u32
        requires judged { judge_refusal self.old comm rank (arc_value sig) ≡ None }
        requires room { HasRoom self.old comm rank }
        ensures place { result ≡ place_of self.old comm rank }
        ensures groups { groups_of self.new ≡ groups_of self.old }
        ensures places { self.new.places ≡ self.old.places }
        ensures posts { posts self.new
            ≡ put2 (posts self.old) comm (number_of self.old comm rank) (posts self.old comm (number_of self.old comm rank) ++ arc_value sig ∷ []) }
        ensures signed { signed self.new ≡ put2 (signed self.old) comm (place_of self.old comm rank) (Some (arc_value sig)) }
    {
        let member = self.number(comm, rank);
        let lists = &mut self.comms[comm as usize];
        let place = lists.next_place(member);
        lists.push(member, sig);
        place
    }

    /// The signature that the communicator's lists have at the place; none where no list has it, or there is no such
    /// communicator. It takes constant time.
    pub fn signature(&self, comm: u32, place: u32) -> Option<&Signature>
        ensures { option_map (λ sig. sig.now) result ≡ signed self.now comm place }
    {
        self.comms.get(comm as usize)?.signature(place)
    }

    /// The lists of a communicator, for the laws.
    pub(crate) fn check(&self)
        ensures { IsSound self.now }
    {
        let _comms = &self.comms;
    }
}
