ghost use Rattle.std.specs.Prelude.{◌≡◌, ◌+◌, ◌<◌, ◌≤◌, ◌^◌, ◌++◌, ◌∷◌, [], None, Some, length, nat_lt, replicate, slice_index, option_map, IsSome};
ghost use Rattle.std.specs.Prelude.{IfOk, OnOk, OnErr};
ghost use Rattle.std.specs.Arc.{arc_value};
ghost use Rattle.std.specs.List.{position};
ghost use Rattle.std.specs.Option.{ForSome};
ghost use Rattle.std.specs.Result.{result_err};
ghost use Rattle.coll_kinds.specs.Checks.{broken};
ghost use Rattle.coll_kinds.specs.Groups.{member_of};
ghost use Rattle.coll_kinds.specs.Puts.{put};
ghost use Rattle.coll_machine.specs.Refusals.{first_there, mismatch_in};
ghost use Rattle.coll_queues.specs.Lists.{posts_in, signed_in};
ghost use Rattle.coll_queues.specs.Refusing.{refusal_in};
ghost use Rattle.coll_queues.specs.Sound.{IsAgreed};

use crate::signatures::Signatures;
use coll_kinds::{Refusal, Signature, member_of};
use std::alloc::{AllocError, Global};
use std::marker::Model;
use std::sync::Arc;

/// The posting lists of one communicator's members.
///
/// They agree, so each is the front of one list: the signatures so far, of which every member has its own number.
#[derive(Debug, Drop)]
pub(crate) struct PostingLists {
    group: Vec<u8>,
    signatures: Signatures,
    lengths: Vec<u32>,
}

impl Model for PostingLists {
    ghost use Rattle.coll_queues.specs.Lists.{Lists};

    ghost Value = { Lists };

    ghost use Rattle.coll_queues.specs.Fronts.{AreFronts, lists_of};

    ghost view = { λ a. lists_of a.group.items a.signatures.items a.lengths.items a.signatures.room };

    ghost invariant = { λ a. AreFronts a.group.items a.signatures.items a.lengths.items };
}

/// The first list that is longer than the place.
fn first_beyond(place: u32, lengths: &[u32]) -> Option<usize>
    ensures { result ≡ position (λ length. nat_lt place length) lengths.now }
{
    lengths.iter().position(|length| place < *length)
}

/// That many zeros.
fn zeros(alloc: Global, count: usize) -> Result<Vec<u32>, AllocError>
    ensures { IfOk result (λ made. made.items ≡ replicate count 0) }
{
    let mut made = Vec::with_capacity(alloc, count)?;
    for _member in 0..count {
        made.push(0)?;
    }
    Ok(made)
}

impl PostingLists {
    /// Empty lists of the members.
    pub(crate) fn new(alloc: Global, group: Vec<u8>) -> Result<PostingLists, AllocError>
        requires { length group.items ≤ 64 }
        ensures group { IfOk result (λ lists. lists.group ≡ group.items) }
        ensures empty { IfOk result (λ lists. posts_in lists ≡ (λ _. [])) }
        ensures agreed { IfOk result (λ lists. IsAgreed lists) }
    {
        let lengths = zeros(alloc, group.len())?;
        Ok(PostingLists {
            group,
            signatures: Signatures::new(alloc),
            lengths,
        })
    }

    /// How many members there are.
    pub(crate) fn size(&self) -> u8
        ensures { result ≡ length self.now.group }
    {
        self.group.len() as u8
    }

    /// The member number of a rank.
    pub(crate) fn member(&self, rank: u8) -> Option<u8>
        ensures { result ≡ member_of rank self.now.group }
    {
        let member = member_of(rank, &self.group)?;
        Some(member as u8)
    }

    /// The member's next place.
    pub(crate) fn next_place(&self, member: u8) -> u32
        requires { member < length self.now.group }
        ensures { result ≡ length (posts_in self.now member) }
    {
        self.lengths[usize::from(member)]
    }

    /// The signature at a place of all lists that have it.
    pub(crate) fn signature(&self, place: u32) -> Option<&Signature>
        ensures { option_map (λ sig. sig.now) result ≡ signed_in self.now place }
    {
        self.signatures.get(place as usize)
    }

    /// The place that a member's next signature would get, which is to be below that many.
    pub(crate) fn judge(&self, member: u8, sig: &Signature, places: u32) -> Result<u32, Refusal>
        requires { member < length self.now.group }
        ensures refused { result_err result ≡ refusal_in self.now member sig.now places }
        ensures place { IfOk result (λ place. place ≡ length (posts_in self.now member)) }
    {
        sig.check(self.size())?;
        self.judge_checked(member, sig, places)
    }

    /// The same of a signature that breaks no rule among the members.
    pub(crate) fn judge_checked(
        &self,
        member: u8,
        sig: &Signature,
        places: u32,
    ) -> Result<u32, Refusal>
        requires member_in { member < length self.now.group }
        requires checked { broken sig.now (length self.now.group) ≡ None }
        ensures refused { result_err result ≡ refusal_in self.now member sig.now places }
        ensures place { IfOk result (λ place. place ≡ length (posts_in self.now member)) }
    {
        let place = self.next_place(member);
        self.compare(place, sig)?;
        if place >= places {
            return Err(Refusal::PlacesUsed);
        }
        Ok(place)
    }

    /// Refuses another signature than the one that stands at the place.
    fn compare(&self, place: u32, sig: &Signature) -> Result<(), Refusal>
        ensures { result_err result ≡ mismatch_in self.now.group (posts_in self.now) place sig.now }
    {
        match self.signature(place) {
            Some(known) if !known.is_same(sig) => {
                let first = self.first_rank(place);
                Err(Refusal::mismatch_at(place, first, known))
            }
            _ => Ok(()),
        }
    }

    /// The rank of the lowest member that has the place.
    fn first_rank(&self, place: u32) -> u8
        requires { IsSome (signed_in self.now place) }
        ensures { option_map (λ first. slice_index self.now.group first.0) (first_there (posts_in self.now) place 0 (length self.now.group)) ≡ Some result }
    {
        match first_beyond(place, &self.lengths) {
            Some(member) => self.group[member],
            None => unreachable!(),
        }
    }

    /// Makes room for one more signature at the end of the member's list.
    pub(crate) fn reserve(&mut self, member: u8) -> Result<(), AllocError>
        requires { member < length self.old.group }
        ensures group { self.new.group ≡ self.old.group }
        ensures lists { self.new.lists ≡ self.old.lists }
        ensures room { OnOk result (length (posts_in self.new member) < self.new.room) }
        ensures err { OnErr result (self.new ≡ self.old) }
    {
        let is_new_place = self.lengths[usize::from(member)] as usize == self.signatures.len();
        self.signatures.reserve(usize::from(is_new_place))
    }

    /// Enters a signature at the end of the member's list.
    pub(crate) fn push(&mut self, member: u8, sig: Arc<Signature>)
        requires member_in { member < length self.old.group }
        requires agrees { ForSome (signed_in self.old (length (posts_in self.old member))) (λ known. known ≡ arc_value sig) }
        requires room { length (posts_in self.old member) < self.old.room }
        requires short { length (posts_in self.old member) + 1 < 2 ^ 32 }
        ensures group { self.new.group ≡ self.old.group }
        ensures posts { posts_in self.new ≡ put (posts_in self.old) member (posts_in self.old member ++ arc_value sig ∷ []) }
        ensures agreed { IsAgreed self.new }
        ensures signed { signed_in self.new ≡ put (signed_in self.old) (length (posts_in self.old member)) (Some (arc_value sig)) }
    {
        let place = self.lengths[usize::from(member)];
        if place as usize == self.signatures.len() {
            self.signatures.push(sig);
        }
        self.lengths[usize::from(member)] = place + 1;
    }
}
