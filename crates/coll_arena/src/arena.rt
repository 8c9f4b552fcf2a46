ghost use Rattle.std.specs.Prelude.{◌≡◌, ◌+◌, ◌*◌, ◌^◌, ◌<◌, ◌≤◌, ◌==◌, ◌&&◌, length, nat_lt, Some, is_ok, is_err, is_none, IfOk, IfErr, OnOk, OnErr};
ghost use Rattle.std.specs.Prelude.{None, replicate, reverse, if◌then◌else◌, true};
ghost use Rattle.std.specs.Option.{ForSome};
ghost use Rattle.coll_kinds.specs.Limits.{max_lent};
ghost use Rattle.coll_lists.specs.Layouts.{sequence};
ghost use Rattle.coll_lists.specs.Neighbours.{first_in};
ghost use Rattle.coll_arena.specs.Changes.{opened, replaced, retired, reweighed, shifted, shifted_front, taken};
ghost use Rattle.coll_arena.specs.ListNames.{list_count, number_of};
ghost use Rattle.coll_arena.specs.Lookups.{IsFirst, PutsSlot};
ghost use Rattle.coll_arena.specs.Slots.{count, generation_of, home, is_live, lent, names, record_in, ticket_of, tickets, weight_of};

use crate::list_name::ListName;
use crate::tickets::Tickets;
use coll_kinds::{Refusal, Refused, Ticket};
use coll_lists::Links;
use std::alloc::{AllocError, Global};
use std::marker::Model;

/// A fixed number of slots for requests, each of which lies on exactly one list.
///
/// A slot without a request lies on Free, or on Worn once it has had its last generation. Every call but `open` takes
/// constant time, as does each step of a walk, and only `open` takes memory. A call that names a request by a ticket
/// answers Stale where that request has left.
#[derive(Debug, Drop)]
pub struct Arena<R> {
    generations: Vec<u32>,
    weights: Vec<u32>,
    records: Vec<Option<R>>,
    links: Links,
    comms: u32,
    wear: u32,
    lent: u64,
}

impl<R> Model for Arena<R> {
    ghost use Rattle.coll_arena.specs.Slots.{Slots, slots_code};

    ghost Value = { Slots R };

    ghost coded = { slots_code R.code };

    ghost use Rattle.coll_arena.specs.Sound.{IsKept};
    ghost use Rattle.coll_arena.specs.Views.{view_of};

    ghost view = { λ a. view_of a.generations.items a.weights.items a.records.items a.links a.comms a.wear };

    ghost invariant = { λ a. IsKept (view_of a.generations.items a.weights.items a.records.items a.links a.comms a.wear) a.lent };
}

/// The records of this many slots without a request.
fn no_records<R: Drop>(alloc: Global, slots: u32) -> Result<Vec<Option<R>>, AllocError>
    ensures { IfOk result (λ made. made.items ≡ replicate slots None) }
{
    let mut made = Vec::with_capacity(alloc, slots as usize)?;
    for _place in 0..slots {
        made.push(None)?;
    }
    Ok(made)
}

impl<R: Drop> Arena<R> {
    ghost use Rattle.std.specs.Borrow.{sem};
    ghost use Rattle.coll_arena.specs.Sound.{IsSound};
    ghost use Rattle.coll_arena.specs.Lends.{LendsNamed, LendsRecord};
    ghost use Rattle.coll_arena.specs.TicketLists.{tickets_left};

    /// An arena for that many slots and communicators, all slots on Free in rising order. A slot is given out `wear`
    /// times and no more. Only NoMemory is refused. Takes time and memory for each slot and each list.
    pub fn open(alloc: Global, slots: u32, comms: u32, wear: u32) -> Result<Arena<R>, Refusal>
        requires worn { 0 < wear }
        requires room { slots + (4 + 3 * comms) < 2 ^ 32 }
        ensures opened { IfOk result (λ arena. arena ≡ opened slots comms wear) }
        ensures refused { IfErr result (λ why. why ≡ Refusal.NoMemory) }
    {
        let generations = vec![in alloc; 0; slots as usize]?;
        let weights = vec![in alloc; 0; slots as usize]?;
        let records = no_records(alloc, slots)?;
        let links = Links::new(alloc, slots, 4 + 3 * comms)?;
        Ok(Arena {
            generations,
            weights,
            records,
            links,
            comms,
            wear,
            lent: 0,
        })
    }

    /// The ticket names a live request.
    pub fn is_live(&self, ticket: Ticket) -> bool
        ensures { result ≡ names self.now ticket }
    {
        (ticket.slot as usize) < self.generations.len()
            && self.links.list_of(ticket.slot) > 1
            && self.generations[ticket.slot as usize] == ticket.generation
    }

    /// The ticket names a live request that lies on that list.
    pub fn is_on(&self, ticket: Ticket, list: ListName) -> bool
        requires { number_of list < list_count self.now.comms }
        ensures { result ≡ names self.now ticket && (home self.now ticket.slot == number_of list) }
    {
        self.is_live(ticket) && self.links.list_of(ticket.slot) == list.number()
    }

    /// The ticket of the live request in a slot; None where the slot has none, or where there is no such slot.
    pub fn ticket_at(&self, slot: u32) -> Option<Ticket>
        ensures { result ≡ (if is_live self.now slot then Some (ticket_of self.now slot) else None) }
    {
        if (slot as usize) < self.generations.len() && self.links.list_of(slot) > 1 {
            Some(self.ticket_of(slot))
        } else {
            None
        }
    }

    /// There is a slot to give out: `take` isn't refused.
    pub fn has_free(&self) -> bool
        ensures { result ≡ nat_lt 0 (length (sequence self.now.lists 0)) }
    {
        self.links.len(0) > 0
    }

    /// The ticket of the first request on a list; None where the list is empty.
    pub fn first(&self, list: ListName) -> Option<Ticket>
        requires live_list { 2 ≤ number_of list }
        requires list_in { number_of list < list_count self.now.comms }
        ensures none { is_none result ≡ (length (sequence self.now.lists (number_of list)) == 0) }
        ensures found { ForSome result (IsFirst self.now (number_of list)) }
    {
        match self.links.first(list.number()) {
            Some(slot) => Some(self.ticket_of(slot)),
            None => None,
        }
    }

    /// How many slots stand on a list.
    pub fn len(&self, list: ListName) -> u32
        requires { number_of list < list_count self.now.comms }
        ensures { result ≡ length (sequence self.now.lists (number_of list)) }
    {
        self.links.len(list.number())
    }

    /// Gives the first slot of Free to a request, at the back of a list. A weight is what a request lends to the engine,
    /// in bytes, and `coll_kinds::MAX_LENT` at most. Only Full is refused, exactly where Free is empty.
    #[inline(always)]
    pub fn take(&mut self, request: R, weight: u32, list: ListName) -> Result<Ticket, Refused<R>>
        requires light { weight ≤ max_lent }
        requires live_list { 2 ≤ number_of list }
        requires list_in { number_of list < list_count self.old.comms }
        ensures full { is_err result ≡ (length (sequence self.old.lists 0) == 0) }
        ensures refused { IfErr result (λ refused. refused ≡ record { why = Refusal.Full; back = request }) }
        ensures err { OnErr result (self.new ≡ self.old) }

        // The first free slot, with its next generation.
        ensures slot { IfOk result (λ ticket. first_in (sequence self.old.lists 0) ≡ Some ticket.slot) }
        ensures generation { IfOk result (λ ticket. ticket.generation ≡ generation_of self.old ticket.slot + 1) }
        ensures taken { IfOk result (λ ticket. self.new ≡ taken self.old ticket.slot request weight (number_of list)) }
        ensures lent { OnOk result (lent self.new ≡ lent self.old + weight) }
        ensures puts { IfOk result (λ ticket. PutsSlot self.old self.new ticket.slot ticket.generation weight (Some request) (number_of list)) }
    {
        let Some(slot) = self.links.first(0) else {
            return Err(Refused {
                why: Refusal::Full,
                back: request,
            });
        };
        let generation = self.generations[slot as usize] + 1;
        self.generations[slot as usize] = generation;
        self.weights[slot as usize] = weight;
        self.records[slot as usize] = Some(request);
        self.lent += u64::from(weight);
        self.links.move_back(slot, list.number());
        Ok(Ticket { slot, generation })
    }

    /// The record of a request.
    pub fn get(&self, ticket: Ticket) -> Result<&R, Refusal>
        ensures live { is_ok result ≡ names self.now ticket }
        ensures stale { IfErr result (λ why. why ≡ Refusal.Stale) }
        ensures found { IfOk result (λ request. record_in self.now ticket.slot ≡ Some request.now) }
    {
        if !self.is_live(ticket) {
            return Err(Refusal::Stale);
        }
        match &self.records[ticket.slot as usize] {
            Some(request) => Ok(request),
            None => unreachable!(),
        }
    }

    /// The record of a request, for writing. Its weight and its list stay.
    pub fn get_mut(&mut self, ticket: Ticket) -> Result<&mut R, Refusal>
        ensures* writes_back { sem 𝓛 (LendsNamed R.row self.entry ticket.slot result) }
        ensures live { is_ok result ≡ names self.old ticket }
        ensures stale { IfErr result (λ why. why ≡ Refusal.Stale) }
        ensures found { IfOk result (λ request. record_in self.old ticket.slot ≡ Some request.now) }
    {
        if self.is_live(ticket) {
            Ok(self.record_mut(ticket.slot))
        } else {
            Err(Refusal::Stale)
        }
    }

    /// The record in a slot, for writing.
    fn record_mut(&mut self, slot: u32) -> &mut R
        requires slot_in { slot < count self.old }
        requires live { 1 < home self.old slot }
        ensures* writes_back { sem 𝓛 (LendsRecord R.row self.entry slot result) }
        ensures found { record_in self.old slot ≡ Some result.now }
    {
        match &mut self.records[slot as usize] {
            Some(request) => request,
            None => unreachable!(),
        }
    }

    /// Writes another record for a request, which goes to the back of a list, and gives the earlier record out. The
    /// list may be its own.
    pub fn replace(&mut self, ticket: Ticket, request: R, list: ListName) -> Result<R, Refused<R>>
        requires live_list { 2 ≤ number_of list }
        requires list_in { number_of list < list_count self.old.comms }
        ensures live { is_ok result ≡ names self.old ticket }
        ensures refused { IfErr result (λ refused. refused ≡ record { why = Refusal.Stale; back = request }) }
        ensures err { OnErr result (self.new ≡ self.old) }
        ensures found { IfOk result (λ earlier. record_in self.old ticket.slot ≡ Some earlier) }
        ensures replaced { OnOk result (self.new ≡ replaced self.old ticket.slot request (number_of list)) }
        ensures lent { lent self.new ≡ lent self.old }
        ensures puts { OnOk result (PutsSlot self.old self.new ticket.slot ticket.generation (weight_of self.old ticket.slot) (Some request) (number_of list)) }
    {
        if !self.is_live(ticket) {
            return Err(Refused {
                why: Refusal::Stale,
                back: request,
            });
        }
        let earlier = self.records[ticket.slot as usize].replace(request);
        self.links.move_back(ticket.slot, list.number());
        match earlier {
            Some(earlier) => Ok(earlier),
            None => unreachable!(),
        }
    }

    /// Gives a request another weight, `coll_kinds::MAX_LENT` at most.
    pub fn reweigh(&mut self, ticket: Ticket, weight: u32) -> Result<(), Refusal>
        requires { weight ≤ max_lent }
        ensures live { is_ok result ≡ names self.old ticket }
        ensures stale { IfErr result (λ why. why ≡ Refusal.Stale) }
        ensures err { OnErr result (self.new ≡ self.old) }
        ensures reweighed { OnOk result (self.new ≡ reweighed self.old ticket.slot weight) }
        ensures lent { OnOk result (lent self.new + weight_of self.old ticket.slot ≡ lent self.old + weight) }
        ensures puts { OnOk result
            (PutsSlot self.old self.new ticket.slot ticket.generation weight (record_in self.old ticket.slot) (home self.old ticket.slot)) }
    {
        if !self.is_live(ticket) {
            return Err(Refusal::Stale);
        }
        let before = self.weights[ticket.slot as usize];
        self.lent = self.lent - u64::from(before) + u64::from(weight);
        self.weights[ticket.slot as usize] = weight;
        Ok(())
    }

    /// Moves a request to the back of a list, which may be its own.
    #[inline(always)]
    pub fn shift(&mut self, ticket: Ticket, list: ListName) -> Result<(), Refusal>
        requires live_list { 2 ≤ number_of list }
        requires list_in { number_of list < list_count self.old.comms }
        ensures live { is_ok result ≡ names self.old ticket }
        ensures stale { IfErr result (λ why. why ≡ Refusal.Stale) }
        ensures err { OnErr result (self.new ≡ self.old) }
        ensures shifted { OnOk result (self.new ≡ shifted self.old ticket.slot (number_of list)) }
        ensures lent { lent self.new ≡ lent self.old }
        ensures puts { OnOk result
            (PutsSlot self.old self.new ticket.slot ticket.generation (weight_of self.old ticket.slot) (record_in self.old ticket.slot) (number_of list)) }
    {
        if !self.is_live(ticket) {
            return Err(Refusal::Stale);
        }
        self.links.move_back(ticket.slot, list.number());
        Ok(())
    }

    /// Moves a request to the front of a list, which may be its own.
    pub fn shift_front(&mut self, ticket: Ticket, list: ListName) -> Result<(), Refusal>
        requires live_list { 2 ≤ number_of list }
        requires list_in { number_of list < list_count self.old.comms }
        ensures live { is_ok result ≡ names self.old ticket }
        ensures stale { IfErr result (λ why. why ≡ Refusal.Stale) }
        ensures err { OnErr result (self.new ≡ self.old) }
        ensures shifted { OnOk result (self.new ≡ shifted_front self.old ticket.slot (number_of list)) }
        ensures lent { lent self.new ≡ lent self.old }
        ensures puts { OnOk result
            (PutsSlot self.old self.new ticket.slot ticket.generation (weight_of self.old ticket.slot) (record_in self.old ticket.slot) (number_of list)) }
    {
        if !self.is_live(ticket) {
            return Err(Refusal::Stale);
        }
        self.links.move_front(ticket.slot, list.number());
        Ok(())
    }

    /// Gives a request's record out and frees its slot, which goes to the back of Free, or of Worn where that was its
    /// last generation.
    pub fn retire(&mut self, ticket: Ticket) -> Result<R, Refusal>
        ensures live { is_ok result ≡ names self.old ticket }
        ensures stale { IfErr result (λ why. why ≡ Refusal.Stale) }
        ensures err { OnErr result (self.new ≡ self.old) }
        ensures retired { OnOk result (self.new ≡ retired self.old ticket.slot) }
        ensures found { IfOk result (λ request. record_in self.old ticket.slot ≡ Some request) }
        ensures lent { OnOk result (lent self.new + weight_of self.old ticket.slot ≡ lent self.old) }
        ensures puts { OnOk result (PutsSlot self.old self.new ticket.slot ticket.generation 0 None (if ticket.generation == self.old.wear then 1 else 0)) }
    {
        if self.is_live(ticket) {
            Ok(self.release(ticket))
        } else {
            Err(Refusal::Stale)
        }
    }

    /// Takes out the record of a live request and frees its slot.
    fn release(&mut self, ticket: Ticket) -> R
        requires { names self.old ticket ≡ true }
        ensures found { record_in self.old ticket.slot ≡ Some result }
        ensures retired { self.new ≡ retired self.old ticket.slot }
        ensures lent { lent self.new + weight_of self.old ticket.slot ≡ lent self.old }
        ensures puts { PutsSlot self.old self.new ticket.slot ticket.generation 0 None (if ticket.generation == self.old.wear then 1 else 0) }
    {
        let request = self.records[ticket.slot as usize].take();
        self.lent -= u64::from(self.weights[ticket.slot as usize]);
        self.weights[ticket.slot as usize] = 0;
        let rest = if ticket.generation == self.wear {
            ListName::Worn
        } else {
            ListName::Free
        };
        self.links.move_back(ticket.slot, rest.number());
        match request {
            Some(request) => request,
            None => unreachable!(),
        }
    }

    /// The tickets of a list, from its first to its last.
    pub fn list(&self, list: ListName) -> Tickets<'_, R>
        requires { number_of list < list_count self.now.comms }
        ensures { tickets_left result ≡ tickets self.now (number_of list) }
    {
        let nodes = self.links.nodes(list.number());
        Tickets { arena: self, nodes }
    }

    /// The tickets of a list, from its last to its first: a walk along the previous links.
    pub fn list_back(&self, list: ListName) -> Tickets<'_, R>
        requires { number_of list < list_count self.now.comms }
        ensures { tickets_left result ≡ reverse (tickets self.now (number_of list)) }
    {
        let nodes = self.links.nodes_back(list.number());
        Tickets { arena: self, nodes }
    }

    /// The ticket of a slot as it stands.
    pub(crate) fn ticket_of(&self, slot: u32) -> Ticket
        requires { slot < count self.now }
        ensures { result ≡ ticket_of self.now slot }
    {
        Ticket {
            slot,
            generation: self.generations[slot as usize],
        }
    }

    /// The sum of the weights of the live requests.
    pub fn lent(&self) -> u64
        ensures { result ≡ lent self.now }
    {
        self.lent
    }

    /// The links of the lists, for the laws.
    pub(crate) fn links(&self) -> &Links
        ensures { result.now ≡ self.now.lists }
    {
        &self.links
    }

    /// What holds of every arena, for the laws.
    pub(crate) fn check(&self)
        ensures { IsSound self.now }
    {
        let _links = &self.links;
    }
}
