//! What the ports wait for.

ghost use Rattle.std.specs.Prelude.{◌≡◌, [], ◌↔◌, ◌<◌, ◌≤◌, ℕ, All, Any, IfErr, IfOk, IsTrue, OnErr, OnOk, false, length, map, replicate, slice_set, true};
ghost use Rattle.coll_traced.specs.Waits.{AreWaiting, Awake, ForAny, IsMarked, IsRoomy, mark_in, wait_in, wait_of};
ghost use Rattle.coll_traced.specs.Stalls.{AreFree, AreHeldUp, AreMet, IsBlocked, IsRightlyMarked};
ghost use Rattle.coll_traced.specs.Awaiting.{one_in, tickets_in};

use crate::port_wait::PortWait;
use crate::ranks::Ranks;
use crate::waiting::Waiting;
use coll_complete::Request;
use coll_core::Core;
use coll_kinds::{Refusal, Ticket};
use std::alloc::Global;
use std::marker::Model;

/// What each port waits for, by rank. All memory is taken at `open`, because a list of distinct
/// requests has no more tickets than the engine has slots. So noting such a list takes none.
#[derive(Drop)]
pub(crate) struct Waits {
    slots: u32,
    ports: Vec<PortWait>,
    /// The ranks whose ports wait for requests.
    waiting: Ranks,
}

impl Model for Waits {
    ghost use Rattle.coll_traced.specs.Waits.{IsKept, Waiters, mark_in, wait_in};
    ghost use Rattle.std.specs.Prelude.{map};

    ghost Value = { Waiters };

    ghost view = { λ n. record { waits = map wait_in n.ports.items; marks = map mark_in n.ports.items; slots = n.slots } };

    ghost invariant = { λ n. IsKept n.slots n.ports.items n.waiting };
}

/// Tells whether each of these ports is blocked in a wait, or has ended.
fn all_are_blocked(ports: &[PortWait], core: &Core) -> bool
    ensures { IsTrue result ↔ All (λ port. IsBlocked core.now (wait_in port)) ports.now }
{
    ports.iter().all(|port| port.is_blocked(core))
}

/// Tells whether one of these ports is marked as deadlocked.
fn some_is_marked(ports: &[PortWait]) -> bool
    ensures { IsTrue result ↔ Any (λ port. mark_in port ≡ true) ports.now }
{
    for port in ports {
        if port.is_marked() {
            return true;
        }
    }
    false
}

/// Marks each of these ports as deadlocked that waits for a Pending request, and no other.
fn mark_each(ports: &mut [PortWait], core: &Core)
    ensures waits { map wait_in ports.new ≡ map wait_in ports.old }
    ensures marks { All (IsRightlyMarked core.now) ports.new }
    ensures room { (slots : ℕ) → All (IsRoomy slots) ports.old → All (IsRoomy slots) ports.new }
{
    for port in ports.iter_mut() {
        port.mark(core);
    }
}

/// Returns those of the waiting ports that aren't blocked. Linear in the ports, and in what the
/// waiting ones wait for.
fn met_of(ports: &[PortWait], waiting: Ranks, core: &Core) -> Ranks
    requires { length ports.now ≤ 64 }
    ensures { AreFree core.now ports.now waiting (length ports.now) result }
{
    let mut met = Ranks::NONE;
    for (rank, port) in ports.iter().enumerate() {
        if waiting.has(rank as u8) && !port.is_blocked(core) {
            met = met.with(rank as u8);
        }
    }
    met
}

impl Waits {
    /// Makes the record of `ranks` ports, all awake, on an engine with `slots` slots.
    pub(crate) fn open(alloc: Global, ranks: u8, slots: u32) -> Result<Self, Refusal>
        requires { ranks ≤ 64 }
        ensures waits { IfOk result (λ new. new.waits ≡ replicate ranks Awake) }
        ensures marks { IfOk result (λ new. new.marks ≡ replicate ranks false) }
        ensures slots { IfOk result (λ new. new.slots ≡ slots) }
        ensures refused { IfErr result (λ why. why ≡ Refusal.NoMemory) }
    {
        let mut ports = Vec::with_capacity(alloc, usize::from(ranks))?;
        for _rank in 0..ranks {
            ports.push_reserved(PortWait::new(alloc, slots)?);
        }
        Ok(Waits {
            slots,
            ports,
            waiting: Ranks::NONE,
        })
    }

    /// Notes how a port waits that doesn't wait for a list. Ignores a number that is no rank.
    pub(crate) fn put(&mut self, rank: u8, how: Waiting)
        ensures waits { self.new.waits ≡ slice_set self.old.waits rank (wait_of how []) }
        ensures marks { self.new.marks ≡ slice_set self.old.marks rank false }
        ensures slots { self.new.slots ≡ self.old.slots }
    {
        if (rank as usize) < self.ports.len() {
            self.waiting = self.waiting.set(rank, how.is_for_some());
            self.ports[rank as usize].put(how);
        }
    }

    /// Notes that a port waits until one of the requests is Done. If that can't be noted, the port
    /// is awake.
    ///
    /// # Errors
    ///
    /// NoMemory, for a list with more tickets than the engine has slots.
    pub(crate) fn put_list(&mut self, rank: u8, requests: &[Request]) -> Result<(), Refusal>
        ensures waits { OnOk result (self.new.waits ≡ slice_set self.old.waits rank (ForAny rank (tickets_in requests.now))) }
        ensures marks { self.new.marks ≡ slice_set self.old.marks rank false }
        ensures slots { self.new.slots ≡ self.old.slots }
        ensures refused { IfErr result (λ why. why ≡ Refusal.NoMemory) }
        ensures longer { OnErr result (self.old.slots < length (tickets_in requests.now)) }
        ensures err { OnErr result (self.new.waits ≡ slice_set self.old.waits rank Awake) }
    {
        if (rank as usize) < self.ports.len() {
            let noted = self.ports[rank as usize].put_list(rank, requests);
            self.waiting = self.waiting.set(rank, noted.is_ok());
            return noted;
        }
        Ok(())
    }

    /// Tells whether each port is blocked in a wait, or has ended. Linear in the ports up to the
    /// first that isn't, and in what they wait for.
    pub(crate) fn all_are_blocked(&self, core: &Core) -> bool
        ensures { IsTrue result ↔ All (IsBlocked core.now) self.now.waits }
    {
        all_are_blocked(&self.ports, core)
    }

    /// Marks the ports that wait for a Pending request as deadlocked, for as long as they wait for
    /// it. Linear in the ports, and in what they wait for.
    pub(crate) fn mark_waiting(&mut self, core: &Core)
        ensures waits { self.new.waits ≡ self.old.waits }
        ensures marks { AreHeldUp core.now self.new.waits self.new.marks }
        ensures slots { self.new.slots ≡ self.old.slots }
    {
        mark_each(&mut self.ports, core);
    }

    /// Tells whether some port is marked as deadlocked and has waited since. Linear in the ports.
    pub(crate) fn some_is_marked(&self) -> bool
        ensures { IsTrue result ↔ Any (λ mark. mark ≡ true) self.now.marks }
    {
        some_is_marked(&self.ports)
    }

    /// Tells whether the port is marked as deadlocked and has waited since.
    pub(crate) fn is_marked(&self, rank: u8) -> bool
        ensures { IsTrue result ↔ IsMarked self.now.waits self.now.marks rank }
    {
        match self.ports.get(usize::from(rank)) {
            Some(port) => port.is_marked(),
            None => false,
        }
    }

    /// Returns the ranks whose wait is over. Linear in the ports, and in what they wait for.
    pub(crate) fn met(&self, core: &Core) -> Ranks
        ensures { AreMet core.now self.now.waits result }
    {
        met_of(&self.ports, self.waiting, core)
    }

    /// Returns the request that a port waits for, if it waits for exactly one.
    pub(crate) fn one_of(&self, rank: u8) -> Option<Ticket>
        ensures { result ≡ one_in self.now.waits rank }
    {
        self.ports.get(usize::from(rank))?.one()
    }

    /// Returns the ranks whose ports wait for requests.
    pub(crate) fn waiting(&self) -> Ranks
        ensures { AreWaiting self.now.waits result }
    {
        self.waiting
    }
}
