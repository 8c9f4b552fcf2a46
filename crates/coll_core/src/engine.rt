//! The engine's state, and queries on it.

mod committing;
mod posting;
mod retiring;
mod signatures;
mod starting;
mod stepping;

ghost use Rattle.std.specs.Prelude.{◌≡◌, ◌↔◌, Some, true, length, IsTrue, OnOk, IfOk, IfErr, OnErr};
ghost use Rattle.std.specs.Result.{result_err};
ghost use Rattle.coll_machine.specs.Calls.{Retire};
ghost use Rattle.coll_machine.specs.Lents.{lent_bytes};
ghost use Rattle.coll_machine.specs.Refusals.{refusal};
ghost use Rattle.coll_arena.specs.Slots.{names, record_in, lent};
ghost use Rattle.coll_refinement.specs.FreeLocks.{NothingGoes};
ghost use Rattle.coll_refinement.specs.Sound.{IsSound};
ghost use Rattle.coll_core.specs.BetweenCalls.{BetweenCalls};
ghost use Rattle.coll_core.specs.Configs.{IsConfig, IsUnopened, idle, setting_by};
ghost use Rattle.coll_core.specs.Cores.{seen, setting, tables};
ghost use Rattle.coll_core.specs.Phases.{IsQuiet, about_in, phase_in};
ghost use Rattle.coll_core.specs.LockSteps.{OfLockStep};
ghost use Rattle.coll_core.specs.Steps.{IsOut, ready};
ghost use Rattle.coll_core.specs.Works.{Piece};

use crate::about::About;
use crate::config::Config;
use crate::phase::Phase;
use crate::request::Request;
use coll_arena::laws::is_sound;
use coll_arena::{Arena, ListName, Ticket};
use coll_bytes::{Blocks, Home};
use coll_kinds::Refusal;
use coll_match::Matches;
use coll_queues::Queues;
use std::alloc::Global;
use std::marker::Model;

/// The engine: live requests on their lists, the posting lists, what members gave and sent, and
/// memory that is used again.
#[derive(Drop)]
pub struct Core {
    alloc: Global,
    ranks: u8,
    starts: u32,
    trace: u32,
    arena: Arena<Request>,
    queues: Queues,
    matches: Matches,
    /// Memory for the results of long combinations, and for long buffers.
    blocks: Blocks,
}

impl Model for Core {
    ghost use Rattle.coll_core.specs.Cores.{IsCore, Parts};

    ghost Value = { Parts };

    ghost view = { λ c. record { ranks = c.ranks; starts = c.starts; trace = c.trace; arena = c.arena; queues = c.queues; matches = c.matches } };

    ghost invariant = { λ c. IsCore (record { ranks = c.ranks; starts = c.starts; trace = c.trace; arena = c.arena; queues = c.queues; matches = c.matches }) };
}

impl Core {
    /// Opens an engine without requests. Takes time and memory linear in slots, communicators and
    /// members.
    ///
    /// # Errors
    ///
    /// BadConfig with the first field that is out of its range, then NoMemory.
    pub fn open(alloc: Global, config: Config) -> Result<Core, Refusal>
        ensures setting { IfOk result (λ core. setting core ≡ setting_by config) }
        ensures idle { IfOk result (λ core. seen core ≡ idle) }
        ensures fits { OnOk result (IsConfig config) }
        ensures refused { IfErr result (IsUnopened config) }
    {
        config.check()?;
        let comms = config.groups.len() as u32;
        let arena = Arena::open(alloc, config.slots, comms, config.wear)?;
        let queues = Queues::open(alloc, config.groups, config.places)?;
        let blocks = Blocks::new(alloc)?;
        let matches = Matches::new(alloc);
        Ok(Core {
            alloc,
            ranks: config.ranks,
            starts: config.starts,
            trace: config.trace,
            arena,
            queues,
            matches,
            blocks,
        })
    }

    /// Returns the request that a ticket names, if it is the rank's.
    fn named(&self, rank: u8, ticket: Ticket) -> Result<&Request, Refusal>
        ensures refused { result_err result ≡ refusal (setting self.now) (seen self.now).state (Retire rank ticket) }
        ensures named { OnOk result (names self.now.arena ticket ≡ true) }
        ensures found { IfOk result (λ request. record_in self.now.arena ticket.slot ≡ Some request.now) }
    {
        is_sound(&self.arena);
        let Ok(request) = self.arena.get(ticket) else {
            return Err(Refusal::Stale);
        };
        if request.rank != rank {
            return Err(Refusal::NotYours);
        }
        Ok(request)
    }

    /// Returns the phase of a request. Takes constant time.
    ///
    /// # Errors
    ///
    /// Stale if the ticket names no live request, then NotYours if it names another rank's.
    pub fn phase(&self, rank: u8, ticket: Ticket) -> Result<Phase, Refusal>
        ensures refused { result_err result ≡ refusal (setting self.now) (seen self.now).state (Retire rank ticket) }
        ensures phase { IfOk result (λ phase. phase_in (seen self.now) ticket ≡ Some phase) }
    {
        let comm = self.named(rank, ticket)?.comm;
        if self.arena.is_on(ticket, ListName::Idle(comm)) {
            return Ok(Phase::Idle);
        }
        if self.arena.is_on(ticket, ListName::Done(comm)) {
            return Ok(Phase::Done);
        }
        Ok(Phase::Pending)
    }

    /// Returns what a ticket's request is; None if the ticket names no live request.
    pub fn about(&self, ticket: Ticket) -> Option<About>
        ensures { result ≡ about_in (seen self.now) ticket }
    {
        is_sound(&self.arena);
        let Ok(request) = self.arena.get(ticket) else {
            return None;
        };
        Some(About {
            rank: request.rank,
            comm: request.comm,
            place: request.place,
            mode: request.plan.sig().mode,
            starts: request.starts,
        })
    }

    /// Returns the number of bytes lent to the engine (in flight): what active requests give and
    /// will get.
    pub fn lent(&self) -> u64
        ensures { result ≡ lent_bytes (setting self.now) (seen self.now).state }
    {
        is_sound(&self.arena);
        self.arena.lent()
    }

    /// Returns where the memory of long rows comes from. None if that has too many owners.
    pub fn home(&self) -> Option<Home> {
        self.blocks.share()
    }

    /// Returns the number of ready requests.
    pub fn ready_count(&self) -> u32
        ensures { result ≡ length (ready self.now) }
    {
        self.arena.len(ListName::Ready)
    }

    /// Tells whether the engine is quiet: no request is ready and no combination is handed out.
    pub fn quiet(&self) -> bool
        ensures { IsTrue result ↔ IsQuiet self.now }
    {
        self.arena.first(ListName::Ready).is_none() && self.arena.first(ListName::Running).is_none()
    }

    /// Returns the requests' slots, for the laws.
    pub(crate) fn arena(&self) -> &Arena<Request>
        ensures { result.now ≡ self.now.arena }
    {
        &self.arena
    }

    /// States the invariant between calls, for the laws. Does nothing at run time.
    pub(crate) fn check_between(&self)
        ensures { BetweenCalls self.now }
    {
        is_sound(&self.arena);
    }

    /// States that handed-out operands are those of lock-step, for the laws. Does nothing at run
    /// time.
    pub(crate) fn check_operands(&self)
        ensures { (work : Piece) → IsOut self.now work → OfLockStep self.now work }
    {
        let _arena = &self.arena;
    }

    /// States the engine's invariant, for the laws. Does nothing at run time.
    pub(crate) fn check(&self)
        ensures { IsSound (tables self.now) }
    {
        let _arena = &self.arena;
    }

    /// States what holds of a quiet engine, for the laws. Does nothing at run time.
    pub(crate) fn check_quiet(&self)
        ensures { IsQuiet self.now → NothingGoes (tables self.now) }
    {
        is_sound(&self.arena);
    }
}
