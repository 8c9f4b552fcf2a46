//! The engine, its opening, and queries on it.

mod combining;
mod listing;
mod looking;
mod posting;
mod progress;
mod signatures;
mod starting;
mod testing;

ghost use Rattle.std.specs.Prelude.{◌≡◌, ◌↔◌, Some, IfErr, IfOk, IsOkUnless, IsTrue};
ghost use Rattle.std.specs.Result.{result_err};
ghost use Rattle.coll_machine.specs.Lents.{lent_bytes};
ghost use Rattle.coll_core.specs.Configs.{IsUnopened, idle, setting_by};
ghost use Rattle.coll_core.specs.Cores.{seen, setting};
ghost use Rattle.coll_core.specs.Phases.{IsQuiet};
ghost use Rattle.coll_complete.specs.Requests.{phase_at};
ghost use Rattle.coll_serial.specs.Calls.{about_at, naming_refusal};
ghost use Rattle.coll_serial.specs.Lengths.{IsOutcomeLengthAt};

use coll_complete::Request;
use coll_core::{About, Communicators, Config, Core, Phase};
use coll_kinds::Refusal;
use coll_plan_cache::Plans;
use std::alloc::Global;
use std::marker::Model;

/// An engine for the ranks of one process. Contracts see its core: what stays the same (`setting`) and the machine's state
/// (`seen`).
#[derive(Drop)]
pub struct Engine {
    alloc: Global,
    communicators: Communicators,
    /// By slot, the length of the outcome of the slot's request, in bytes.
    outcome_lengths: Vec<u32>,
    /// By rank, the plans that it made last.
    plans: Vec<Plans>,
    core: Core,
}

impl Model for Engine {
    ghost use Rattle.coll_core.specs.Cores.{Parts};
    ghost use Rattle.coll_serial.specs.Engines.{IsEngine};

    ghost Value = { Parts };

    ghost view = { λ e. e.core };

    ghost invariant = { λ e. IsEngine e.core e.communicators e.outcome_lengths.items };
}

/// No plan of any rank.
///
/// # Errors
///
/// NoMemory.
fn no_plans(alloc: Global, ranks: u8) -> Result<Vec<Plans>, Refusal>
    ensures { IsOkUnless result Refusal.NoMemory }
{
    let mut plans = Vec::new(alloc);
    for _rank in 0..ranks {
        plans.push(Plans::new(alloc))?;
    }
    Ok(plans)
}

impl Engine {
    /// Opens an engine without requests. Takes time and memory linear in slots, communicators and
    /// members.
    ///
    /// # Errors
    ///
    /// BadConfig with the first field that is out of its range, then NoMemory.
    pub fn open(alloc: Global, config: Config) -> Result<Engine, Refusal>
        ensures setting { IfOk result (λ engine. setting engine ≡ setting_by config) }
        ensures idle { IfOk result (λ engine. seen engine ≡ idle) }
        ensures refused { IfErr result (IsUnopened config) }
    {
        config.check()?;
        let communicators = Communicators::of(alloc, &config)?;
        let outcome_lengths = Vec::from_elem(alloc, 0, config.slots as usize)?;
        let plans = no_plans(alloc, config.ranks)?;
        let core = Core::open(alloc, config)?;
        Ok(Engine {
            alloc,
            communicators,
            outcome_lengths,
            plans,
            core,
        })
    }

    /// Returns the phase of a request. Takes constant time.
    ///
    /// # Errors
    ///
    /// Stale if the request isn't live, then NotYours if it is another rank's.
    pub fn phase(&self, rank: u8, request: &Request) -> Result<Phase, Refusal>
        ensures refused { result_err result ≡ naming_refusal (setting self.now) (seen self.now).state rank request.now }
        ensures phase { IfOk result (λ phase. phase_at (seen self.now) request.now ≡ Some phase) }
    {
        match request.ticket() {
            Some(ticket) => self.core.phase(rank, ticket),
            None => Err(Refusal::Stale),
        }
    }

    /// Returns the length of a request's outcome, in bytes. Takes constant time.
    ///
    /// # Errors
    ///
    /// Stale if the request isn't live, then NotYours if it is another rank's.
    pub fn outcome_len(&self, rank: u8, request: &Request) -> Result<usize, Refusal>
        ensures refused { result_err result ≡ naming_refusal (setting self.now) (seen self.now).state rank request.now }
        ensures len { IfOk result (IsOutcomeLengthAt (setting self.now) (seen self.now).state request.now) }
    {
        let Some(ticket) = request.ticket() else {
            return Err(Refusal::Stale);
        };
        match self.core.phase(rank, ticket) {
            Ok(_) => Ok(self.outcome_lengths[ticket.slot as usize] as usize),
            Err(why) => Err(why),
        }
    }

    /// Returns what a request is; None if it isn't live.
    pub fn about(&self, request: &Request) -> Option<About>
        ensures { result ≡ about_at (seen self.now) request.now }
    {
        self.core.about(request.ticket()?)
    }

    /// Returns the number of bytes lent to the engine (in flight): what active requests give and
    /// will get.
    pub fn lent(&self) -> u64
        ensures { result ≡ lent_bytes (setting self.now) (seen self.now).state }
    {
        self.core.lent()
    }

    /// Tells whether no request is ready, so that no step changes anything.
    pub fn is_quiet(&self) -> bool
        ensures { IsTrue result ↔ IsQuiet self.now }
    {
        self.core.quiet()
    }
}
