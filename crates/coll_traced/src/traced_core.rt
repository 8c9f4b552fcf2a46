//! A core with its trace, and queries on both.

mod closing;
mod completed;
mod completing;
mod posting;
mod requests;
mod stalling;
mod starting;
mod stepping;
mod testing;
mod waiting;

ghost use Rattle.std.specs.Prelude.{◌≡◌, ◌≤◌, [], Some, false, length, true, is_some, replicate, IfErr, IfOk};
ghost use Rattle.coll_machine.specs.Settings.{AreGroups};
ghost use Rattle.coll_machine.specs.States.{found};
ghost use Rattle.coll_machine.specs.Traces.{LegalTrace};
ghost use Rattle.coll_refinement.specs.FreeLocks.{FreeLock};
ghost use Rattle.coll_core.specs.BetweenCalls.{BetweenCalls};
ghost use Rattle.coll_core.specs.Configs.{idle, setting_by, IsUnopened};
ghost use Rattle.coll_core.specs.Cores.{seen, setting, tables};
ghost use Rattle.coll_core.specs.Phases.{about_in, AreDoneOnceHeard};
ghost use Rattle.coll_traced.specs.Moments.{IsMoment};
ghost use Rattle.coll_traced.specs.Waits.{Awake};

use crate::copied_config::copied_config;
use crate::recent::Recent;
use crate::tally::{Entries, Tally};
use crate::trace::Trace;
use crate::waits::Waits;
use coll_bytes::Home;
use coll_core::laws::{between_calls, done_once_heard, lock_is_free};
use coll_core::{About, Config, Core};
use coll_kinds::{Refusal, Ticket};
pub use completed::Completed;
use std::alloc::Global;
use std::marker::Model;
use std::sync::ledger::Book;

/// A core, the trace of what it accepted, and what each rank's port waits for. Each accepted call
/// that callers can see appends its entry, so the trace is legal and leads to the core's state. The
/// setting is that of the ledger's type.
#[derive(Drop)]
pub struct TracedCore<L: Entries> {
    alloc: Global,
    config: Config,
    core: Core,
    trace: Trace<L>,
    recent: Recent,
    waits: Waits,
}

impl<L: Entries> Model for TracedCore<L> {
    ghost use Rattle.coll_traced.specs.Stalls.{AreTold};
    ghost use Rattle.coll_traced.specs.Traced.{IsKept, Traced};

    ghost Value = { Traced };

    ghost view = { λ s. record { core = s.core; entries = s.trace.entries; waits = s.waits.waits; stalled = s.waits.marks } };

    ghost invariant = { λ s. IsKept L.setting s.config s.core s.trace.entries s.trace.reserved × AreTold L.setting s.waits.waits s.waits.marks };
}

/// Returns what a ticket's request is, after the core accepted it.
fn live(core: &Core, ticket: Ticket) -> About
    requires { is_some (found (seen core.now).state ticket) ≡ true }
    ensures { about_in (seen core.now) ticket ≡ Some result }
{
    match core.about(ticket) {
        Some(about) => about,
        None => unreachable!(),
    }
}

impl<L: Entries> TracedCore<L> {
    /// Opens an engine without requests and with an empty trace. Takes all memory for notes on what
    /// ports wait for: eight bytes for each slot at each rank.
    ///
    /// # Errors
    ///
    /// BadConfig with the first field that is out of its range, then NoMemory.
    pub fn open(alloc: Global, config: Config, book: Book<L>) -> Result<Self, Refusal>
        requires total { book.total ≡ 0 }
        requires setting { L.setting ≡ setting_by config }
        ensures setting { IfOk result (λ opened. setting opened.core ≡ setting_by config) }
        ensures idle { IfOk result (λ opened. seen opened.core ≡ idle) }
        ensures entries { IfOk result (λ opened. opened.entries ≡ []) }
        ensures waits { IfOk result (λ opened. opened.waits ≡ replicate config.ranks Awake) }
        ensures stalled { IfOk result (λ opened. opened.stalled ≡ replicate config.ranks false) }
        ensures refused { IfErr result (IsUnopened config) }
    {
        config.check()?;
        let copy = copied_config(alloc, &config)?;
        let waits = Waits::open(alloc, config.ranks, config.slots)?;
        let core = Core::open(alloc, config)?;
        Ok(TracedCore {
            alloc,
            config: copy,
            core,
            trace: Trace::new(alloc, book),
            recent: Recent::new(),
            waits,
        })
    }

    /// Returns where the engine's memory comes from.
    pub(crate) fn alloc(&self) -> Global {
        self.alloc
    }

    /// Returns where the memory of long rows comes from. None if that has too many owners.
    pub fn home(&self) -> Option<Home> {
        self.core.home()
    }

    /// Shows that the setting is that of the ledger's type and the trace is legal, for callers'
    /// proofs. Does nothing at run time.
    pub fn keeps_legal(&self)
        ensures setting { setting self.now.core ≡ L.setting }
        ensures legal { LegalTrace L.setting self.now.entries (seen self.now.core).state }
    {
        let _config = &self.config;
    }

    /// Shows what the laws of `coll_core` say of the core, and that its communicators are groups,
    /// for callers' proofs. Does nothing at run time.
    pub fn knows_core(&self)
        ensures between { BetweenCalls self.now.core }
        ensures free { FreeLock (tables self.now.core) }
        ensures heard { AreDoneOnceHeard self.now.core }
        ensures groups { AreGroups (setting self.now.core) }
    {
        let _config = &self.config;
        between_calls(&self.core);
        lock_is_free(&self.core);
        done_once_heard(&self.core);
    }

    /// Shows that this state belongs to a moment of the engine at which the trace had at least the
    /// caller's entries, for callers' proofs. Does nothing at run time.
    pub fn audit(&mut self, mine: &mut Tally<L>)
        ensures same { self.new ≡ self.old }
        ensures tally { mine.new ≡ mine.old }
        ensures setting { setting self.new.core ≡ L.setting }
        ensures bound { mine.new ≤ length self.new.entries }
        ensures moment { IsMoment L.setting mine.old self.new.entries (seen self.new.core).state }
    {
        self.trace.audit(mine);
    }
}
