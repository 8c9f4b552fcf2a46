//! What a completion call completes.

ghost use Rattle.std.specs.Prelude.{◌≡◌, ◌||◌, IfOk, IfSome, OnOk};
ghost use Rattle.std.specs.List.{list_any};
ghost use Rattle.coll_complete.specs.Requests.{active_by, done_by, pending_by, phase_at};
ghost use Rattle.coll_core.specs.Cores.{seen, setting};
ghost use Rattle.coll_replay.specs.Calls.{CompletedIf, IsSurvey, Sweeps};
ghost use Rattle.coll_replay.specs.Playing.{held_at, holding};
ghost use Rattle.coll_verdict.specs.Standings.{Completes, is_active, is_done, is_pending};

use crate::player::{held_at, hold, kept};
use coll_core::{Core, Phase};
use coll_kinds::{Refusal, Ticket};
use coll_parser::Named;

/// What the requests of a list are.
#[derive(Clone, Copy, Debug, PartialEq, Eq)]
pub(crate) struct Survey {
    /// Some are active.
    pub(crate) has_active: bool,
    /// Some are Done.
    pub(crate) has_done: bool,
    /// Some are active and not Done.
    pub(crate) has_pending: bool,
}

impl Survey {
    /// Takes in one more request, in that phase; None is a null one.
    fn add(&mut self, phase: Option<Phase>)
        ensures active { self.new.has_active ≡ (self.old.has_active || active_by phase) }
        ensures done { self.new.has_done ≡ (self.old.has_done || done_by phase) }
        ensures pending { self.new.has_pending ≡ (self.old.has_pending || pending_by phase) }
    {
        match phase {
            None | Some(Phase::Idle) => {}
            Some(Phase::Pending) => {
                self.has_active = true;
                self.has_pending = true;
            }
            Some(Phase::Done) => {
                self.has_active = true;
                self.has_done = true;
            }
        }
    }
}

/// The phase of a rank's request; None if it is null.
pub(crate) fn phase(
    core: &Core,
    rank: u8,
    held: &[Option<Ticket>],
    q: usize,
) -> Result<Option<Phase>, Refusal>
    ensures { IfOk result (λ phase. phase ≡ phase_at (seen core.now) (held_at held.now q)) }
{
    match held_at(held, q) {
        Some(ticket) => Ok(Some(core.phase(rank, ticket)?)),
        None => Ok(None),
    }
}

/// What the requests of these numbers are. A refusal means that the engine has no such request of the rank.
pub(crate) fn surveyed(
    core: &Core,
    rank: u8,
    held: &[Option<Ticket>],
    named: &Named,
) -> Result<Survey, Refusal>
    ensures { IfOk result (IsSurvey (seen core.now) (holding held.now) named.now) }
{
    let mut survey = Survey {
        has_active: false,
        has_done: false,
        has_pending: false,
    };
    for index in 0..named.len() {
        let phase = phase(core, rank, held, named.get(index))?;
        survey.add(phase);
    }
    Ok(survey)
}

/// Completes a request of a rank if it is Done. Returns whether it was.
pub(crate) fn complete(
    core: &mut Core,
    rank: u8,
    held: &mut [Option<Ticket>],
    q: usize,
) -> Result<bool, Refusal>
    ensures setting { setting core.new ≡ setting core.old }
    ensures completes { IfOk result
        (λ is_done. CompletedIf is_done (setting core.old) rank q (seen core.old) (seen core.new) (holding held.old) (holding held.new)) }
{
    let Some(ticket) = held_at(held, q) else {
        return Ok(false);
    };
    match core.retire(rank, ticket)? {
        Some(_) => {
            let left = kept(core, ticket);
            if !hold(held, q, left) {
                return Err(Refusal::Torn);
            }
            Ok(true)
        }
        None => Ok(false),
    }
}

/// Completes each of these requests of a rank that is Done.
fn complete_each(
    core: &mut Core,
    rank: u8,
    held: &mut [Option<Ticket>],
    named: &Named,
) -> Result<(), Refusal>
    ensures setting { setting core.new ≡ setting core.old }
    ensures completes { OnOk result (Completes (setting core.old) rank named.now (seen core.old) (holding held.old) (seen core.new) (holding held.new)) }
{
    for index in 0..named.len() {
        complete(core, rank, held, named.get(index))?;
    }
    Ok(())
}

/// Completes those of these requests of a rank that are Done. Returns what they were before; None if one is Done after it.
pub(crate) fn sweep(
    core: &mut Core,
    rank: u8,
    held: &mut [Option<Ticket>],
    named: &Named,
) -> Result<Option<Survey>, Refusal>
    ensures { IfOk result (λ found. IfSome found (Sweeps core.old core.new rank named.now (holding held.old) (holding held.new))) }
{
    let before = surveyed(core, rank, held, named)?;
    complete_each(core, rank, held, named)?;
    let after = surveyed(core, rank, held, named)?;
    if after.has_done {
        return Ok(None);
    }
    Ok(Some(before))
}
