//! Theorems about the engine's core, and about jobs whose ranks carry their lines out on it. A call
//! does nothing at run time; its contract is the theorem.

ghost use Rattle.coll_core.specs.Cores.{seen, setting};
ghost use Rattle.coll_deadlock.specs.CoreCalls.{CallsCarryOut};
ghost use Rattle.coll_deadlock.specs.Heard.{NoneEarly};
ghost use Rattle.coll_deadlock.specs.CoreLaws.{AlwaysHereNeverEnds, BeginsWhereOpened, ConfigsAreGroups, FinishIsStep, GoesOnByCalls, GoesOnByCommit};
ghost use Rattle.coll_deadlock.specs.CoreLaws.{GoesOnByStep, GoesOnBySteps, GoesOnWhereNothingChanges, NeverHereEnds, QuietIsSettled, QuietStalls};
ghost use Rattle.coll_deadlock.specs.CoreRows.{BothAreUnsettled, HearsMore, OneIsEarly, WaitsUnsettled};

use coll_core::Core;
use coll_core::laws::{between_calls, done_once_heard, lock_is_free};
use coll_verdict::laws::lone_barrier_never_stalls_by;

/// An engine is opened only with groups: at most 64 members, and no rank twice.
pub fn configs_are_groups()
    ensures { ConfigsAreGroups }
{}

/// In a quiet core (no request ready, no combination handed out) each request is Done to whose
/// start all members have given on whom its value rests, and all whom its member hears by the end
/// of its schedule.
pub fn quiet_is_settled(core: &Core)
    ensures { QuietIsSettled core.now }
{
    lock_is_free(core);
    done_once_heard(core);
}

/// No request is Done before that.
pub fn none_is_early(core: &Core)
    ensures { NoneEarly (setting core.now) (seen core.now) }
{
    between_calls(core);
    lock_is_free(core);
    done_once_heard(core);
}

/// So a Finish by a call of the core is a step of a library whose requests wait for the members
/// that their own members hear.
pub fn finish_is_step()
    ensures { FinishIsStep }
{}

/// A run of a job begins where the engine was just opened.
pub fn begins_where_opened()
    ensures { BeginsWhereOpened }
{}

/// A call that carries a rank's next line out continues the run, whether or not a request becomes
/// Done after it.
pub fn goes_on_by_calls(core: &Core)
    ensures { GoesOnByCalls core.now }
{
    none_is_early(core);
}

/// Each accepted call carries its line out, by what its contract says.
pub fn calls_carry_out(core: &Core)
    ensures { CallsCarryOut core.now }
{
    goes_on_by_calls(core);
}

/// A step of the core continues the run.
pub fn goes_on_by_step(core: &Core)
    ensures { GoesOnByStep core.now }
{
    none_is_early(core);
}

/// A committed combination continues the run.
pub fn goes_on_by_commit(core: &Core)
    ensures { GoesOnByCommit core.now }
{
    none_is_early(core);
}

/// The steps that `settle` makes continue the run.
pub fn goes_on_by_steps(core: &Core)
    ensures { GoesOnBySteps core.now }
{
    none_is_early(core);
}

/// What changes nothing that callers see, as a refused call, continues the run.
pub fn goes_on_where_nothing_changes(core: &Core)
    ensures { GoesOnWhereNothingChanges core.now }
{
    none_is_early(core);
}

/// If the core is quiet, and each rank is at its end or waits, the run is deadlocked, or all ranks
/// are at their ends.
pub fn quiet_stalls(core: &Core)
    ensures { QuietStalls core.now }
{
    quiet_is_settled(core);
}

/// If by this engine's schedules no run of the job deadlocks, all ranks are at their ends then.
pub fn never_here_ends(core: &Core)
    ensures { NeverHereEnds core.now }
{
    quiet_is_settled(core);
}

/// If by this engine's schedules every run of the job deadlocks, the job isn't brought to its end.
pub fn always_here_never_ends(core: &Core)
    ensures { AlwaysHereNeverEnds core.now }
{
    let _core = core;
}

/// `quiet_is_settled` isn't true of every machine: not of two ranks' barrier that both have posted
/// and that isn't Done.
pub fn both_are_unsettled()
    ensures { BothAreUnsettled }
{}

/// `none_is_early` isn't true of every machine: not of a barrier that is Done and that one of two
/// ranks has posted.
pub fn one_is_early()
    ensures { OneIsEarly }
{}

/// While something can still go on, a rank may wait though no run of its job deadlocks.
pub fn waits_unsettled()
    ensures { WaitsUnsettled }
{
    lone_barrier_never_stalls_by();
}

/// By the schedules a member waits for more members than those on whom its value rests.
pub fn hears_more()
    ensures { HearsMore }
{}
