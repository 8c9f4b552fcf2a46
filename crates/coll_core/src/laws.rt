//! Theorems about the engine. A call does nothing at run time; its contract is the theorem.

ghost use Rattle.std.specs.Prelude.{◌<◌};
ghost use Rattle.coll_refinement.specs.FreeLocks.{FreeLock};
ghost use Rattle.coll_lists.specs.WellLinked.{IsWellLinked};
ghost use Rattle.coll_arena.specs.ListNames.{list_count, number_of};
ghost use Rattle.coll_core.specs.BetweenCalls.{BetweenCalls};
ghost use Rattle.coll_core.specs.Cores.{tables};
ghost use Rattle.coll_core.specs.LockSteps.{OfLockStep};
ghost use Rattle.coll_core.specs.Phases.{AreDoneOnceHeard, IsFinished, IsQuiet};
ghost use Rattle.coll_core.specs.Steps.{IsOut};
ghost use Rattle.coll_core.specs.Works.{Piece};

use crate::engine::Core;
use coll_arena::{ListName, laws as arena_laws};
use coll_lists::Columns;

/// The invariant between calls, in the words of the machine and of the lists. Each slot stands on
/// one list, once, which names its request's phase and what the request waits for. Any two posting
/// lists of a communicator agree, and each live request stands for its entry. Each Done request
/// holds its value. The lent bytes are the sum over the active requests.
pub fn between_calls(core: &Core)
    ensures { BetweenCalls core.now }
{
    core.check_between();
}

/// Each list reads alike forwards and backwards, in the columns that hold its links.
pub fn is_well_linked(core: &Core, list: ListName) -> &Columns
    requires { number_of list < list_count core.now.arena.comms }
    ensures { IsWellLinked result.now core.now.arena.lists (number_of list) }
{
    arena_laws::is_well_linked(core.arena(), list)
}

/// What `between_calls` says of requests and posting lists, in the words of `coll_refinement`.
pub fn lock_is_free(core: &Core)
    ensures { FreeLock (tables core.now) }
{
    core.check();
}

/// The operands of a handed-out combination are the member's operands in lock-step, over all that
/// was given to its start.
pub fn operands_are_of_lock_step(core: &Core)
    ensures { (work : Piece) → IsOut core.now work → OfLockStep core.now work }
{
    core.check_operands();
}

/// In a quiet engine each start to which all members have given is Done at each member that works
/// on it.
pub fn quiet_is_finished(core: &Core)
    ensures { IsQuiet core.now → IsFinished core.now }
{
    core.check();
    core.check_quiet();
}

/// A start is Done at a member only if all members have given on whom that member's result depends
/// through its schedule. In a quiet engine it is Done whenever they have.
pub fn done_once_heard(core: &Core)
    ensures { AreDoneOnceHeard core.now }
{
    core.check();
    core.check_quiet();
}
