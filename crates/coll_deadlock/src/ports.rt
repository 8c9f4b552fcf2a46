//! Theorems about engines whose ports are in the lines of a job. A call does nothing at run time;
//! its contract is the theorem.

ghost use Rattle.coll_deadlock.specs.PortLaws.{AlwaysHereIsNoEnd, GoesOn, NeverHereIsNoStall, NoStallUnderLock, NotedAtLines, OpenAtLines};
ghost use Rattle.coll_deadlock.specs.PortLaws.{RegistersInLine, StallIsStall, StayAtLines, StaysInLine, StepsMayFinish};
ghost use Rattle.coll_deadlock.specs.PortRows.{CrossedComesToNoEnd, EndedIsAtNoLine, IsAwakeAtLine, NobodyIsAtLine, OtherIsAtNoLine, WaitsAtLine};

use coll_traced::{Entries, TracedCore};
use coll_verdict::laws::crossed_barriers_stall_by;

/// When an engine is opened all ports are awake, so they are in the lines of their ranks.
pub fn open_at_lines()
    ensures { OpenAtLines }
{}

/// A port is in its rank's next line if it is registered in that line's call, after a test which
/// said that the call isn't over.
pub fn registers_in_line()
    ensures { RegistersInLine }
{}

/// The port stays in that line, whatever other ranks do and whichever requests become Done.
pub fn stays_in_line()
    ensures { StaysInLine }
{}

/// So a step of the job leaves all ports in their ranks' lines, if each rank stays where it is or
/// has a port that is awake.
pub fn stay_at_lines()
    ensures { StayAtLines }
{}

/// So does a note about one port that is in its rank's line, awake, or at its rank's end.
pub fn noted_at_lines()
    ensures { NotedAtLines }
{}

/// The core under the lock continues a job's run, as the module `engine` says of each core.
pub fn goes_on<L: Entries>(traced: &TracedCore<L>)
    ensures { GoesOn traced.now.core }
{
    traced.knows_core();
}

/// A stalled engine whose ports are in the lines of a job shows a deadlock of the job's run, unless
/// all ranks are at their ends.
pub fn stall_is_stall<L: Entries>(traced: &TracedCore<L>)
    ensures { StallIsStall traced.now }
{
    traced.knows_core();
}

/// If by this engine's schedules no run of the job deadlocks, all ranks are at their ends in a
/// stalled engine.
pub fn never_here_is_no_stall<L: Entries>(traced: &TracedCore<L>)
    ensures { NeverHereIsNoStall traced.now }
{
    traced.knows_core();
}

/// Each step of the core, and each combination that is committed or taken back, means that perhaps
/// a request becomes Done.
pub fn steps_may_finish()
    ensures { StepsMayFinish }
{}

/// If by this engine's schedules no run of a job deadlocks, no order of calls by which its ranks
/// carry their lines out leads to a stalled engine, unless all ranks are at their ends.
pub fn no_stall_under_lock()
    ensures { NoStallUnderLock }
{}

/// If every such run deadlocks, no such calls lead to where all ranks are at their ends.
pub fn always_here_is_no_end()
    ensures { AlwaysHereIsNoEnd }
{}

/// A port that waits for a barrier is in the line of a rank that has posted the barrier and is at
/// its wait.
pub fn waits_at_line()
    ensures { WaitsAtLine }
{}

/// So is a port that can make calls.
pub fn is_awake_at_line()
    ensures { IsAwakeAtLine }
{}

/// A port that has ended isn't.
pub fn ended_is_at_no_line()
    ensures { EndedIsAtNoLine }
{}

/// A port that waits for another rank's request isn't.
pub fn other_is_at_no_line()
    ensures { OtherIsAtNoLine }
{}

/// A port that isn't there isn't.
pub fn nobody_is_at_line()
    ensures { NobodyIsAtLine }
{}

/// If two ranks post the barriers of two communicators crosswise, no calls lead to where both are
/// at their ends.
pub fn crossed_comes_to_no_end()
    ensures { CrossedComesToNoEnd }
{
    always_here_is_no_end();
    crossed_barriers_stall_by();
}
