//! What witnesses mean for all runs, and worked rows. A call does nothing at run time; its contract is the theorem.

ghost use Rattle.coll_replay.specs.Laws.{EndsIsNotAlways, StallsIsNotNever};
ghost use Rattle.coll_replay.specs.Rows.{CrossedBarriersEndInNone, EmptyJobEndsInSome, LoneBarrierStallsInNone, UnmetBarrierStallsInSome};

use coll_verdict::laws::{
    crossed_barriers_stall_by, lone_barrier_never_stalls_by, never_is_never_by,
};

/// If some run stalls, it isn't so that none does.
pub fn stalls_is_not_never()
    ensures { StallsIsNotNever }
{
    never_is_never_by();
}

/// If some run ends, it isn't so that each stalls.
pub fn ends_is_not_always()
    ensures { EndsIsNotAlways }
{}

/// If a rank posts a barrier with a member that says nothing, some run stalls.
pub fn unmet_barrier_stalls_in_some()
    ensures { UnmetBarrierStallsInSome }
{}

/// If one rank posts a barrier of its own, none does.
pub fn lone_barrier_stalls_in_none()
    ensures { LoneBarrierStallsInNone }
{
    lone_barrier_never_stalls_by();
}

/// If a job has no ranks, some run ends.
pub fn empty_job_ends_in_some()
    ensures { EmptyJobEndsInSome }
{}

/// If two ranks post the barriers of two communicators crosswise, none does.
pub fn crossed_barriers_end_in_none()
    ensures { CrossedBarriersEndInNone }
{
    crossed_barriers_stall_by();
}
