//! Theorems about the runs of all jobs. A call does nothing at run time; its contract is the
//! theorem.

ghost use Rattle.coll_verdict.specs.Lasts.{EndsAtLast, LastIsStalled, StallsAtLast};
ghost use Rattle.coll_verdict.specs.Laws.{AlwaysIsAlwaysBy, ClosedStandsStall, ClosedStandsStallBy, EmptyJobEnds, NeverIsNeverBy, PassesDontStall};
ghost use Rattle.coll_verdict.specs.Laws.{PassesDontStallBy};
ghost use Rattle.coll_verdict.specs.Rows.{CrossedBarriersMayStall, CrossedBarriersMayStallBy, CrossedBarriersStall, CrossedBarriersStallBy};
ghost use Rattle.coll_verdict.specs.Rows.{CrossedEmptiesMayEnd, CrossedInitsMayStall, CrossedInitsNeverStallBy, CrossedRunIsLast, LoneBarrierEnds};
ghost use Rattle.coll_verdict.specs.Rows.{LoneBarrierEndsBy, LoneBarrierNeverStalls, LoneBarrierNeverStallsBy};

/// No run goes beyond a closed frontier. So no run ends if a rank of the frontier is short of its
/// end.
pub fn closed_stands_stall()
    ensures { ClosedStandsStall }
{}

/// If the ranks can carry all their commands out in some order in which none waits, no run
/// deadlocks.
pub fn passes_dont_stall()
    ensures { PassesDontStall }
{}

/// `closed_stands_stall` for a library of which it is known for whom its requests wait.
pub fn closed_stands_stall_by()
    ensures { ClosedStandsStallBy }
{}

/// `passes_dont_stall` for a library of which it is known for whom its requests wait.
pub fn passes_dont_stall_by()
    ensures { PassesDontStallBy }
{}

/// A job that deadlocks in every run with every library does so with one such library.
pub fn always_is_always_by()
    ensures { AlwaysIsAlwaysBy }
{}

/// A job that deadlocks in no run with any library deadlocks in none with one such library.
pub fn never_is_never_by()
    ensures { NeverIsNeverBy }
{}

/// A run that can't go on, though no call is refused, is deadlocked, or each rank is at its end.
pub fn last_is_stalled()
    ensures { LastIsStalled }
{}

/// If no run ends, a run that can't go on, though no call is refused, is deadlocked: each rank is
/// at its end or waits.
pub fn stalls_at_last()
    ensures { StallsAtLast }
{}

/// If no run deadlocks, a run that can't go on, though no call is refused, is at its end.
pub fn ends_at_last()
    ensures { EndsAtLast }
{}

/// "No run ends" isn't true of every job: a job without ranks is at its end as it begins.
pub fn empty_job_ends()
    ensures { EmptyJobEnds }
{}

/// A job of one rank that posts a barrier and waits for it has a run that ends.
pub fn lone_barrier_ends()
    ensures { LoneBarrierEnds }
{}

/// No run of that job deadlocks.
pub fn lone_barrier_never_stalls()
    ensures { LoneBarrierNeverStalls }
{}

/// No run ends if two ranks post the barriers of two communicators crosswise, and each waits for
/// its first barrier.
pub fn crossed_barriers_stall()
    ensures { CrossedBarriersStall }
{}

/// So "no run deadlocks" isn't true of these crossed barriers.
pub fn crossed_barriers_may_stall()
    ensures { CrossedBarriersMayStall }
{}

/// A run of the crossed barriers comes to where it can't go on, though no call is refused.
pub fn crossed_run_is_last()
    ensures { CrossedRunIsLast }
{}

/// "No run deadlocks" isn't true of two ranks that initialise on two communicators crosswise,
/// because MPI lets an initialisation wait for the other members.
pub fn crossed_inits_may_stall()
    ensures { CrossedInitsMayStall }
{}

/// "No run ends" isn't said of crossed collectives of no elements, for which a library needn't
/// wait.
pub fn crossed_empties_may_end()
    ensures { CrossedEmptiesMayEnd }
{}

/// With a library of which it is known for whom its requests wait, whoever that is, no run of the
/// crossed barriers ends.
pub fn crossed_barriers_stall_by()
    ensures { CrossedBarriersStallBy }
{}

/// With such a library one rank's barrier has a run that ends.
pub fn lone_barrier_ends_by()
    ensures { LoneBarrierEndsBy }
{}

/// With such a library no run of one rank's barrier deadlocks.
pub fn lone_barrier_never_stalls_by()
    ensures { LoneBarrierNeverStallsBy }
{}

/// With such a library "no run deadlocks" isn't true of the crossed barriers.
pub fn crossed_barriers_may_stall_by()
    ensures { CrossedBarriersMayStallBy }
{}

/// With such a library no run of the crossed initialisations deadlocks, because its initialisations
/// don't wait.
pub fn crossed_inits_never_stall_by()
    ensures { CrossedInitsNeverStallBy }
{}
