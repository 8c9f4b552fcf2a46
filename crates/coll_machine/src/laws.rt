//! What holds of every run and every legal trace. A call does nothing; its contract is the law.

ghost use Rattle.coll_machine.specs.Laws.{StepsAreTraced, RunsAreTraced, TracesAreRun, ReservedChanges, LegalGoesOn};
ghost use Rattle.coll_machine.specs.Laws.{TracesArePosted, RunsArePosted, DoneIsHeld, LentChanges};
ghost use Rattle.coll_machine.specs.Rows.{RowsAreLegal, BarrierWaits};

/// A trace that leads to the machine's state does so after each step, with the step's entry if it has one.
pub fn steps_are_traced()
    ensures { StepsAreTraced }
{}

/// Each run has a trace that leads to its machine's state: the entries of its calls, in their order.
pub fn runs_are_traced()
    ensures { RunsAreTraced }
{}

/// And each legal trace is that of a run, in which each request finishes right before it is completed.
pub fn traces_are_run()
    ensures { TracesAreRun }
{}

/// A post, an initialisation and a start reserve one entry of the trace's room, a completion and a free use one.
pub fn reserved_changes()
    ensures { ReservedChanges }
{}

/// A legal trace stays one with an entry that may come next and has room; a completion and a free always have it.
pub fn legal_goes_on()
    ensures { LegalGoesOn }
{}

/// Where a legal trace leads, the posting lists of a communicator agree at each place that two members both have
/// (MPI 4.1, 6.12), each live request has the signature that its member's list has at its place, and no two live
/// requests of one member share communicator and place.
pub fn traces_are_posted()
    ensures { TracesArePosted }
{}

/// So they do after each run.
pub fn runs_are_posted()
    ensures { RunsArePosted }
{}

/// In each run a request that is Done can be completed: those on whom its value rests have given, and what they gave
/// is kept until then.
pub fn done_is_held()
    ensures { DoneIsHeld }
{}

/// A post and a start lend the bytes of one start, the given and the got together, and its completion gives them back;
/// an initialisation and a free change nothing of them.
pub fn lent_changes()
    ensures { LentChanges }
{}

/// The traces of the worked rows are legal, so what the other laws ask for can be met: a bcast whose late member posts
/// when its root has left, and a persistent request that one member starts twice while the other holds start 0.
pub fn rows_are_legal()
    ensures { RowsAreLegal }
{}

/// A barrier that one of two members has posted can't be completed (MPI 4.1, 6.12.1).
pub fn barrier_waits()
    ensures { BarrierWaits }
{}
