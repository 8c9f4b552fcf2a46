//! What is known of every plan's family, as contracts of functions that do nothing, so that a crate
//! above may cite it.

ghost use Rattle.coll_plans.specs.Hearings.{HeardIsHeard};
ghost use Rattle.coll_plans.specs.JoinRows.{OthersAreNotJoined};
ghost use Rattle.coll_plans.specs.Plans.{FamiliesServe};

/// The family of every checked signature serves it, for 1 to 64 members: it is lawful, its lock-step result is the
/// collective's value, and each member hears all whom it needs. Its exchanges are within the kind's bound,
/// and it is narrow unless the kind is direct.
pub fn families_serve()
    ensures { FamiliesServe }
{}

/// The computed `hears_here` is what the proofs of schedules speak of: what a member gave can have reached another by the end of
/// the other's schedule.
pub fn heard_is_heard()
    ensures { HeardIsHeard }
{}

/// `JoinsRows` isn't true of just any members: in round 3 member 2 of five doesn't join the rows of members 0 and 1 alone.
pub fn others_are_not_joined()
    ensures { OthersAreNotJoined }
{}
