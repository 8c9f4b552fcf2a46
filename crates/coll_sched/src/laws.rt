//! Laws of families of schedules. Each is the contract of a function that does nothing, so a crate
//! above may cite it.

ghost use Rattle.coll_sched.specs.Heart.{Heart, Finishes, FinishesHeard};
ghost use Rattle.coll_sched.specs.Orders.{BoundsMembers, Commutes, RestsOnHeard};
ghost use Rattle.coll_sched.specs.Points.{Ends, GoesOver, KeepsRemaining, LowersRemaining};
ghost use Rattle.coll_sched.specs.Served.{HeldValue};
ghost use Rattle.coll_sched.specs.Tracked.{ReachedTracks, StepsTrack, TrackedFinishes, TrackedFinishesHeard, TrackedHolds, TrackedValue};
ghost use Rattle.coll_sched.specs.Tracked.{UnbegunRests, UnbegunTracks};
ghost use Rattle.coll_sched.specs.Views.{Empties, Skips};
ghost use Rattle.coll_sched.specs.Writers.{RestsOnWriters};

/// The heart: in a lawful family, whatever the interleaving of its members' actions, a member that has
/// done all of them has the lock-step result over what was given, and all whom it has heard have
/// joined. The operands of a Combine about to be done are those of lock-step, a message taken has its
/// region's length, and a Send finds no message under its key.
pub fn heart()
    ensures { Heart }
{}

/// A member that has done all its actions in a family that serves a signature holds the collective's
/// value, and all whom it needs have joined.
pub fn holds_value()
    ensures { HeldValue }
{}

/// Quiet means finished: once all have joined, a world in which no member can go on is one in which
/// each has done all its actions.
pub fn quiet_is_finished()
    ensures { Finishes }
{}

/// A member is finished before all have joined: in a world in which no member can go on, each whose heard have joined has done
/// all its actions.
pub fn quiet_has_heard()
    ensures { FinishesHeard }
{}

/// Once all have joined and left, no message stands.
pub fn nothing_stands()
    ensures { Empties }
{}

/// A member's buffer before a round is the same for two inputs that agree on those whom it has heard.
pub fn rests_on_heard()
    ensures { RestsOnHeard }
{}

/// The writes of one round commute, so they are done at once.
pub fn writes_commute()
    ensures { Commutes }
{}

/// What a round does to a region rests on those of its actions alone that write bytes of the region.
pub fn rests_on_writers()
    ensures { RestsOnWriters }
{}

/// No member has more exchanges than its family.
pub fn bounds_members()
    ensures { BoundsMembers }
{}

/// Passing over the ends of several rounds in one go keeps what holds of a running instance.
pub fn skips_empty_rounds()
    ensures { Skips }
{}

/// The same with the point itself as the first case, as `Schedule::following` gives it.
pub fn goes_over()
    ensures { GoesOver }
{}

/// What remains of a schedule: going over ends of rounds keeps it, an action lowers it by one, and it is nothing
/// exactly at the end.
pub fn remaining_falls()
    ensures keeps { KeepsRemaining }
    ensures lowers { LowersRemaining }
    ensures ends { Ends }
{}

/// What an engine has to keep of an instance, call by call: each event keeps it on its track, and every world that
/// is reached is on it; one that nobody has joined is on that of every family; who hasn't joined has no next action.
pub fn worlds_track()
    ensures steps { StepsTrack }
    ensures reached { ReachedTracks }
    ensures unbegun { UnbegunTracks }
    ensures rests { UnbegunRests }
{}

/// What it may conclude of a world on its track: the heart, the value of a member that has done all its actions, and
/// that quiet means finished.
pub fn tracks_hold()
    ensures holds { TrackedHolds }
    ensures value { TrackedValue }
    ensures finishes { TrackedFinishes }
    ensures finishes_heard { TrackedFinishesHeard }
{}
