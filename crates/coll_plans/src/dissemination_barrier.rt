//! Principle: dissemination. In the step at distance s = 1, 2, 4, .. each member sends an empty message to the member s
//! further, counted round, and receives one of the member s before. After it the member has heard the 2 s members that end
//! with itself.
//!
//! Rounds: d = ceil(log2 n), each of them an exchange. Messages: n d together, of no bytes; each member sends d and receives
//! d. A buffer has no bytes.
//!
//! Cost, with a latency L for each exchange: d L.

ghost use Rattle.std.specs.Prelude.{◌≡◌, ◌<◌, ◌≤◌, IfOk, IsOkUnless};
ghost use Rattle.coll_kinds.specs.declared.kind.Kind.TheVariants.{Barrier};
ghost use Rattle.coll_trees.specs.Columns.{rounds_of};
ghost use Rattle.coll_trees.specs.Depths.{depth};
ghost use Rattle.coll_trees.specs.Trees.{IsNarrowFor};
ghost use Rattle.coll_plans.specs.DisseminationBarrier.{barrier_round, barrier_rounds, barrier_family};

use coll_kinds::{Refusal, Signature};
use coll_sched::{Action, Region, Round, Schedule};
use coll_trees::depth_of;
use std::alloc::Global;

/// Member `r`'s schedule of a barrier among `n` members (MPI 4.1, 6.3), by dissemination: empty messages at
/// distances 1, 2, 4, .. reach all in as many rounds as it takes to double up to `n`. Refuses
/// [`Refusal::NoMemory`] alone.
pub fn barrier(alloc: Global, sig: Signature, n: u8, r: u8) -> Result<Schedule, Refusal>
    requires kind { sig.kind ≡ Barrier }
    requires member { r < n }
    requires few { n ≤ 64 }
    ensures schedule { IfOk result (λ s. s ≡ barrier_family sig n r) }
    ensures family { IsNarrowFor sig n (barrier_family sig n) (depth n) }
    ensures refusal { IsOkUnless result Refusal.NoMemory }
{
    let _ = sig;
    let rounds = barrier_rounds(alloc, n, r)?;
    Ok(Schedule::of_lawful_rounds(0, Region::EMPTY, Region::EMPTY, rounds))
}

// The rounds of member r, one for each step.
fn barrier_rounds(alloc: Global, n: u8, r: u8) -> Result<Vec<Round>, Refusal>
    requires member { r < n }
    requires few { n ≤ 64 }
    ensures ok { IfOk result (λ rounds. rounds.items ≡ rounds_of (barrier_rounds n 0 (depth n)) r) }
    ensures refusal { IsOkUnless result Refusal.NoMemory }
{
    let steps = depth_of(n);
    let mut rounds = Vec::with_capacity(alloc, usize::from(steps))?;
    for step in 0..steps {
        let round = barrier_round(alloc, n, r, 2u8.pow(u32::from(step)))?;
        rounds.push(round)?;
    }
    Ok(rounds)
}

// The round of member r in the step at that distance.
fn barrier_round(alloc: Global, n: u8, r: u8, distance: u8) -> Result<Round, Refusal>
    requires member { r < n }
    requires few { n ≤ 64 }
    requires near { distance < n }
    ensures ok { IfOk result (λ round. round ≡ barrier_round n distance r) }
    ensures refusal { IsOkUnless result Refusal.NoMemory }
{
    let mut round = Round::new(alloc);
    round.push(Action::Send {
        to: (r + distance) % n,
        from: Region::EMPTY,
    })?;
    round.push(Action::Recv {
        of: (r + (n - distance)) % n,
        into: Region::EMPTY,
    })?;
    Ok(round)
}
