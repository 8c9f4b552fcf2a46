//! Texts that go on only if a wait returns in time, and texts in which no wait can return.

use crate::run_tests::CROSSED_BARRIERS;
use crate::running::{first_misfit, first_other_end};
use coll_script::JobFault;
use std::test::Fail;

const BARRIERS: &str = "rank 0 req 0 start 0 :\nrank 0 req 1 start 0 :\nrank 0 req 2 start 0 :\n\
    rank 1 req 0 start 0 :\nrank 1 req 1 start 0 :\nrank 1 req 2 start 0 :\n";

/// Rank 0 waits for any of two barriers. The second can't be done before rank 0 has gone on to a third.
const ANY_OF_TWO: &str = "ranks 2\ncomm 0 1\ncomm 0 1\ncomm 0 1\n\
     rank 0\npost 1 barrier\npost 2 barrier\nwaitany 0 1\npost 3 barrier\n\
     rank 1\npost 1 barrier\npost 3 barrier\nwait 1\npost 2 barrier\n";

/// The same text with a wait for some, in which the barrier that is done is named last.
const SOME_OF_TWO: &str = "ranks 2\ncomm 0 1\ncomm 0 1\ncomm 0 1\n\
     rank 0\npost 1 barrier\npost 2 barrier\nwaitsome 1 0\npost 3 barrier\n\
     rank 1\npost 1 barrier\npost 3 barrier\nwait 1\npost 2 barrier\n";

/// Two ranks wait for one another's first posts, one for any and one for some.
const CROSSED_ANY_AND_SOME: &str = "ranks 2\ncomm 0 1\ncomm 0 1\n\
     rank 0\npost 1 barrier\nwaitany 0\npost 2 barrier\n\
     rank 1\npost 2 barrier\nwaitsome 0\npost 1 barrier\n";

/// Ranks 1 and 2 wait for one another, and rank 0 has nothing to do.
const STALL_OF_THREE: &str = "ranks 3\ncomm 1 2\ncomm 1 2\n\
     rank 1\npost 1 barrier\nwait 0\npost 2 barrier\nwait 1\n\
     rank 2\npost 2 barrier\nwait 0\npost 1 barrier\nwait 1\n";

/// Ranks 1 and 2 wait for one another, and rank 0 gets the value for which it asks.
const STALL_BESIDE_THE_FIRST: &str =
    "ranks 3\ncomm 1 2\ncomm 1 2\ncomm 0\nrank 0\npost 3 allreduce sum i8 1 : 1\n\
     rank 1\npost 1 barrier\nwait 0\npost 2 barrier\n\
     rank 2\npost 2 barrier\nwait 0\npost 1 barrier\n";

/// Ranks 0 and 1 wait for one another, and rank 2 has nothing to do.
const STALL_BESIDE_THE_LAST: &str = "ranks 3\ncomm 0 1\ncomm 0 1\n\
     rank 0\npost 1 barrier\nwait 0\npost 2 barrier\n\
     rank 1\npost 2 barrier\nwait 0\npost 1 barrier\n";

/// Each of three ranks waits for a post that the next one makes only after its own wait.
const STALL_IN_A_RING: &str = "ranks 3\ncomm 0 1\ncomm 1 2\ncomm 2 0\n\
     rank 0\npost 1 barrier\nwait 0\npost 3 barrier\n\
     rank 1\npost 2 barrier\nwait 0\npost 1 barrier\n\
     rank 2\npost 3 barrier\nwait 0\npost 2 barrier\n";

/// The number of progress threads of a job: as many as a job may have, and all smaller numbers.
const WORKERS: &[u8] = &[0, 1, 2, 3, 4, 5, 6, 7, 8];

const GO_ON: &[(&str, &str)] = &[(ANY_OF_TWO, BARRIERS), (SOME_OF_TWO, BARRIERS)];

#[test]
fn waits_that_go_on(rt: HostRuntime) -> Result<(), Fail> {
    assert!(rt; first_misfit(&rt, rt.alloc(), GO_ON, WORKERS).is_none());
    Ok(())
}

const STALLS: &[(&str, JobFault)] = &[
    (CROSSED_BARRIERS, JobFault::Stalled),
    (CROSSED_ANY_AND_SOME, JobFault::Stalled),
    (STALL_OF_THREE, JobFault::Stalled),
    (STALL_BESIDE_THE_FIRST, JobFault::Stalled),
    (STALL_BESIDE_THE_LAST, JobFault::Stalled),
    (STALL_IN_A_RING, JobFault::Stalled),
];

#[test]
fn waits_that_stall(rt: HostRuntime) -> Result<(), Fail> {
    assert!(rt; first_other_end(&rt, rt.alloc(), STALLS, WORKERS).is_none());
    Ok(())
}
