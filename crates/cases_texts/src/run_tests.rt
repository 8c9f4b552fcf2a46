//! Job texts run by threads, with their lines or their fault.

use crate::running::{first_misfit, first_other_end};
use crate::texts::STARTS_OUT_OF_ORDER;
use coll_bytes::Bytes;
use coll_core::Outcome;
use coll_report::{Entry, Report};
use coll_run::run_job;
use coll_script::{Cause, Fault, JobFault};
use coll_shared::NoGate;
use std::test::Fail;

/// The numbers of progress threads with which the texts are run.
const WORKERS: &[u8] = &[0, 1, 2, 8];

const SUM_OF_THREE: (&str, &str) = (
    "ranks 3\nrank 0\npost 0 allreduce sum i32 1 : 1\nrank 1\npost 0 allreduce sum i32 1 : 2\n\
     rank 2\npost 0 allreduce sum i32 1 : 3\n",
    "rank 0 req 0 start 0 : 6\nrank 1 req 0 start 0 : 6\nrank 2 req 0 start 0 : 6\n",
);

const ONE_MEMBER_KEEPS_ITS_VALUE: (&str, &str) = (
    "ranks 1\nrank 0\npost 0 allreduce land i32 1 : 5\n",
    "rank 0 req 0 start 0 : 5\n",
);

const LAND_OF_TWO: (&str, &str) = (
    "ranks 2\nrank 0\npost 0 allreduce land i32 1 : 5\nrank 1\npost 0 allreduce land i32 1 : 5\n",
    "rank 0 req 0 start 0 : 1\nrank 1 req 0 start 0 : 1\n",
);

const SUM_WRAPS: (&str, &str) = (
    "ranks 2\nrank 0\npost 0 allreduce sum i8 1 : 127\nrank 1\npost 0 allreduce sum i8 1 : 1\n",
    "rank 0 req 0 start 0 : -128\nrank 1 req 0 start 0 : -128\n",
);

const LASTNZ_IN_ORDER: (&str, &str) = (
    "ranks 3\nrank 0\npost 0 reduce 2 lastnz i32 1 : 3\nrank 1\npost 0 reduce 2 lastnz i32 1 : 0\n\
     rank 2\npost 0 reduce 2 lastnz i32 1 : 5\n",
    "rank 0 req 0 start 0 :\nrank 1 req 0 start 0 :\nrank 2 req 0 start 0 : 5\n",
);

const ALLTOALL_OF_THREE: (&str, &str) = (
    "ranks 3\nrank 0\npost 0 alltoall u8 1 : 1 2 3\nrank 1\npost 0 alltoall u8 1 : 4 5 6\n\
     rank 2\npost 0 alltoall u8 1 : 7 8 9\n",
    "rank 0 req 0 start 0 : 1 4 7\nrank 1 req 0 start 0 : 2 5 8\nrank 2 req 0 start 0 : 3 6 9\n",
);

const EXSCAN_OF_THREE: (&str, &str) = (
    "ranks 3\nrank 0\npost 0 exscan sum i32 1 : 1\nrank 1\npost 0 exscan sum i32 1 : 2\n\
     rank 2\npost 0 exscan sum i32 1 : 3\n",
    "rank 0 req 0 start 0 :\nrank 1 req 0 start 0 : 1\nrank 2 req 0 start 0 : 3\n",
);

const ALLGATHER_OF_FIVE: (&str, &str) = (
    "ranks 5\nrank 4\npost 0 allgather u16 1 : 50\nrank 0\npost 0 allgather u16 1 : 10\n\
     rank 3\npost 0 allgather u16 1 : 40\nrank 2\npost 0 allgather u16 1 : 30\n\
     rank 1\npost 0 allgather u16 1 : 20\n",
    "rank 0 req 0 start 0 : 10 20 30 40 50\nrank 1 req 0 start 0 : 10 20 30 40 50\n\
     rank 2 req 0 start 0 : 10 20 30 40 50\nrank 3 req 0 start 0 : 10 20 30 40 50\n\
     rank 4 req 0 start 0 : 10 20 30 40 50\n",
);

const MAXLOC_OF_THREE: (&str, &str) = (
    "ranks 3\nrank 0\npost 0 allreduce maxloc 2int 1 : 7,2\nrank 1\npost 0 allreduce maxloc 2int 1 : 9,5\n\
     rank 2\npost 0 allreduce maxloc 2int 1 : 9,1\n",
    "rank 0 req 0 start 0 : 9,1\nrank 1 req 0 start 0 : 9,1\nrank 2 req 0 start 0 : 9,1\n",
);

const MINLOC_OF_THREE: (&str, &str) = (
    "ranks 3\nrank 0\npost 0 allreduce minloc 2int 1 : -3,4\nrank 1\npost 0 allreduce minloc 2int 1 : -3,0\n\
     rank 2\npost 0 allreduce minloc 2int 1 : 8,1\n",
    "rank 0 req 0 start 0 : -3,0\nrank 1 req 0 start 0 : -3,0\nrank 2 req 0 start 0 : -3,0\n",
);

const ALLGATHERV_OF_THREE: (&str, &str) = (
    "ranks 3\nrank 0\npost 0 allgatherv i16 2 0 1 : 1 2\nrank 1\npost 0 allgatherv i16 2 0 1\n\
     rank 2\npost 0 allgatherv i16 2 0 1 : 9\n",
    "rank 0 req 0 start 0 : 1 2 9\nrank 1 req 0 start 0 : 1 2 9\nrank 2 req 0 start 0 : 1 2 9\n",
);

const ALLGATHERV_OF_ONE: (&str, &str) = (
    "ranks 1\nrank 0\npost 0 allgatherv u8 1 : 5\n",
    "rank 0 req 0 start 0 : 5\n",
);

/// A persistent allgatherv on a communicator of two of three ranks, in reverse order.
const ALLGATHERV_STARTED_TWICE: (&str, &str) = (
    "ranks 3\ncomm 2 0\nrank 0\ninit 1 allgatherv u8 1 2\nstart 0 : 3 4\nwait 0\nstart 0 : 5 6\n\
     rank 2\ninit 1 allgatherv u8 1 2\nstart 0 : 1\nwaitall\nstart 0 : 2\n",
    "rank 0 req 0 start 0 : 1 3 4\nrank 0 req 0 start 1 : 2 5 6\n\
     rank 2 req 0 start 0 : 1 3 4\nrank 2 req 0 start 1 : 2 5 6\n",
);

const EMPTY_BCAST: (&str, &str) = (
    "ranks 2\nrank 0\npost 0 bcast 1 i32 0\nrank 1\npost 0 bcast 1 i32 0\n",
    "rank 0 req 0 start 0 :\nrank 1 req 0 start 0 :\n",
);

const COMMENTS_AND_LEADING_ZEROS: (&str, &str) = (
    "# x\nranks 1\n\nrank 0\npost 0 bcast 0 i8 2 : -1 007\n",
    "rank 0 req 0 start 0 : -1 7\n",
);

/// Each of two ranks tests one request, frees another, and completes the last one by the unwritten `waitall`.
const TESTED_AND_FREED: (&str, &str) = (
    "ranks 2\nrank 0\npost 0 allgather u8 1 : 1\ninit 0 barrier\nstart 1\ntest 0\nwait 1\nfree 1\npost 0 barrier\n\
     rank 1\npost 0 allgather u8 1 : 2\ninit 0 barrier\nstart 1\ntest 0\nwait 1\nfree 1\npost 0 barrier\n",
    "rank 0 req 0 start 0 : 1 2\nrank 0 req 1 start 0 :\nrank 0 req 2 start 0 :\n\
     rank 1 req 0 start 0 : 1 2\nrank 1 req 1 start 0 :\nrank 1 req 2 start 0 :\n",
);

/// Each of two ranks waits for one of two requests, then for some of three, and then for requests of which none is active.
const ANY_AND_SOME: (&str, &str) = (
    "ranks 2\nrank 0\npost 0 allgather u8 1 : 1\npost 0 barrier\npost 0 scan sum i8 1 : 3\n\
     waitany 1 0\nwaitsome 2 0 1\nwaitall 0 1\nwaitany 0 1\nwaitsome 1\n\
     rank 1\npost 0 allgather u8 1 : 2\npost 0 barrier\npost 0 scan sum i8 1 : 4\n\
     waitany 2\nwaitsome 2 1\nwaitany 2 1 0\nwaitall\nwaitsome 0 1 2\nwaitany 0\n",
    "rank 0 req 0 start 0 : 1 2\nrank 0 req 1 start 0 :\nrank 0 req 2 start 0 : 3\n\
     rank 1 req 0 start 0 : 1 2\nrank 1 req 1 start 0 :\nrank 1 req 2 start 0 : 7\n",
);

/// A request that has more starts than the whole text has requests.
const STARTED_AGAIN: (&str, &str) = (
    "ranks 2\nrank 0\ninit 0 allgather u8 1\nstart 0 : 1\nwait 0\nstart 0 : 3\nwait 0\nstart 0 : 5\n\
     rank 1\ninit 0 allgather u8 1\nstart 0 : 2\nwaitall\nstart 0 : 4\nwaitall\nstart 0 : 6\n",
    "rank 0 req 0 start 0 : 1 2\nrank 0 req 0 start 1 : 3 4\nrank 0 req 0 start 2 : 5 6\n\
     rank 1 req 0 start 0 : 1 2\nrank 1 req 0 start 1 : 3 4\nrank 1 req 0 start 2 : 5 6\n",
);

/// Two ranks wait for one another's first posts on two communicators.
pub(crate) const CROSSED_BARRIERS: &str =
    "ranks 2\ncomm 0 1\ncomm 0 1\nrank 0\npost 1 barrier\nwait 0\npost 2 barrier\nwait 1\n\
     rank 1\npost 2 barrier\nwait 0\npost 1 barrier\nwait 1\n";

/// Texts and their lines.
const LINES: &[(&str, &str)] = &[
    SUM_OF_THREE,
    ONE_MEMBER_KEEPS_ITS_VALUE,
    LAND_OF_TWO,
    SUM_WRAPS,
    LASTNZ_IN_ORDER,
    ALLTOALL_OF_THREE,
    EXSCAN_OF_THREE,
    ALLGATHER_OF_FIVE,
    MAXLOC_OF_THREE,
    MINLOC_OF_THREE,
    ALLGATHERV_OF_THREE,
    ALLGATHERV_OF_ONE,
    ALLGATHERV_STARTED_TWICE,
    EMPTY_BCAST,
    STARTS_OUT_OF_ORDER,
    COMMENTS_AND_LEADING_ZEROS,
    TESTED_AND_FREED,
    ANY_AND_SOME,
    STARTED_AGAIN,
];

#[test]
fn texts_and_their_lines(rt: HostRuntime) -> Result<(), Fail> {
    assert!(rt; first_misfit(&rt, rt.alloc(), LINES, WORKERS).is_none());
    Ok(())
}

/// Texts that have no lines, each with its fault.
const FAULTS: &[(&str, JobFault)] = &[
    (CROSSED_BARRIERS, JobFault::Stalled),
    ("", JobFault::Text(MISSING_RANKS)),
    (
        "ranks 2\nrank 0\npost 0 barrier\n",
        JobFault::Text(PLACE_MISSING),
    ),
];

const MISSING_RANKS: Fault = Fault {
    line: 1,
    cause: Cause::MissingRanks,
};

const PLACE_MISSING: Fault = Fault {
    line: 3,
    cause: Cause::PlaceMissing,
};

#[test]
fn texts_without_lines(rt: HostRuntime) -> Result<(), Fail> {
    assert!(rt; first_other_end(&rt, rt.alloc(), FAULTS, WORKERS).is_none());
    Ok(())
}

/// The contribution of each of three ranks.
const GIVEN: &[[u8; 4]] = &[[1, 0, 0, 0], [2, 0, 0, 0], [3, 0, 0, 0]];

fn outcome(rank: u8, bytes: [u8; 4]) -> Outcome {
    Outcome {
        rank,
        comm: 0,
        place: 0,
        start: 0,
        bytes: Bytes::few(&bytes),
    }
}

/// Whether a rank has made exactly one post, of these bytes.
fn has_posted(report: &Report, rank: u8, given: [u8; 4]) -> bool {
    let mut posts = report.posts(rank);
    match (posts.next(), posts.next()) {
        (
            Some(
                Entry::Posted {
                    comm: 0,
                    place: 0,
                    bytes,
                    ..
                },
            ),
            None,
        ) => bytes.as_slice() == given.as_slice(),
        _ => false,
    }
}

/// Whether a report has each rank's post, attests the sum for each rank and no other value, and has no other entries.
fn is_of_three(report: &Report) -> bool {
    for (rank, given) in (0..3u8).zip(GIVEN.iter()) {
        let is_attested = report.attests(&outcome(rank, [6, 0, 0, 0]));
        let is_another = report.attests(&outcome(rank, [7, 0, 0, 0]));
        if !has_posted(report, rank, *given) || !is_attested || is_another {
            return false;
        }
    }
    report.entries().len() == 6
}

#[test]
fn report_of_sum_of_three(rt: HostRuntime) -> Result<(), Fail> {
    let (text, _) = SUM_OF_THREE;
    for workers in WORKERS {
        assert!(rt; *workers <= 8);
        let (_, report) = run_job(&rt, rt.alloc(), text.as_bytes(), *workers, &NoGate)?;
        assert!(rt; is_of_three(&report));
    }
    Ok(())
}
