//! Texts, with what a user sees of each.

use crate::answering::{COMMENTS, SUM_OF_THREE};
use crate::shown::{TextRow, first_misfit};
use crate::texts::STARTS_OUT_OF_ORDER;
use std::test::Fail;

const TEXTS: &[TextRow] = &[
    ("", "2: line 1: missing ranks\n"),
    (
        SUM_OF_THREE,
        "rank 0 req 0 start 0 : 6\nrank 1 req 0 start 0 : 6\nrank 2 req 0 start 0 : 6\n",
    ),
    (
        "ranks 1\nrank 0\npost 0 allreduce land i32 1 : 5",
        "rank 0 req 0 start 0 : 5\n",
    ),
    (
        "ranks 2\nrank 0\npost 0 allreduce land i32 1 : 5\nrank 1\npost 0 allreduce land i32 1 : 5\n",
        "rank 0 req 0 start 0 : 1\nrank 1 req 0 start 0 : 1\n",
    ),
    (
        "ranks 2\nrank 0\npost 0 allreduce sum i8 1 : 127\nrank 1\npost 0 allreduce sum i8 1 : 1\n",
        "rank 0 req 0 start 0 : -128\nrank 1 req 0 start 0 : -128\n",
    ),
    (
        "ranks 2\nrank 0\npost 0 bcast 1 i32 0\nrank 1\npost 0 bcast 1 i32 0\n",
        "rank 0 req 0 start 0 :\nrank 1 req 0 start 0 :\n",
    ),
    (COMMENTS, "rank 0 req 0 start 0 : -1 7\n"),
    (
        "ranks 1\nrank 0\npost 0 allreduce sum i8 2 : 1",
        "2: line 3: wrong value count\n",
    ),
    (
        "ranks 1\nrank 0\npost 0 allreduce sum i8 1 : 128",
        "2: line 3: bad value\n",
    ),
    (
        "ranks 1\nrank 0\npost 0 allreduce sum",
        "2: line 3: bad words\n",
    ),
    (
        "ranks 1\nrank 0\npost 0 allreduce sum byte 1 : 1",
        "2: line 3: bad signature\n",
    ),
    (
        "ranks 2\nrank 0\npost 0 bcast 0 i32 1 : 7\nrank 1\npost 0 allreduce sum i32 1 : 7\n",
        "2: line 5: place mismatch\n",
    ),
    (
        "ranks 2\nrank 0\npost 0 barrier\n",
        "2: line 3: place missing\n",
    ),
    (
        "ranks 3\nrank 0\npost 0 reduce 2 lastnz i32 1 : 3\nrank 1\npost 0 reduce 2 lastnz i32 1 : 0\n\
         rank 2\npost 0 reduce 2 lastnz i32 1 : 5\n",
        "rank 0 req 0 start 0 :\nrank 1 req 0 start 0 :\nrank 2 req 0 start 0 : 5\n",
    ),
    (
        "ranks 3\nrank 0\npost 0 alltoall u8 1 : 1 2 3\nrank 1\npost 0 alltoall u8 1 : 4 5 6\n\
         rank 2\npost 0 alltoall u8 1 : 7 8 9\n",
        "rank 0 req 0 start 0 : 1 4 7\nrank 1 req 0 start 0 : 2 5 8\nrank 2 req 0 start 0 : 3 6 9\n",
    ),
    (
        "ranks 3\nrank 0\npost 0 exscan sum i32 1 : 1\nrank 1\npost 0 exscan sum i32 1 : 2\n\
         rank 2\npost 0 exscan sum i32 1 : 3\n",
        "rank 0 req 0 start 0 :\nrank 1 req 0 start 0 : 1\nrank 2 req 0 start 0 : 3\n",
    ),
    (
        "ranks 3\nrank 0\npost 0 allreduce maxloc 2int 1 : 7,2\nrank 1\npost 0 allreduce maxloc 2int 1 : 9,5\n\
         rank 2\npost 0 allreduce maxloc 2int 1 : 9,1\n",
        "rank 0 req 0 start 0 : 9,1\nrank 1 req 0 start 0 : 9,1\nrank 2 req 0 start 0 : 9,1\n",
    ),
    (
        "ranks 3\nrank 0\npost 0 allreduce minloc 2int 1 : -3,4\nrank 1\npost 0 allreduce minloc 2int 1 : -3,0\n\
         rank 2\npost 0 allreduce minloc 2int 1 : 8,1\n",
        "rank 0 req 0 start 0 : -3,0\nrank 1 req 0 start 0 : -3,0\nrank 2 req 0 start 0 : -3,0\n",
    ),
];

/// Pairs whose text isn't one, and operations that their type doesn't have.
const PAIR_FAULTS: &[TextRow] = &[
    (
        "ranks 1\nrank 0\npost 0 allreduce maxloc 2int 1 : 7",
        "2: line 3: bad value\n",
    ),
    (
        "ranks 1\nrank 0\npost 0 allreduce maxloc 2int 1 : 7,",
        "2: line 3: bad value\n",
    ),
    (
        "ranks 1\nrank 0\npost 0 allreduce maxloc 2int 1 : 7,2147483648",
        "2: line 3: bad value\n",
    ),
    (
        "ranks 1\nrank 0\npost 0 allreduce sum 2int 1 : 7,2",
        "2: line 3: bad signature\n",
    ),
    (
        "ranks 1\nrank 0\npost 0 allreduce maxloc i32 1 : 7",
        "2: line 3: bad signature\n",
    ),
];

#[test]
fn pair_faults(rt: HostRuntime) -> Result<(), Fail> {
    assert!(rt; first_misfit(rt.alloc(), PAIR_FAULTS)?.is_none());
    Ok(())
}

#[test]
fn texts_and_what_is_shown(rt: HostRuntime) -> Result<(), Fail> {
    assert!(rt; first_misfit(rt.alloc(), TEXTS)?.is_none());
    Ok(())
}

const KINDS: &[TextRow] = &[
    (
        "ranks 3\nrank 0\npost 0 gather 1 u8 2 : 1 2\nrank 1\npost 0 gather 1 u8 2 : 3 4\n\
         rank 2\npost 0 gather 1 u8 2 : 5 6\n",
        "rank 0 req 0 start 0 :\nrank 1 req 0 start 0 : 1 2 3 4 5 6\nrank 2 req 0 start 0 :\n",
    ),
    (
        "ranks 2\nrank 0\npost 0 scatter 1 u8 2\nrank 1\npost 0 scatter 1 u8 2 : 1 2 3 4\n",
        "rank 0 req 0 start 0 : 1 2\nrank 1 req 0 start 0 : 3 4\n",
    ),
    (
        "ranks 2\nrank 0\npost 0 allgather u16 1 : 10\nrank 1\npost 0 allgather u16 1 : 20\n",
        "rank 0 req 0 start 0 : 10 20\nrank 1 req 0 start 0 : 10 20\n",
    ),
    (
        "ranks 5\nrank 4\npost 0 allgather u16 1 : 50\nrank 0\npost 0 allgather u16 1 : 10\nrank 3\n\
         post 0 allgather u16 1 : 40\nrank 2\npost 0 allgather u16 1 : 30\nrank 1\npost 0 allgather u16 1 : 20\n",
        "rank 0 req 0 start 0 : 10 20 30 40 50\nrank 1 req 0 start 0 : 10 20 30 40 50\n\
         rank 2 req 0 start 0 : 10 20 30 40 50\nrank 3 req 0 start 0 : 10 20 30 40 50\n\
         rank 4 req 0 start 0 : 10 20 30 40 50\n",
    ),
    (
        "ranks 3\nrank 0\npost 0 allgatherv i16 2 0 1 : 1 2\nrank 1\npost 0 allgatherv i16 2 0 1\n\
         rank 2\npost 0 allgatherv i16 2 0 1 : 9\n",
        "rank 0 req 0 start 0 : 1 2 9\nrank 1 req 0 start 0 : 1 2 9\nrank 2 req 0 start 0 : 1 2 9\n",
    ),
    (
        "ranks 1\nrank 0\npost 0 allgatherv u8 1 : 5\n",
        "rank 0 req 0 start 0 : 5\n",
    ),
    (
        "ranks 2\nrank 0\npost 0 allgatherv u8 1 1 : 7\nrank 1\npost 0 allgatherv u8 1 2 : 8 9\n",
        "2: line 5: place mismatch\n",
    ),
    (
        "ranks 3\nrank 0\npost 0 allgatherv u8 1 1",
        "2: line 3: bad words\n",
    ),
    (
        "ranks 3\nrank 0\npost 0 allgatherv u8 1 1 : 7",
        "2: line 3: bad signature\n",
    ),
    (
        "ranks 2\nrank 0\npost 0 rsblock sum i16 1 : 1 2\nrank 1\npost 0 rsblock sum i16 1 : 10 20\n",
        "rank 0 req 0 start 0 : 11\nrank 1 req 0 start 0 : 22\n",
    ),
    (
        "ranks 3\nrank 0\npost 0 scan prod u8 1 : 20\nrank 1\npost 0 scan prod u8 1 : 13\n\
         rank 2\npost 0 scan prod u8 1 : 2\n",
        "rank 0 req 0 start 0 : 20\nrank 1 req 0 start 0 : 4\nrank 2 req 0 start 0 : 8\n",
    ),
    (
        "ranks 3\nrank 0\npost 0 allreduce lxor i8 1 : 5\nrank 1\npost 0 allreduce lxor i8 1 : 5\n\
         rank 2\npost 0 allreduce lxor i8 1 : 5\n",
        "rank 0 req 0 start 0 : 1\nrank 1 req 0 start 0 : 1\nrank 2 req 0 start 0 : 1\n",
    ),
    (
        "ranks 2\ncomm 0 1\ncomm 0 1\nrank 0\npost 1 barrier\nwait 0\npost 2 barrier\nwait 1\n\
         rank 1\npost 2 barrier\nwait 0\npost 1 barrier\nwait 1\n",
        "rank 0 req 0 start 0 :\nrank 0 req 1 start 0 :\nrank 1 req 0 start 0 :\nrank 1 req 1 start 0 :\n",
    ),
    STARTS_OUT_OF_ORDER,
    (
        "ranks 1\nrank 0\ninit 0 barrier\nstart 0\nstart 0\n",
        "2: line 5: not startable\n",
    ),
    (
        "ranks 2\ncomm 0\nrank 1\npost 1 barrier\n",
        "2: line 4: bad rank\n",
    ),
    (
        "ranks 2\nrank 0\ninit 0 barrier\nstart 0\nrank 1\ninit 0 barrier\n",
        "2: line 6: start missing\n",
    ),
    (
        "ranks 1\nrank 0\npost 0 barrier\nwaitany 0 0\n",
        "2: line 4: named twice\n",
    ),
    (
        "ranks 33\nrank 0\npost 0 gather 0 u64 65536\n",
        "2: line 3: bad signature\n",
    ),
    (
        "ranks 32\nrank 1\npost 0 gather 0 u64 65536\n",
        "2: line 3: bad words\n",
    ),
    ("ranks 1\nrank 0\ninit 0 barrier\n", ""),
];

#[test]
fn kinds_and_commands(rt: HostRuntime) -> Result<(), Fail> {
    assert!(rt; first_misfit(rt.alloc(), KINDS)?.is_none());
    Ok(())
}
