//! Texts with a fault, and the line that a user reads.

use crate::shown::{TextRow, first_misfit, shown};
use std::alloc::Global;
use std::test::Fail;

const FAULTS: &[TextRow] = &[
    ("ranks 65", "2: line 1: bad number\n"),
    ("ranks 1\nrank 1", "2: line 2: bad rank\n"),
    ("ranks 1\npost 0 barrier", "2: line 2: out of place\n"),
    ("ranks 1\nfoo", "2: line 2: unknown command\n"),
    ("ranks 2\ncomm 0 0", "2: line 2: bad rank\n"),
    ("ranks 1\nrank 0\npost x barrier", "2: line 3: bad number\n"),
    (
        "ranks 1\nrank 0\npost 1 barrier",
        "2: line 3: bad communicator\n",
    ),
    (
        "ranks 1\nrank 0\npost 0 barrier 1",
        "2: line 3: bad words\n",
    ),
    (
        "ranks 1\nrank 0\npost 0 barrier : 1",
        "2: line 3: wrong value count\n",
    ),
    ("ranks 1\nrank 0\nwait 0", "2: line 3: unknown request\n"),
];

#[test]
fn faults_are_told(rt: HostRuntime) -> Result<(), Fail> {
    assert!(rt; first_misfit(rt.alloc(), FAULTS)?.is_none());
    Ok(())
}

/// What is shown of a text of `len` bytes, whose first line would be wrong by itself.
fn shown_of_long(alloc: Global, len: usize) -> Result<String, Fail> {
    let mut text = Vec::new(alloc);
    text.resize(len, b'x')?;
    let text = String::from_utf8(text).ok().ok_or("this is text")?;
    shown(alloc, &text)
}

#[test]
fn a_long_text_is_told(rt: HostRuntime) -> Result<(), Fail> {
    let within = shown_of_long(rt.alloc(), 1_048_576)?;
    let past = shown_of_long(rt.alloc(), 1_048_577)?;
    assert!(rt; within.as_str() == "2: line 1: missing ranks\n");
    assert!(rt; past.as_str() == "2: line 1: text too long\n");
    Ok(())
}
