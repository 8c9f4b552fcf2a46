//! A text that is read whole, and the results of errors of a reader and of a writer.

use crate::answering::{COMMENTS, SUM_OF_THREE, answer, answer_text, read};
use crate::fakes::{Failing, Full, Unflushed};
use coll_script::JobFault;
use std::alloc::Global;
use std::io::Cursor;
use std::test::Fail;

/// The bytes of a text as they are read.
fn read_again(alloc: Global, text: &str) -> Result<Vec<u8>, JobFault> {
    let (text, _) = read(alloc, &mut Cursor::new(text.as_bytes()))?;
    Ok(text)
}

#[test]
fn a_text_is_read_whole(rt: HostRuntime) -> Result<(), Fail> {
    let text = read_again(rt.alloc(), COMMENTS)?;
    assert!(rt; text.as_slice() == COMMENTS.as_bytes());
    Ok(())
}

/// The results of reading and of answering a text whose reader fails, and the number of bytes that were written.
fn ends_of_reading(alloc: Global) -> (Option<JobFault>, Result<(), JobFault>, usize) {
    let text = read(alloc, &mut Failing { given: 0 });
    let mut out = Vec::new(alloc);
    let answered = answer(alloc, &mut Failing { given: 0 }, &mut out);
    (text.err(), answered, out.len())
}

/// The results of answering a text whose writer takes no byte, and of one whose writer can't be flushed.
fn ends_of_writing(alloc: Global) -> [Result<(), JobFault>; 2] {
    [
        answer_text(alloc, SUM_OF_THREE, &mut Full),
        answer_text(alloc, SUM_OF_THREE, &mut Unflushed),
    ]
}

#[test]
fn failing_ends(rt: HostRuntime) -> Result<(), Fail> {
    let (read, answered, written) = ends_of_reading(rt.alloc());
    assert!(rt; read == Some(JobFault::Read));
    assert!(rt; answered == Err(JobFault::Read) && written == 0);
    for ended in ends_of_writing(rt.alloc()) {
        assert!(rt; ended == Err(JobFault::Write));
    }
    Ok(())
}
