//! The calls that read and answer a text. They have no contracts: the tests compare the results.

use coll_script::{CountedReader, JobFault, Witnessed, plain_job, read_text};
use std::alloc::Global;
use std::io::{Cursor, Read, Write};

pub const SUM_OF_THREE: &str = "ranks 3\nrank 0\npost 0 allreduce sum i32 1 : 1\nrank 1\n\
    post 0 allreduce sum i32 1 : 2\nrank 2\npost 0 allreduce sum i32 1 : 3\n";

pub const COMMENTS: &str = "# x\nranks 1\n\nrank 0\npost 0 bcast 0 i8 2 : -1 007\n";

/// Reads a whole text. Returns it, and the number of reads that were counted.
pub fn read<R: Read>(alloc: Global, reader: &mut R) -> Result<(Vec<u8>, u32), JobFault> {
    let mut counted = CountedReader::new(reader);
    let text = read_text(alloc, &mut counted)?;
    Ok((text, counted.reads()))
}

/// The outcome of the text that a reader gives, without an engine.
pub fn answer<R: Read, W: Write>(
    alloc: Global,
    reader: &mut R,
    writer: &mut W,
) -> Result<(), JobFault> {
    plain_job(
        alloc,
        &mut CountedReader::new(reader),
        &mut Witnessed::new(writer),
    )
}

pub fn answer_text<W: Write>(alloc: Global, text: &str, writer: &mut W) -> Result<(), JobFault> {
    answer(alloc, &mut Cursor::new(text.as_bytes()), writer)
}

/// What was written, as text.
pub fn text_of(written: Vec<u8>) -> Result<String, &'static str> {
    String::from_utf8(written).ok().ok_or("this is no text")
}
