//! The words of a line, and lines made of them.

use coll_script::shown_as;
use std::alloc::{AllocError, Global};

/// A word of a line.
#[derive(Clone, Copy)]
pub(crate) struct Word<'l> {
    /// The number of bytes before it in its line.
    pub start: usize,
    pub bytes: &'l [u8],
}

impl<'l> Word<'l> {
    /// The number of bytes of its line up to the word's end.
    pub(crate) fn end(self) -> usize {
        self.start.saturating_add(self.bytes.len())
    }
}

/// The words of a line, separated by spaces, tabs and carriage returns.
pub(crate) fn words_of<'l>(alloc: Global, line: &'l [u8]) -> Result<Vec<Word<'l>>, AllocError> {
    let mut words = Vec::new(alloc);
    let mut start: usize = 0;
    for bytes in line.split(|b| matches!(*b, b' ' | b'\t' | b'\r')) {
        if !bytes.is_empty() {
            words.push(Word { start, bytes })?;
        }
        start = start.saturating_add(bytes.len()).saturating_add(1);
    }
    Ok(words)
}

/// The first word of a line; empty if there is none.
pub(crate) fn first_word(line: &[u8]) -> &[u8] {
    let mut words = line.split(|b| matches!(*b, b' ' | b'\t' | b'\r'));
    match words.find(|word| !word.is_empty()) {
        Some(word) => word,
        None => b"",
    }
}

/// Adds a word after those of a line.
pub(crate) fn push_word(line: &mut Vec<u8>, word: &[u8]) -> Result<(), AllocError> {
    if !line.is_empty() {
        line.push(b' ')?;
    }
    line.extend_from_slice(word)
}

/// The words of a line, with `removed` words from index `at` on replaced by `by`, which may be several words, or empty.
pub(crate) fn spliced(
    alloc: Global,
    words: &[Word<'_>],
    at: usize,
    removed: usize,
    by: &[u8],
) -> Result<Vec<u8>, AllocError> {
    let mut line = Vec::new(alloc);
    for word in words.iter().take(at) {
        push_word(&mut line, word.bytes)?;
    }
    if !by.is_empty() {
        push_word(&mut line, by)?;
    }
    for word in words.iter().skip(at.saturating_add(removed)) {
        push_word(&mut line, word.bytes)?;
    }
    Ok(line)
}

/// Bytes as they are shown, each as [`shown_as`] says.
pub fn shown(alloc: Global, bytes: &[u8]) -> Result<String, AllocError> {
    let mut shown = String::new(alloc);
    for byte in bytes {
        shown.push(shown_as(*byte))?;
    }
    Ok(shown)
}
