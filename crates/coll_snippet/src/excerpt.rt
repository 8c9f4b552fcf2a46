use coll_script::shown_as;
use std::alloc::{AllocError, Global};

/// A line as it is shown, with some of it marked below. Blanks are shown as spaces, and none at the end of the line.
#[derive(Drop)]
pub struct Excerpt {
    pub text: String,
    /// The columns before the marks.
    pub indent: usize,
    /// How many marks there are.
    pub marks: usize,
}

/// The most bytes that are shown of a line.
const SHOWN: usize = 72;

/// The bytes that are shown before the marks in the middle of a long line.
const BEFORE: usize = 24;

/// What stands in place of bytes that aren't shown.
const CUT: &str = " ..";

impl Excerpt {
    /// Marks `len` bytes of a line from `start` on. A long line is shown in part, and the marks begin in that part.
    pub fn of(alloc: Global, line: &[u8], start: usize, len: usize) -> Result<Excerpt, AllocError> {
        let line = line.trim_ascii_end();
        let is_near = start.saturating_add(len) <= SHOWN || start < BEFORE;
        let from = if is_near {
            0
        } else {
            start.saturating_sub(BEFORE)
        };
        let mut text = String::new(alloc);
        let mut indent = start.saturating_sub(from);
        if from > 0 {
            text.push_str(".. ")?;
            indent = indent.saturating_add(CUT.len());
        }
        for byte in line.iter().skip(from).take(SHOWN) {
            text.push(shown_as(*byte))?;
        }
        if line.len() > from.saturating_add(SHOWN) {
            text.push_str(CUT)?;
        }
        let room = text.len().saturating_sub(indent).max(1);
        Ok(Excerpt {
            text,
            indent,
            marks: len.min(room),
        })
    }

    /// Marks all words of a line.
    pub fn whole(alloc: Global, line: &[u8]) -> Result<Excerpt, AllocError> {
        let words = line.trim_ascii_end().len();
        let start = words.saturating_sub(line.trim_ascii_end().trim_ascii_start().len());
        Excerpt::of(alloc, line, start, words.saturating_sub(start))
    }

    /// The shown line without the blanks before its words.
    pub fn words(&self) -> &str {
        self.text.as_str().trim_start()
    }
}
