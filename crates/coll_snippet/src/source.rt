use crate::excerpt::Excerpt;
use std::alloc::{AllocError, Global};

/// The lines of a text, to be shown.
#[derive(Drop)]
pub struct Source<'t> {
    lines: Vec<&'t [u8]>,
}

impl<'t> Source<'t> {
    /// Splits a text into its lines. Linear in the text.
    pub fn new(alloc: Global, text: &'t [u8]) -> Result<Source<'t>, AllocError> {
        Ok(Source {
            lines: text.split(|b| *b == b'\n').collect(alloc)?,
        })
    }

    /// The line of that number, from 1 on, with all its words marked.
    pub fn excerpt(&self, alloc: Global, number: u32) -> Result<Excerpt, AllocError> {
        Excerpt::whole(alloc, self.line(number))
    }

    /// The line of that number, from 1 on; empty if there is none.
    pub fn line(&self, number: u32) -> &'t [u8] {
        let Some(index) = (number as usize).checked_sub(1) else {
            return b"";
        };
        match self.lines.get(index) {
            Some(line) => *line,
            None => b"",
        }
    }
}
