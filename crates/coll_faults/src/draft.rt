ghost use Rattle.std.specs.Prelude.{◌≡◌, IfOk, flat_map, take};
ghost use Rattle.coll_parser.specs.Code.{texts};
ghost use Rattle.coll_faults.specs.Drafts.{ended_line, front_of, line_bytes, lines_in, put, put_all};

use crate::patch::{Patch, copied};
use std::alloc::{AllocError, Global};

/// A text whose faulty lines are mended one after another, so that the lines after them can be judged.
#[derive(Drop)]
pub(crate) struct MendedText<'t> {
    lines: Vec<Line<'t>>,
}

/// A line of the text, or the lines in its place.
#[derive(Drop)]
enum Line<'t> {
    Written(&'t [u8]),
    Mended(Vec<u8>),
}

impl<'t> MendedText<'t> {
    /// Takes the lines of a text. Linear in the text.
    pub(crate) fn new(alloc: Global, text: &'t [u8]) -> Result<MendedText<'t>, AllocError> {
        let body = match text {
            [body @ .., b'\n'] => body,
            _ => text,
        };
        let mut lines = Vec::new(alloc);
        for line in body.split(|b| *b == b'\n') {
            lines.push(Line::Written(line))?;
        }
        Ok(MendedText { lines })
    }

    /// How many lines the text has.
    pub(crate) fn last(&self) -> u32 {
        let mut last: u32 = 0;
        for _ in &self.lines {
            last = last.saturating_add(1);
        }
        last
    }

    /// The bytes of the line of that number, from 1 on, as mended; empty if there is none.
    pub(crate) fn line(&self, number: u32) -> &[u8] {
        let Some(index) = (number as usize).checked_sub(1) else {
            return b"";
        };
        match self.lines.get(index) {
            Some(line) => line.bytes(),
            None => b"",
        }
    }

    /// All lines as one text.
    pub(crate) fn text(&self, alloc: Global) -> Result<Vec<u8>, AllocError> {
        self.front(alloc, self.last(), &[])
    }

    /// The lines up to that number as one text, with these patches.
    pub(crate) fn front(
        &self,
        alloc: Global,
        last: u32,
        patches: &[Patch],
    ) -> Result<Vec<u8>, AllocError>
        ensures { IfOk result (λ text. text.items ≡ front_of self.now last patches.now) }
    {
        let mut lines = self.first_lines(alloc, last)?;
        put_all(&mut lines, patches);
        joined(alloc, &lines)
    }

    /// The bytes of the lines up to that number.
    fn first_lines(&self, alloc: Global, last: u32) -> Result<Vec<&[u8]>, AllocError>
        ensures { IfOk result (λ lines. texts lines.items ≡ take last (lines_in self.now)) }
    {
        let first = first_of(&self.lines, last as usize);
        let mut lines = Vec::new(alloc);
        for line in first {
            lines.push(line.bytes())?;
        }
        Ok(lines)
    }

    /// Puts the patches in place of their lines.
    pub(crate) fn mend(&mut self, patches: Vec<Patch>) {
        for patch in patches {
            let index = (patch.line as usize).saturating_sub(1);
            if let Some(line) = self.lines.get_mut(index) {
                *line = Line::Mended(patch.block);
            }
        }
    }

    /// A copy of the draft, with these patches.
    pub(crate) fn with(
        &self,
        alloc: Global,
        patches: &[Patch],
    ) -> Result<MendedText<'_>, AllocError> {
        let mut lines = Vec::new(alloc);
        for line in &self.lines {
            lines.push(Line::Written(line.bytes()))?;
        }
        let mut draft = MendedText { lines };
        draft.mend(copied(alloc, patches)?);
        Ok(draft)
    }

    /// For each line of the mended text, the line of the original text in whose place it stands. Linear in the text.
    pub(crate) fn written(&self, alloc: Global) -> Result<Written, AllocError> {
        let mut numbers = Vec::new(alloc);
        let mut number: u32 = 0;
        for line in &self.lines {
            number = number.saturating_add(1);
            for _ in line.bytes().split(|b| *b == b'\n') {
                numbers.push(number)?;
            }
        }
        Ok(Written { numbers })
    }
}

/// For each line of the mended text, the line of the original text in whose place it stands.
#[derive(Drop)]
pub(crate) struct Written {
    numbers: Vec<u32>,
}

impl Written {
    /// The original line of the mended text's line `number`, both from 1 on.
    pub(crate) fn of(&self, number: u32) -> u32 {
        let index = (number as usize).saturating_sub(1);
        match self.numbers.get(index) {
            Some(written) => *written,
            None => number,
        }
    }
}

impl<'t> Line<'t> {
    fn bytes(&self) -> &[u8]
        ensures { result.now ≡ line_bytes self.now }
    {
        match self {
            Line::Written(bytes) => bytes,
            Line::Mended(bytes) => bytes,
        }
    }
}

/// The first of some lines.
fn first_of<'l, 't>(lines: &'l [Line<'t>], count: usize) -> &'l [Line<'t>]
    ensures { result.now ≡ take count lines.now }
{
    if count < lines.len() {
        &lines[..count]
    } else {
        lines
    }
}

/// Puts the block of each patch in place of its line, if there is such a line.
fn put_all<'p>(lines: &mut Vec<&'p [u8]>, patches: &'p [Patch])
    ensures { texts lines.new.items ≡ put_all (texts lines.old.items) patches.now }
{
    for patch in patches {
        put(lines, patch);
    }
}

fn put<'p>(lines: &mut Vec<&'p [u8]>, patch: &'p Patch)
    ensures { texts lines.new.items ≡ put (texts lines.old.items) patch.now }
{
    let index = (patch.line as usize).saturating_sub(1);
    if index >= lines.len() {
        return;
    }
    lines[index] = patch.block.as_slice();
}

/// Lines as one text, with a line feed after each.
fn joined(alloc: Global, lines: &[&[u8]]) -> Result<Vec<u8>, AllocError>
    ensures { IfOk result (λ text. text.items ≡ flat_map ended_line (texts lines.now)) }
{
    let mut text = Vec::new(alloc);
    for line in lines {
        text.extend_from_slice(line)?;
        text.push(b'\n')?;
    }
    Ok(text)
}
