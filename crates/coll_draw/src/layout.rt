//! Where the lines of a round lie: in rows, one below the other, so that no line of a row covers another.

use crate::arrow::Arrow;
use crate::line::Link;
use crate::mark::Mark;
use std::alloc::{AllocError, Global};

/// Lines side by side.
#[derive(Debug, Drop)]
pub(crate) struct SideBySide {
    pub lines: Vec<Link>,
}

impl SideBySide {
    /// The line that covers the space to the right of a member's column.
    pub(crate) fn line_behind(&self, member: u8) -> Option<&Link> {
        self.lines.iter().find(|line| line.covers(member))
    }

    /// Whether a line begins or ends at a member's column.
    pub(crate) fn touches(&self, member: u8) -> bool {
        self.lines.iter().any(|line| line.touches(member))
    }

    fn has_room_for(&self, line: &Link) -> bool {
        !self.lines.iter().any(|other| other.overlaps(line))
    }
}

/// The rows of the messages of a round. Short lines stand above longer ones.
pub(crate) fn rows_of(
    alloc: Global,
    arrows: &[Arrow],
    round: usize,
) -> Result<Vec<SideBySide>, AllocError> {
    let lines = lines_of(alloc, arrows, round)?;
    let mut rows = Vec::new(alloc);
    for width in 0..=u8::MAX {
        for line in &lines {
            if line.width() == width {
                place(alloc, *line, &mut rows)?;
            }
        }
    }
    Ok(rows)
}

/// The lines of the messages of a round, in the order of their senders.
fn lines_of(alloc: Global, arrows: &[Arrow], round: usize) -> Result<Vec<Link>, AllocError> {
    let mut lines: Vec<Link> = Vec::new(alloc);
    for arrow in arrows {
        if arrow.round == round {
            let line = Link::of(arrow);
            match lines.iter_mut().find(|other| other.is_opposite(&line)) {
                Some(other) => *other = other.both_ways(),
                None => lines.push(line)?,
            }
        }
    }
    Ok(lines)
}

/// Puts a line into the first row that has room.
fn place(alloc: Global, line: Link, rows: &mut Vec<SideBySide>) -> Result<(), AllocError> {
    match rows.iter_mut().find(|row| row.has_room_for(&line)) {
        Some(row) => row.lines.push(line)?,
        None => rows.push(SideBySide {
            lines: vec![in alloc; line]?,
        })?,
    }
    Ok(())
}

/// How many of the marks belong to this member in this round.
pub(crate) fn mark_count(marks: &[Mark], round: usize, member: u8) -> usize {
    let these = |mark: &&Mark| mark.round == round && mark.member == member;
    marks.iter().filter(these).count()
}

/// Whether some mark belongs to this round.
pub(crate) fn has_marks(marks: &[Mark], round: usize) -> bool {
    marks.iter().any(|mark| mark.round == round)
}
