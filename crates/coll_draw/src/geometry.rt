//! Where the parts of a picture lie, in pixels.

use crate::line::Link;

/// Where the columns of a picture's members lie.
#[derive(Clone, Copy, Debug)]
pub(crate) struct MemberColumns {
    pub n: u8,
    /// From a member's column to the next one.
    pub step: u32,
}

/// From the left edge to the first member's column.
const LEFT: u32 = 84;

/// From the last member's column to the words about a round.
const BEHIND: u32 = 24;

impl MemberColumns {
    /// The columns of `n` members: the more members, the narrower.
    pub(crate) fn of(n: u8) -> MemberColumns {
        let step = match n {
            0..=10 => 72,
            11..=20 => 56,
            _ => 44,
        };
        MemberColumns { n, step }
    }

    /// The place of a member's column.
    pub(crate) fn x(&self, member: u8) -> u32 {
        LEFT.saturating_add(u32::from(member).saturating_mul(self.step))
    }

    /// The middle of the middlemost space between columns that a line covers.
    pub(crate) fn middle(&self, line: &Link) -> u32 {
        let spaces = line.width().saturating_sub(1) / 2;
        self.x(line.low.saturating_add(spaces))
            .saturating_add(self.step / 2)
    }

    /// Where the words about a round's messages begin.
    pub(crate) fn aside(&self) -> u32 {
        self.x(self.n.saturating_sub(1)).saturating_add(BEHIND)
    }
}

/// The most pixels that a text of `chars` characters takes, in letters of that size.
pub(crate) fn text_width(chars: usize, size: u32) -> u32 {
    let chars = chars.min(1000) as u32;
    chars.saturating_mul(size).saturating_mul(6) / 10
}
