use crate::arrow::Arrow;

/// What is drawn between the columns of two members: a message, or two messages of one length that go opposite ways.
#[derive(Clone, Copy, Debug, PartialEq, Eq)]
pub(crate) struct Link {
    /// The lower member's number.
    pub low: u8,
    /// The higher member's number.
    pub high: u8,
    pub reaches_low: bool,
    pub reaches_high: bool,
    /// The bytes of each message.
    pub len: u32,
}

impl Link {
    /// The line of one message.
    pub(crate) fn of(arrow: &Arrow) -> Link {
        let is_down = arrow.receiver <= arrow.sender;
        Link {
            low: arrow.receiver.min(arrow.sender),
            high: arrow.receiver.max(arrow.sender),
            reaches_low: is_down,
            reaches_high: !is_down,
            len: arrow.len,
        }
    }

    /// How many columns it spans.
    pub(crate) fn width(&self) -> u8 {
        self.high.saturating_sub(self.low)
    }

    /// Whether the two go opposite ways between the same members, with the same number of bytes.
    pub(crate) fn is_opposite(&self, other: &Link) -> bool {
        self.low == other.low
            && self.high == other.high
            && self.len == other.len
            && self.reaches_low != other.reaches_low
            && self.reaches_high != other.reaches_high
    }

    /// The line of this message and of the one that goes the opposite way.
    pub(crate) fn both_ways(&self) -> Link {
        Link {
            reaches_low: true,
            reaches_high: true,
            ..*self
        }
    }

    /// Whether both lines cover the space between the same two columns. Lines that only meet at a column don't.
    pub(crate) fn overlaps(&self, other: &Link) -> bool {
        self.low < other.high && other.low < self.high
    }

    /// Whether the line covers the space to the right of a member's column.
    pub(crate) fn covers(&self, member: u8) -> bool {
        self.low <= member && member < self.high
    }

    /// Whether the line begins or ends at a member's column.
    pub(crate) fn touches(&self, member: u8) -> bool {
        self.low == member || self.high == member
    }
}
