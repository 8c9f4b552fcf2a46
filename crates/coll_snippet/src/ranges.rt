//! Ranks as ranges.

use std::alloc::AllocError;

/// Appends ranks that rise, as `0-2, 4`.
pub fn push_ranks(out: &mut String, ranks: &[u8]) -> Result<(), AllocError> {
    let mut open: Option<(u8, u8)> = None;
    for rank in ranks {
        open = match open {
            Some((first, last)) if last.checked_add(1) == Some(*rank) => Some((first, *rank)),
            Some((first, last)) => {
                push_range(out, first, last)?;
                out.push_str(", ")?;
                Some((*rank, *rank))
            }
            None => Some((*rank, *rank)),
        };
    }
    match open {
        Some((first, last)) => push_range(out, first, last),
        None => Ok(()),
    }
}

fn push_range(out: &mut String, first: u8, last: u8) -> Result<(), AllocError> {
    if first == last {
        write!(out, "{first}")
    } else {
        write!(out, "{first}-{last}")
    }
}
