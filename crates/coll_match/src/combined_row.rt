//! Combinations of neighbouring members' rows, and the cells for their results.

ghost use Rattle.std.specs.Prelude.{IfSome};
ghost use Rattle.coll_match.specs.Held.{IsCellOf};

use crate::result_cell::ResultCell;
use coll_kinds::{Datatype, Op};

/// A combination of what neighbouring members gave, in member order.
#[derive(Clone, Copy, Debug, PartialEq, Eq)]
pub struct Combination {
    pub op: Op,
    pub ty: Datatype,
    /// The lowest of these members.
    pub first: u8,
    /// How many they are.
    pub count: u8,
}

/// A combination, and the cell for its bytes.
#[derive(Debug, Drop)]
pub(crate) struct CombinedRow {
    pub(crate) of: Combination,
    pub(crate) cell: ResultCell,
}

/// Returns a further owner of the cell for that combination, if one of these is for it. It takes no memory.
pub(crate) fn cell_of(rows: &[CombinedRow], of: Combination) -> Option<ResultCell>
    ensures { IfSome result (IsCellOf rows.now of) }
{
    for row in rows {
        if row.of == of {
            return row.cell.share();
        }
    }
    None
}
