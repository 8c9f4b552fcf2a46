//! The columns of a table's numbers.

ghost use Rattle.std.specs.Prelude.{◌≡◌, ◌++◌, flat_map, OnOk};
ghost use Rattle.coll_views.specs.Tables.{aligned, cell_text, cells_of};

use crate::totals::Totals;
use coll_script::ReportFault;
use std::alloc::Global;

/// A number with the width of its column, at the right end of which it is printed.
#[derive(Clone, Copy)]
pub(crate) struct Cell {
    pub(crate) width: usize,
    pub(crate) number: u64,
}

/// Appends these cells, one after another.
pub(crate) fn print_cells(
    alloc: Global,
    cells: &[Cell],
    out: &mut Vec<u8>,
) -> Result<(), ReportFault>
    ensures { OnOk result (out.new.items ≡ out.old.items ++ flat_map cell_text cells.now) }
{
    for cell in cells {
        print_cell(alloc, cell, out)?;
    }
    Ok(())
}

/// The cells of totals, in the order of the columns.
#[tactic(auto, unfolding(crate::specs::Tables::cells_of))]
pub(crate) fn cells_of(totals: Totals) -> [Cell; 10]
    ensures { result ≡ cells_of totals }
{
    [
        Cell {
            width: 7,
            number: totals.posts,
        },
        Cell {
            width: 7,
            number: totals.inits,
        },
        Cell {
            width: 8,
            number: totals.starts,
        },
        Cell {
            width: 11,
            number: totals.completed,
        },
        Cell {
            width: 13,
            number: totals.given,
        },
        Cell {
            width: 11,
            number: totals.got,
        },
        Cell {
            width: 11,
            number: totals.lent,
        },
        Cell {
            width: 10,
            number: totals.messages,
        },
        Cell {
            width: 13,
            number: totals.sent,
        },
        Cell {
            width: 14,
            number: totals.combinations,
        },
    ]
}

fn print_cell(alloc: Global, cell: &Cell, out: &mut Vec<u8>) -> Result<(), ReportFault>
    ensures { OnOk result (out.new.items ≡ out.old.items ++ cell_text cell.now) }
{
    let number = cell.number;
    let text = format!(in alloc; "{number}")?;
    print_aligned(alloc, cell.width, text.as_bytes(), out)
}

/// Appends a text at the right end of a column of that width.
pub(crate) fn print_aligned(
    alloc: Global,
    width: usize,
    text: &[u8],
    out: &mut Vec<u8>,
) -> Result<(), ReportFault>
    ensures { OnOk result (out.new.items ≡ out.old.items ++ aligned width text.now) }
{
    let spaces = vec![in alloc; b' '; width.saturating_sub(text.len())]?;
    out.extend_from_slice(&spaces)?;
    out.extend_from_slice(text)?;
    Ok(())
}
