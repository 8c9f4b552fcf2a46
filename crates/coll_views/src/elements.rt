//! Elements as text.

ghost use Rattle.std.specs.Prelude.{◌≡◌, ◌≤◌, ◌++◌, ◌∷◌, [], length, flat_map, OnOk};
ghost use Rattle.coll_kinds.specs.Elements.{width, element_at};
ghost use Rattle.coll_ops.specs.Combinations.{elements};
ghost use Rattle.coll_views.specs.Texts.{element_text, row_text};

use coll_kinds::{Datatype, print_element};
use coll_script::ReportFault;

/// How elements are written.
#[derive(Clone, Copy)]
pub(crate) enum Style {
    /// As in a job text, each after a space.
    Words,
    /// As the elements of a JSON array, each after a comma; a pair is an array of its own.
    Json,
}

/// Appends the elements of a row.
pub(crate) fn print_elements(
    style: Style,
    ty: Datatype,
    row: &[u8],
    out: &mut Vec<u8>,
) -> Result<(), ReportFault>
    ensures { OnOk result (out.new.items ≡ out.old.items ++ row_text style ty row.now) }
{
    let width = ty.width();
    let mut rest = row;
    for _ in 0..row.len() / width {
        print_one(style, ty, rest, out)?;
        rest = rest.split_at(width).1;
    }
    Ok(())
}

/// Appends the first element of a row, with the characters around it.
fn print_one(style: Style, ty: Datatype, row: &[u8], out: &mut Vec<u8>) -> Result<(), ReportFault>
    requires { width ty ≤ length row.now }
    ensures { OnOk result (out.new.items ≡ out.old.items ++ element_text style ty (element_at ty row.now)) }
{
    match style {
        Style::Words => {
            out.push(b' ')?;
            print_element(row, ty, out)?;
        }
        Style::Json => print_json(ty, row, out)?,
    }
    Ok(())
}

fn print_json(ty: Datatype, row: &[u8], out: &mut Vec<u8>) -> Result<(), ReportFault>
    requires { width ty ≤ length row.now }
    ensures { OnOk result (out.new.items ≡ out.old.items ++ element_text Style.Json ty (element_at ty row.now)) }
{
    out.push(b',')?;
    if !ty.is_pair() {
        print_element(row, ty, out)?;
        return Ok(());
    }
    out.push(b'[')?;
    print_element(row, ty, out)?;
    out.push(b']')?;
    Ok(())
}
