//! The cells of a local that its initialiser names, by their places (C99 6.7.8, 21).
ghost use Rattle.std.specs.Prelude.{◌≡◌, ◌++◌, ◌∷◌, [], IfOk, OnOk};
ghost use Rattle.lk_typed.specs.Absent as spec;
ghost use Rattle.lk_elab_init.specs.Cells.{cells_begun, cells_given, cells_of_text};

use crate::givens::{Beginning, PartGiven};
use crate::paths::{are_alike, longer_path, path_of};
use lk_base::{CellStep, NoMemory, Seq};
use std::alloc::Global;

/// Puts the cells that the bytes of a text name.
fn put_bytes(
    alloc: Global,
    path: &[CellStep],
    bytes: &[u8],
    out: &mut Vec<Seq<CellStep>>,
) -> Result<(), NoMemory>
    ensures { OnOk result (out.new.items ≡ out.old.items ++ cells_of_text path.now 0 bytes.now) }
{
    for (place, _) in bytes.iter().enumerate() {
        let cell = longer_path(alloc, path, CellStep::Index(place as u64))?;
        out.push(cell)?;
    }
    Ok(())
}

/// Puts a cell.
fn put_cell(alloc: Global, path: &[CellStep], out: &mut Vec<Seq<CellStep>>) -> Result<(), NoMemory>
    ensures { OnOk result (out.new.items ≡ out.old.items ++ path.now ∷ []) }
{
    let cell = path_of(alloc, path)?;
    out.push(cell)?;
    Ok(())
}

/// Puts the cells that a part names: each byte of a text is one.
fn put_part(
    alloc: Global,
    part: &PartGiven<'_>,
    out: &mut Vec<Seq<CellStep>>,
) -> Result<(), NoMemory>
    ensures { OnOk result (out.new.items ≡ out.old.items ++ cells_begun part.now.path part.now.begins) }
{
    match &part.begins {
        Beginning::Value(_) | Beginning::Word => put_cell(alloc, part.path.list(), out),
        Beginning::Bytes(_, _, bytes) => put_bytes(alloc, part.path.list(), bytes.list(), out),
    }
}

/// The cells that these parts name, in their order.
pub(crate) fn named_cells(
    alloc: Global,
    parts: &[PartGiven<'_>],
) -> Result<Vec<Seq<CellStep>>, NoMemory>
    ensures { IfOk result (λ cells. cells.items ≡ cells_given parts.now) }
{
    let mut cells = Vec::new(alloc);
    for part in parts {
        put_part(alloc, part, &mut cells)?;
    }
    Ok(cells)
}

/// Those of these cells that are of the place of a cell.
pub(crate) fn those_alike(
    alloc: Global,
    cell: &[CellStep],
    cells: &[Seq<CellStep>],
) -> Result<Vec<Seq<CellStep>>, NoMemory>
    ensures { IfOk result (λ those. those.items ≡ spec.those_alike cell.now cells.now) }
{
    let mut those = Vec::new(alloc);
    for other in cells {
        if are_alike(cell, other.list()) {
            put_cell(alloc, other.list(), &mut those)?;
        }
    }
    Ok(those)
}
