//! Copies of rows and of their cells.

ghost use Rattle.std.specs.Prelude.{◌≡◌, IfOk};
ghost use Rattle.rel_model.specs.Picked as picked;
ghost use Rattle.rel_model.specs.Tables.{cells_at};

use crate::Row;
use pg_base::{Cell, Memory};
use sqlite_items::Items;
use std::alloc::Global;

/// A copy of a row.
pub fn copy_row(alloc: Global, row: &Row) -> Result<Row, Memory>
    ensures { IfOk result (λ copy. copy ≡ row.now) }
{
    let cells = copy_cells(alloc, row.cells.as_slice())?;
    Ok(Row {
        number: row.number,
        cells,
    })
}

/// A copy of cells.
pub fn copy_cells(alloc: Global, cells: &[Cell]) -> Result<Items<Cell>, Memory>
    ensures { IfOk result (λ copy. copy ≡ cells.now) }
{
    let mut copy = Vec::with_capacity(alloc, cells.len())?;
    for cell in cells {
        copy.push(cell.copy(alloc)?)?;
    }
    Ok(Items::from_vec(copy))
}

/// A copy of the cell at a place, a null where there is none.
pub fn cell_at(alloc: Global, cells: &[Cell], place: u32) -> Result<Cell, Memory>
    ensures { IfOk result (λ copy. copy ≡ picked.cell_at cells.now place) }
{
    match cells.get(place as usize) {
        Some(cell) => cell.copy(alloc),
        None => Ok(Cell::Null),
    }
}

/// Copies of the cells at these places, a null where there is none.
pub fn cells_at(alloc: Global, cells: &[Cell], places: &[u32]) -> Result<Items<Cell>, Memory>
    ensures { IfOk result (λ list. list ≡ cells_at places.now cells.now) }
{
    let mut list = Vec::with_capacity(alloc, places.len())?;
    for place in places {
        list.push(cell_at(alloc, cells, *place)?)?;
    }
    Ok(Items::from_vec(list))
}
