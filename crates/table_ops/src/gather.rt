//! Rows by their places.
ghost use Rattle.std.specs.Prelude.{◌≡◌, ◌<◌, length, map, OnOk, IfOk};
ghost use Rattle.table_ops.specs.Columns.{cell_of};

use std::alloc::Global;
use xq_base::{Item, Want};

/// The cells at these places.
pub fn gather_cells(alloc: Global, cells: &[Item], places: &[u32]) -> Result<Vec<Item>, Want>
    ensures { IfOk result (λ out. out.items ≡ map (cell_of cells.now) places.now) }
{
    let mut out = Vec::with_capacity(alloc, places.len())?;
    for place in places {
        if out.push(cell_at(cells, *place)).is_err() {
            return Err(Want);
        }
    }
    Ok(out)
}

pub fn cell_at(cells: &[Item], place: u32) -> Item
    ensures { result ≡ cell_of cells.now place }
{
    match cells.get(place as usize) {
        Some(cell) => *cell,
        None => Item::Int(0),
    }
}
