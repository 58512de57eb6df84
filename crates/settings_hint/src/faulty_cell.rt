// SPDX-License-Identifier: MIT OR Apache-2.0
// Finds the cell with the first fault of the settings.
ghost use Rattle.std.specs.Prelude.{◌≤◌, IfSome};

use settings::{Key, Settings, SettingsFault};
use std::alloc::Global;
use toml::{Table, Value};

const CELL: &str = "cell";

/// The number of a cell, counted from 1, and the count of all cells.
#[derive(Clone, Copy)]
pub(crate) struct NumberedCell {
    pub(crate) number: usize,
    pub(crate) count: usize,
}

/// The cell with the first fault of the settings in `text`. Adds the cells one by one to the other
/// tables, and returns the first cell whose addition gives the settings a fault. `None` if the
/// fault isn't in a cell, or if memory runs out.
pub(crate) fn faulty_cell(alloc: Global, text: &str) -> Option<NumberedCell>
    ensures { IfSome result (λ cell. 1 ≤ cell.number) }
{
    let Ok(mut table) = toml::table_from_str(alloc, text) else {
        return None;
    };
    let cells = cells_out_of(alloc, &mut table)?;
    if !lacks_only_cells(alloc, &table) {
        return None;
    }
    let count = cells.len();
    for (place, cell) in cells.into_iter().enumerate() {
        if !add_cell(&mut table, cell) {
            return None;
        }
        match Settings::from_table(alloc, &table) {
            Ok(_) => {}
            Err(SettingsFault::Memory) => return None,
            Err(_) => {
                let number = place.saturating_add(1);
                return Some(NumberedCell { number, count });
            }
        }
    }
    None
}

/// Removes the cells from `table` and returns the cells. `None` if `cell` isn't an array.
fn cells_out_of(alloc: Global, table: &mut Table) -> Option<Vec<Value>> {
    match table.get_mut(CELL) {
        Some(Value::Array(cells)) => Some(std::mem::replace(cells, Vec::new(alloc))),
        _ => None,
    }
}

/// Whether the first fault of the settings in `table` is that there are no cells.
fn lacks_only_cells(alloc: Global, table: &Table) -> bool {
    matches!(
        Settings::from_table(alloc, table),
        Err(SettingsFault::BadValue(Key::Cell))
    )
}

/// Adds a cell to the cells of `table`. Returns whether the cell was added: false if an allocation
/// fails or `cell` isn't an array.
fn add_cell(table: &mut Table, cell: Value) -> bool {
    match table.get_mut(CELL) {
        Some(Value::Array(cells)) => cells.push(cell).is_ok(),
        _ => false,
    }
}
