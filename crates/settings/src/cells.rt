// SPDX-License-Identifier: MIT OR Apache-2.0
// The cells of the settings: an array of tables.
ghost use Rattle.std.specs.Prelude.{◌≡◌, ◌≤◌, Some, None, All, IfOk, length};
ghost use Rattle.toml.specs.Data.{array};
ghost use Rattle.toml.specs.View.{view, items_view, table_view};
ghost use Rattle.settings.specs.Answer.{Finds};
ghost use Rattle.settings.specs.Faults.{all_items, is_table, required_table_fault};
ghost use Rattle.settings.specs.Found.{cell_found, IsCellFound};
ghost use Rattle.settings.specs.Parameters.{IsCell};
ghost use Rattle.settings.specs.Reading.{FindsTable, FindsRequired, as_it_is};
ghost use Rattle.settings.specs.Rules.{cell_rules};
ghost use Rattle.settings.specs.Tables.{at_key, items_in, members_in, cell_of, cells_of};
ghost use Rattle.settings.specs.Tables.{each_cell_fault, cells_fault};

use crate::cell::CellFound;
use crate::channels::channels_at;
use crate::finding::Finding;
use crate::lookup::{held, is_count, number_at, text_at};
use crate::unknown::refuse_unknown;
use crate::{Bsic, Cell, Key};
use dtap_codec::Arfcn;
use ho_decision::MAX_CELLS;
use octets::Memory;
use std::alloc::Global;
use toml::{Table, Value};

// ---- finding

// The values of the cells. `Err` is the first fault of the array of cells.
pub(crate) fn cells_at<'a>(table: &'a Table) -> Result<&'a [Value], Finding<'a>>
    ensures count { IfOk result (λ vs. (1 ≤ length vs.now) × (length vs.now ≤ 32)) }
    ensures each { IfOk result (λ vs. each_cell_fault (items_view vs.now) ≡ None) }
    ensures finds { let held = at_key Key.Cell (table_view table.now) in
        Finds result (λ vs. items_view vs.now) (items_in held) (cells_fault held) }
{
    match held(table, Key::Cell) {
        None => Err(Finding::Missing(Key::Cell)),
        Some(Value::Array(values)) => cells_in(values),
        Some(_) => Err(Finding::BadType(Key::Cell)),
    }
}

#[tactic(auto, using(crate::proofs::Lists::count_items_view))]
fn cells_in<'a>(values: &'a [Value]) -> Result<&'a [Value], Finding<'a>>
    ensures count { IfOk result (λ vs. (1 ≤ length vs.now) × (length vs.now ≤ 32)) }
    ensures each { IfOk result (λ vs. each_cell_fault (items_view vs.now) ≡ None) }
    ensures finds { Finds result (λ vs. items_view vs.now)
        (items_view values.now) (cells_fault (Some (array (items_view values.now)))) }
{
    if !are_tables(values) {
        return Err(Finding::BadType(Key::Cell));
    }
    if !is_count(values.len(), 1, MAX_CELLS) {
        return Err(Finding::BadValue(Key::Cell));
    }
    refuse_cells(values)?;
    Ok(values)
}

fn are_tables(values: &[Value]) -> bool
    ensures { result ≡ all_items is_table (items_view values.now) }
{
    for value in values {
        if !value.is_table() {
            return false;
        }
    }
    true
}

// Checks the cells in order. `Err` is the first fault.
fn refuse_cells<'a>(values: &'a [Value]) -> Result<(), Finding<'a>>
    ensures { Finds result as_it_is tt (each_cell_fault (items_view values.now)) }
{
    for value in values {
        if let Err(finding) = cell_at(value) {
            return Err(finding);
        }
    }
    Ok(())
}

fn cell_at<'a>(value: &'a Value) -> Result<CellFound<'a>, Finding<'a>>
    ensures within { IfOk result IsCellFound }
    ensures finds { FindsRequired result cell_found Key.Cell cell_rules cell_of
        (Some (view value.now)) }
{
    match value {
        Value::Table(table) => cell_in(table),
        _ => Err(Finding::BadType(Key::Cell)),
    }
}

fn cell_in<'a>(table: &'a Table) -> Result<CellFound<'a>, Finding<'a>>
    ensures within { IfOk result IsCellFound }
    ensures finds { FindsTable result cell_found Key.Cell cell_rules cell_of
        (table_view table.now) }
{
    let keys = [
        Key::Listen,
        Key::LocationAreaCode,
        Key::CellIdentity,
        Key::Arfcn,
        Key::Bsic,
        Key::Channels,
    ];
    refuse_unknown(table, Some(Key::Cell), &keys)?;
    Ok(CellFound {
        listen: text_at(table, Key::Listen)?,
        location_area_code: number_at(table, Key::LocationAreaCode, 0, 65_535)? as u16,
        cell_identity: number_at(table, Key::CellIdentity, 0, 65_535)? as u16,
        arfcn: Arfcn::new(number_at(table, Key::Arfcn, 1, 1023)? as u16),
        bsic: Bsic::new(number_at(table, Key::Bsic, 0, 63)? as u8),
        channels: channels_at(table, Key::Channels, 1, 64)?,
    })
}

// ---- copying

// Copies the cells of a table. Assumes: no cell has a fault. `Err` only if an allocation fails.
pub(crate) fn copy_cells(alloc: Global, values: &[Value]) -> Result<Vec<Cell>, Memory>
    requires { each_cell_fault (items_view values.now) ≡ None }
    ensures count { IfOk result (λ cells. length cells.items ≡ length values.now) }
    ensures within { IfOk result (λ cells. All IsCell cells.items) }
    ensures cells { IfOk result (λ cells. cells.items ≡ cells_of (items_view values.now)) }
{
    let mut cells = Vec::new(alloc);
    for value in values {
        cells.push(copy_cell(alloc, value)?)?;
    }
    Ok(cells)
}

fn copy_cell(alloc: Global, value: &Value) -> Result<Cell, Memory>
    requires { required_table_fault Key.Cell cell_rules (Some (view value.now)) ≡ None }
    ensures within { IfOk result IsCell }
    ensures cell { IfOk result (λ cell. cell ≡ cell_of (members_in (Some (view value.now)))) }
{
    match cell_at(value) {
        Ok(cell) => cell.copy(alloc),
        Err(_) => unreachable!(),
    }
}
