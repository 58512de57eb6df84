// SPDX-License-Identifier: MIT OR Apache-2.0
// Checks that values that must be unique don't occur twice in the cells of a table.
ghost use Rattle.std.specs.Prelude.{◌≡◌, nat_eq, OnOk};
ghost use Rattle.std.specs.List.{list_all, list_any};
ghost use Rattle.toml.specs.View.{items_view};
ghost use Rattle.settings.specs.Answer.{Finds};
ghost use Rattle.settings.specs.Found.{cell_seen};
ghost use Rattle.settings.specs.Parameters.{all_differ, channels_differ};
ghost use Rattle.settings.specs.Parameters.{same_listen, same_air, IsUnrepeated};
ghost use Rattle.settings.specs.Reading.{as_it_is};
ghost use Rattle.settings.specs.Tables.{cells_of, numbers_in, repeated_fault};

use crate::Key;
use crate::finding::Finding;
use crate::seen::{channels_in, listen_in, number_at, number_of};
use toml::Value;

// Refuses cells with repeated values. Looks first for a channel that occurs twice in a cell, then
// for an address that two cells share, then for two cells with the same ARFCN and BSIC.
pub(crate) fn refuse_repeats<'a>(cells: &'a [Value]) -> Result<(), Finding<'a>>
    ensures finds { Finds result as_it_is tt (repeated_fault (cells_of (items_view cells.now))) }
    ensures ok { OnOk result (IsUnrepeated (cells_of (items_view cells.now))) }
{
    if !all_channels_differ(cells) {
        return Err(Finding::Repeated(Key::Channels));
    }
    if !listens_differ(cells) {
        return Err(Finding::Repeated(Key::Listen));
    }
    if !airs_differ(cells) {
        return Err(Finding::Repeated(Key::Bsic));
    }
    Ok(())
}

fn all_channels_differ(cells: &[Value]) -> bool
    ensures { result ≡ list_all channels_differ (cells_of (items_view cells.now)) }
{
    for cell in cells {
        if !are_different(channels_in(cell)) {
            return false;
        }
    }
    true
}

fn are_different(channels: &[Value]) -> bool
    ensures { result ≡ all_differ nat_eq (numbers_in (items_view channels.now)) }
{
    for (i, channel) in channels.iter().enumerate() {
        if has_number(&channels[i + 1..], number_of(channel)) {
            return false;
        }
    }
    true
}

fn has_number(values: &[Value], number: u64) -> bool
    ensures { result ≡ list_any (nat_eq number) (numbers_in (items_view values.now)) }
{
    for value in values {
        if number == number_of(value) {
            return true;
        }
    }
    false
}

fn listens_differ(cells: &[Value]) -> bool
    ensures { result ≡ all_differ same_listen (cells_of (items_view cells.now)) }
{
    for (i, cell) in cells.iter().enumerate() {
        if has_listen(&cells[i + 1..], cell) {
            return false;
        }
    }
    true
}

fn has_listen(cells: &[Value], cell: &Value) -> bool
    ensures { result ≡
        list_any (same_listen (cell_seen cell.now)) (cells_of (items_view cells.now)) }
{
    for other in cells {
        if listen_in(cell) == listen_in(other) {
            return true;
        }
    }
    false
}

fn airs_differ(cells: &[Value]) -> bool
    ensures { result ≡ all_differ same_air (cells_of (items_view cells.now)) }
{
    for (i, cell) in cells.iter().enumerate() {
        if has_air(&cells[i + 1..], cell) {
            return false;
        }
    }
    true
}

fn has_air(cells: &[Value], cell: &Value) -> bool
    ensures { result ≡
        list_any (same_air (cell_seen cell.now)) (cells_of (items_view cells.now)) }
{
    for other in cells {
        if is_same_air(cell, other) {
            return true;
        }
    }
    false
}

#[tactic(auto, using(crate::proofs::Lists::or_none, crate::proofs::Lists::same_bsic))]
fn is_same_air(cell: &Value, other: &Value) -> bool
    ensures { result ≡ same_air (cell_seen cell.now) (cell_seen other.now) }
{
    number_at(cell, Key::Arfcn) == number_at(other, Key::Arfcn)
        && number_at(cell, Key::Bsic) == number_at(other, Key::Bsic)
}
