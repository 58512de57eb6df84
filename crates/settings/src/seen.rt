// SPDX-License-Identifier: MIT OR Apache-2.0
// Reads the values of a cell without checking them. A value that is absent or of the wrong type is
// read as empty or as 0.
ghost use Rattle.std.specs.Prelude.{◌≡◌, Some, option_map};
ghost use Rattle.toml.specs.View.{view, items_view};
ghost use Rattle.settings.specs.Found.{cell_seen};
ghost use Rattle.settings.specs.Tables.{at_key, members_in, number_in, numbers_in};

use crate::Key;
use crate::lookup::held;
use toml::Value;

// The text at `cell.listen`.
#[tactic(auto, using(crate::proofs::Lists::or_none))]
pub(crate) fn listen_in<'a>(cell: &'a Value) -> &'a str
    ensures { result.now ≡ (cell_seen cell.now).listen }
{
    match at(cell, Key::Listen) {
        Some(Value::String(text)) => text.as_str(),
        _ => "",
    }
}

// The items of the list `cell.channels`.
#[tactic(auto, using(crate::proofs::Lists::or_none))]
pub(crate) fn channels_in<'a>(cell: &'a Value) -> &'a [Value]
    ensures { numbers_in (items_view result.now) ≡ (cell_seen cell.now).channels }
{
    match at(cell, Key::Channels) {
        Some(Value::Array(values)) => values,
        _ => &[],
    }
}

// The number at a key of the cell.
pub(crate) fn number_at(cell: &Value, key: Key) -> u64
    ensures { result ≡ number_in (at_key key (members_in (Some (view cell.now)))) }
{
    match at(cell, key) {
        Some(value) => number_of(value),
        None => 0,
    }
}

// The number in a value, or 0 if it is negative or no integer.
pub(crate) fn number_of(value: &Value) -> u64
    ensures { result ≡ number_in (Some (view value.now)) }
{
    match value {
        Value::Integer(number) if *number >= 0 => *number as u64,
        _ => 0,
    }
}

fn at<'a>(cell: &'a Value, key: Key) -> Option<&'a Value>
    ensures { option_map (λ v. view v.now) result ≡
        at_key key (members_in (Some (view cell.now))) }
{
    match cell {
        Value::Table(table) => held(table, key),
        _ => None,
    }
}
