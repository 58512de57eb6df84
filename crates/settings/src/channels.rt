// SPDX-License-Identifier: MIT OR Apache-2.0
// The channels of a cell: a list of the numbers of TCHs and SDCCHs.
ghost use Rattle.std.specs.Prelude.{◌≡◌, ◌≤◌, Some, true, All, IfOk, IfSome, is_some};
ghost use Rattle.std.specs.Prelude.{length};
ghost use Rattle.toml.specs.Data.{array};
ghost use Rattle.toml.specs.View.{view, items_view, table_view};
ghost use Rattle.settings.specs.Answer.{Finds};
ghost use Rattle.settings.specs.Faults.{all_items, is_integer, is_channel, value_fault};
ghost use Rattle.settings.specs.Parameters.{IsChannel};
ghost use Rattle.settings.specs.Reading.{FindsKey, FindsValue};
ghost use Rattle.settings.specs.Rules.{channels, required};
ghost use Rattle.settings.specs.Tables.{number_in, items_in, numbers_in};

use crate::Key;
use crate::finding::Finding;
use crate::lookup::{held, is_count};
use octets::Memory;
use rsl_codec::{ChanNo, FIRST_TCH, LAST_SDCCH};
use std::alloc::Global;
use toml::{Table, Value};

// ---- finding

// A required list of `least` to `most` channels.
pub(crate) fn channels_at<'a>(
    table: &'a Table,
    key: Key,
    least: usize,
    most: usize,
) -> Result<&'a [Value], Finding<'a>>
    ensures count { IfOk result (λ vs. (least ≤ length vs.now) × (length vs.now ≤ most)) }
    ensures each { IfOk result (λ vs. all_items is_channel (items_view vs.now) ≡ true) }
    ensures finds { FindsKey result (λ vs. items_view vs.now)
        (required key (channels least most)) items_in (table_view table.now) }
{
    match held(table, key) {
        None => Err(Finding::Missing(key)),
        Some(value) => channels_of(value, key, least, most),
    }
}

fn channels_of<'a>(
    value: &'a Value,
    key: Key,
    least: usize,
    most: usize,
) -> Result<&'a [Value], Finding<'a>>
    ensures count { IfOk result (λ vs. (least ≤ length vs.now) × (length vs.now ≤ most)) }
    ensures each { IfOk result (λ vs. all_items is_channel (items_view vs.now) ≡ true) }
    ensures finds { FindsValue result (λ vs. items_view vs.now)
        key (channels least most) items_in (view value.now) }
{
    match value {
        Value::Array(values) => channels_in(values, key, least, most),
        _ => Err(Finding::BadType(key)),
    }
}

#[tactic(auto, using(crate::proofs::Lists::count_items_view))]
fn channels_in<'a>(
    values: &'a [Value],
    key: Key,
    least: usize,
    most: usize,
) -> Result<&'a [Value], Finding<'a>>
    ensures count { IfOk result (λ vs. (least ≤ length vs.now) × (length vs.now ≤ most)) }
    ensures each { IfOk result (λ vs. all_items is_channel (items_view vs.now) ≡ true) }
    ensures finds { Finds result (λ vs. items_view vs.now) (items_view values.now)
        (value_fault key (channels least most) (array (items_view values.now))) }
{
    if !are_integers(values) {
        return Err(Finding::BadType(key));
    }
    if !is_count(values.len(), least, most) || !are_channels(values) {
        return Err(Finding::BadValue(key));
    }
    Ok(values)
}

fn are_integers(values: &[Value]) -> bool
    ensures { result ≡ all_items is_integer (items_view values.now) }
{
    for value in values {
        if !value.is_integer() {
            return false;
        }
    }
    true
}

fn are_channels(values: &[Value]) -> bool
    ensures { result ≡ all_items is_channel (items_view values.now) }
{
    for value in values {
        if channel_in(value).is_none() {
            return false;
        }
    }
    true
}

// The channel that has the number in `value`. `None` if the value isn't the number of a TCH or an
// SDCCH.
fn channel_in(value: &Value) -> Option<ChanNo>
    ensures is { is_some result ≡ is_channel (view value.now) }
    ensures number { IfSome result (λ channel. channel ≡ number_in (Some (view value.now))) }
    ensures within { IfSome result IsChannel }
{
    let Value::Integer(number) = value else {
        return None;
    };
    let number = *number;
    if number < i64::from(FIRST_TCH) || i64::from(LAST_SDCCH) < number {
        return None;
    }
    match ChanNo::read(number as u8) {
        Ok(channel) => Some(channel),
        Err(_) => None,
    }
}

// ---- copying

// Copies the channels. Assumes: each value is the number of a channel. `Err` only if an allocation
// fails.
pub(crate) fn copy_channels(alloc: Global, values: &[Value]) -> Result<Vec<ChanNo>, Memory>
    requires { all_items is_channel (items_view values.now) ≡ true }
    ensures count { IfOk result (λ channels. length channels.items ≡ length values.now) }
    ensures within { IfOk result (λ channels. All IsChannel channels.items) }
    ensures numbers { IfOk result (λ channels.
        channels.items ≡ numbers_in (items_view values.now)) }
{
    let mut channels = Vec::new(alloc);
    for value in values {
        channels.push(channel_of(value))?;
    }
    Ok(channels)
}

fn channel_of(value: &Value) -> ChanNo
    requires { is_channel (view value.now) ≡ true }
    ensures number { result ≡ number_in (Some (view value.now)) }
    ensures within { IsChannel result }
{
    match channel_in(value) {
        Some(channel) => channel,
        None => unreachable!(),
    }
}
