// SPDX-License-Identifier: MIT OR Apache-2.0
// The tables of the settings, except the cells.
ghost use Rattle.std.specs.Prelude.{◌≡◌, ◌≤◌, Some, IfOk};
ghost use Rattle.toml.specs.View.{view, table_view};
ghost use Rattle.settings.specs.Found.{network_found};
ghost use Rattle.settings.specs.Parameters.{IsNetwork, AreTimers, IsHandover};
ghost use Rattle.settings.specs.Reading.{FindsKey, FindsTable, FindsRequired, FindsOptional};
ghost use Rattle.settings.specs.Reading.{as_it_is};
ghost use Rattle.settings.specs.Rules.{network_rules, switch_rules};
ghost use Rattle.settings.specs.Rules.{timers_rules, handover_rules, optional_number};
ghost use Rattle.settings.specs.Tables.{at_key, number_in, network_of, address_of};
ghost use Rattle.settings.specs.Tables.{timers_of, numbers_of};

use crate::Key;
use crate::finding::Finding;
use crate::lookup::{digits_at, flag_at, held, optional_number_at, text_at};
use crate::network::NetworkFound;
use crate::timers::Timers;
use crate::unknown::refuse_unknown;
use ho_decision::HoParameters;
use toml::{Table, Value};

// ---- network

pub(crate) fn network_at<'a>(table: &'a Table) -> Result<NetworkFound<'a>, Finding<'a>>
    ensures within { IfOk result (λ n. IsNetwork (network_found n)) }
    ensures finds { FindsRequired result network_found Key.Network network_rules network_of
        (at_key Key.Network (table_view table.now)) }
{
    match held(table, Key::Network) {
        None => Err(Finding::Missing(Key::Network)),
        Some(value) => network_of(value),
    }
}

fn network_of<'a>(value: &'a Value) -> Result<NetworkFound<'a>, Finding<'a>>
    ensures within { IfOk result (λ n. IsNetwork (network_found n)) }
    ensures finds { FindsRequired result network_found Key.Network network_rules network_of
        (Some (view value.now)) }
{
    match value {
        Value::Table(network) => network_in(network),
        _ => Err(Finding::BadType(Key::Network)),
    }
}

fn network_in<'a>(table: &'a Table) -> Result<NetworkFound<'a>, Finding<'a>>
    ensures within { IfOk result (λ n. IsNetwork (network_found n)) }
    ensures finds { FindsTable result network_found Key.Network network_rules network_of
        (table_view table.now) }
{
    let keys = [Key::Mcc, Key::Mnc, Key::Release98];
    refuse_unknown(table, Some(Key::Network), &keys)?;
    Ok(NetworkFound {
        mcc: digits_at(table, Key::Mcc, 3, 3)?,
        mnc: digits_at(table, Key::Mnc, 2, 3)?,
        release98: flag_at(table, Key::Release98)?,
    })
}

// ---- switch

pub(crate) fn switch_at<'a>(table: &'a Table) -> Result<&'a str, Finding<'a>>
    ensures { FindsRequired result (λ t. t.now) Key.Switch switch_rules address_of
        (at_key Key.Switch (table_view table.now)) }
{
    match held(table, Key::Switch) {
        None => Err(Finding::Missing(Key::Switch)),
        Some(value) => switch_of(value),
    }
}

fn switch_of<'a>(value: &'a Value) -> Result<&'a str, Finding<'a>>
    ensures { FindsRequired result (λ t. t.now) Key.Switch switch_rules address_of
        (Some (view value.now)) }
{
    match value {
        Value::Table(switch) => switch_in(switch),
        _ => Err(Finding::BadType(Key::Switch)),
    }
}

fn switch_in<'a>(table: &'a Table) -> Result<&'a str, Finding<'a>>
    ensures { FindsTable result (λ t. t.now) Key.Switch switch_rules address_of
        (table_view table.now) }
{
    refuse_unknown(table, Some(Key::Switch), &[Key::Address])?;
    text_at(table, Key::Address)
}

// ---- timers, in milliseconds

// The default of each timer.
const TIMERS: Timers = Timers {
    t3101_ms: 3000,
    t3103_ms: 5000,
    t3107_ms: 5000,
    drain_ms: 2000,
};

pub(crate) fn timers_at<'a>(table: &'a Table) -> Result<Timers, Finding<'a>>
    ensures within { IfOk result AreTimers }
    ensures finds { FindsOptional result as_it_is Key.Timers timers_rules timers_of
        (at_key Key.Timers (table_view table.now)) }
{
    match held(table, Key::Timers) {
        None => Ok(TIMERS),
        Some(value) => timers_of(value),
    }
}

fn timers_of<'a>(value: &'a Value) -> Result<Timers, Finding<'a>>
    ensures within { IfOk result AreTimers }
    ensures finds { FindsRequired result as_it_is Key.Timers timers_rules timers_of
        (Some (view value.now)) }
{
    match value {
        Value::Table(timers) => timers_in(timers),
        _ => Err(Finding::BadType(Key::Timers)),
    }
}

fn timers_in<'a>(table: &'a Table) -> Result<Timers, Finding<'a>>
    ensures within { IfOk result AreTimers }
    ensures finds { FindsTable result as_it_is Key.Timers timers_rules timers_of
        (table_view table.now) }
{
    let keys = [Key::T3101, Key::T3103, Key::T3107, Key::Drain];
    refuse_unknown(table, Some(Key::Timers), &keys)?;
    Ok(Timers {
        t3101_ms: optional_number_at(table, Key::T3101, 100, 60_000, TIMERS.t3101_ms)?,
        t3103_ms: optional_number_at(table, Key::T3103, 100, 60_000, TIMERS.t3103_ms)?,
        t3107_ms: optional_number_at(table, Key::T3107, 100, 60_000, TIMERS.t3107_ms)?,
        drain_ms: optional_number_at(table, Key::Drain, 100, 60_000, TIMERS.drain_ms)?,
    })
}

// ---- handover

// The default of each key.
const HANDOVER: HoParameters = HoParameters {
    rxlev_window: 10,
    rxqual_window: 1,
    neighbour_window: 10,
    interval: 6,
    hysteresis: 3,
};

pub(crate) fn handover_at<'a>(table: &'a Table) -> Result<HoParameters, Finding<'a>>
    ensures within { IfOk result IsHandover }
    ensures finds { FindsOptional result as_it_is Key.Handover handover_rules numbers_of
        (at_key Key.Handover (table_view table.now)) }
{
    match held(table, Key::Handover) {
        None => Ok(HANDOVER),
        Some(value) => handover_of(value),
    }
}

fn handover_of<'a>(value: &'a Value) -> Result<HoParameters, Finding<'a>>
    ensures within { IfOk result IsHandover }
    ensures finds { FindsRequired result as_it_is Key.Handover handover_rules numbers_of
        (Some (view value.now)) }
{
    match value {
        Value::Table(handover) => handover_in(handover),
        _ => Err(Finding::BadType(Key::Handover)),
    }
}

fn handover_in<'a>(table: &'a Table) -> Result<HoParameters, Finding<'a>>
    ensures within { IfOk result IsHandover }
    ensures finds { FindsTable result as_it_is Key.Handover handover_rules numbers_of
        (table_view table.now) }
{
    let keys = [
        Key::RxlevWindow,
        Key::RxqualWindow,
        Key::NeighbourWindow,
        Key::PowerBudgetInterval,
        Key::PowerBudgetHysteresis,
    ];
    refuse_unknown(table, Some(Key::Handover), &keys)?;
    Ok(HoParameters {
        rxlev_window: octet_at(table, Key::RxlevWindow, 1, 10, HANDOVER.rxlev_window)?,
        rxqual_window: octet_at(table, Key::RxqualWindow, 1, 10, HANDOVER.rxqual_window)?,
        neighbour_window: octet_at(
            table,
            Key::NeighbourWindow,
            1,
            10,
            HANDOVER.neighbour_window,
        )?,
        interval: octet_at(table, Key::PowerBudgetInterval, 1, 99, HANDOVER.interval)?,
        hysteresis: octet_at(
            table,
            Key::PowerBudgetHysteresis,
            0,
            63,
            HANDOVER.hysteresis,
        )?,
    })
}

// An integer from `least` to `greatest` as a `u8`, or the default if the key is absent.
fn octet_at<'a>(
    table: &'a Table,
    key: Key,
    least: u8,
    greatest: u8,
    default: u8,
) -> Result<u8, Finding<'a>>
    requires { (least ≤ default) × (default ≤ greatest) }
    ensures finds { FindsKey result as_it_is
        (optional_number key least greatest default) number_in (table_view table.now) }
    ensures within { IfOk result (λ n. (least ≤ n) × (n ≤ greatest)) }
{
    let (least, greatest) = (u32::from(least), u32::from(greatest));
    Ok(optional_number_at(table, key, least, greatest, u32::from(default))? as u8)
}
