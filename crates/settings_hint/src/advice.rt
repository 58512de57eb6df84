// SPDX-License-Identifier: MIT OR Apache-2.0
// Advice on what a table or a key may hold, in the words of docs/SETTINGS.md.

use settings::Key;

/// The values that `key` may have, or its form if `key` is a table.
pub(crate) fn values(key: Key) -> &'static str {
    match key {
        Key::Network | Key::Switch | Key::Timers | Key::Handover => "a table",
        Key::Mcc => "text of 3 decimal digits",
        Key::Mnc => "text of 2 or 3 decimal digits",
        Key::Release98 => "true or false",
        Key::Address | Key::Listen => "text, not empty",
        Key::T3101 | Key::T3103 | Key::T3107 | Key::Drain => "100 to 60000",
        Key::RxlevWindow | Key::RxqualWindow | Key::NeighbourWindow => "1 to 10",
        Key::PowerBudgetInterval => "1 to 99",
        Key::PowerBudgetHysteresis => "0 to 63",
        Key::Cell => "1 to 32 tables",
        Key::LocationAreaCode | Key::CellIdentity => "0 to 65535",
        Key::Arfcn => "1 to 1023",
        Key::Bsic => "0 to 63",
        Key::Channels => "1 to 64 numbers, each 0x08 to 0x7F",
    }
}

/// The type of the values of `key`, to be printed before `values(key)`. Empty if `values(key)`
/// names the type already.
pub(crate) fn kind(key: Key) -> &'static str {
    match key {
        Key::T3101
        | Key::T3103
        | Key::T3107
        | Key::Drain
        | Key::RxlevWindow
        | Key::RxqualWindow
        | Key::NeighbourWindow
        | Key::PowerBudgetInterval
        | Key::PowerBudgetHysteresis
        | Key::LocationAreaCode
        | Key::CellIdentity
        | Key::Arfcn
        | Key::Bsic => "a whole number, ",
        Key::Cell | Key::Channels => "an array of ",
        _ => "",
    }
}

/// The known keys of `table`; with `None`, the known tables at the top level.
pub(crate) fn known(table: Option<Key>) -> &'static str {
    match table {
        Some(Key::Network) => "its keys are mcc, mnc and release98",
        Some(Key::Switch) => "its key is address",
        Some(Key::Timers) => "its keys are t3101_ms, t3103_ms, t3107_ms and drain_ms",
        Some(Key::Handover) => {
            "its keys are window_rxlev_averaging, window_rxqual_averaging, \
             window_rxlev_neighbor_averaging, power_budget_interval and power_budget_hysteresis"
        }
        Some(Key::Cell) => "its keys are listen, lac, ci, arfcn, bsic and channels",
        _ => "the tables are network, switch, timers, handover1 and cell",
    }
}

/// The advice if a value of `key` is repeated: what occurs twice.
pub(crate) fn twice(key: Key) -> &'static str {
    match key {
        Key::Channels => "it has a channel twice",
        Key::Listen => "an earlier cell has this address",
        _ => "an earlier cell has this ARFCN and this BSIC",
    }
}

/// The table that contains `key`; `None` if `key` is a table itself.
pub(crate) fn table_of(key: Key) -> Option<Key> {
    match key {
        Key::Mcc | Key::Mnc | Key::Release98 => Some(Key::Network),
        Key::Address => Some(Key::Switch),
        Key::T3101 | Key::T3103 | Key::T3107 | Key::Drain => Some(Key::Timers),
        Key::RxlevWindow
        | Key::RxqualWindow
        | Key::NeighbourWindow
        | Key::PowerBudgetInterval
        | Key::PowerBudgetHysteresis => Some(Key::Handover),
        Key::Listen
        | Key::LocationAreaCode
        | Key::CellIdentity
        | Key::Arfcn
        | Key::Bsic
        | Key::Channels => Some(Key::Cell),
        Key::Network | Key::Switch | Key::Timers | Key::Handover | Key::Cell => None,
    }
}

/// The table in the full name of a key, such as `timers` in `timers.drain_ms`. `None` for a name at
/// the top level or of an unknown table.
pub(crate) fn table_in(name: &str) -> Option<Key> {
    match name.split_once('.') {
        Some(("network", _)) => Some(Key::Network),
        Some(("switch", _)) => Some(Key::Switch),
        Some(("timers", _)) => Some(Key::Timers),
        Some(("handover1", _)) => Some(Key::Handover),
        Some(("cell", _)) => Some(Key::Cell),
        _ => None,
    }
}

/// The name of a table in the settings.
pub(crate) fn name_of(table: Key) -> &'static str {
    match table {
        Key::Network => "network",
        Key::Switch => "switch",
        Key::Timers => "timers",
        Key::Handover => "handover1",
        _ => "cell",
    }
}
