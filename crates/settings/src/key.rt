// SPDX-License-Identifier: MIT OR Apache-2.0
ghost use Rattle.std.specs.Prelude.{◌≡◌, IfOk};
ghost use Rattle.settings.specs.Keys.{name_of, table_of, path_in};

use crate::Text;
use octets::Memory;
use std::alloc::Global;
use std::fmt;

/// A table or a key of the settings, as named in a fault.
#[derive(Clone, Copy, Debug, PartialEq, Eq)]
pub enum Key {
    /// The table `network`.
    Network,
    /// `network.mcc`, the mobile country code.
    Mcc,
    /// `network.mnc`, the mobile network code.
    Mnc,
    /// `network.release98`, whether mobiles and switch count N(SD) modulo 2, as in Release 98.
    Release98,
    /// The table `switch`.
    Switch,
    /// `switch.address`.
    Address,
    /// The table `timers`.
    Timers,
    /// `timers.t3101_ms`.
    T3101,
    /// `timers.t3103_ms`.
    T3103,
    /// `timers.t3107_ms`.
    T3107,
    /// `timers.drain_ms`.
    Drain,
    /// The table `handover1`.
    Handover,
    /// `handover1.window_rxlev_averaging`.
    RxlevWindow,
    /// `handover1.window_rxqual_averaging`.
    RxqualWindow,
    /// `handover1.window_rxlev_neighbor_averaging`.
    NeighbourWindow,
    /// `handover1.power_budget_interval`.
    PowerBudgetInterval,
    /// `handover1.power_budget_hysteresis`.
    PowerBudgetHysteresis,
    /// The array of tables `cell`.
    Cell,
    /// `cell.listen`.
    Listen,
    /// `cell.lac`.
    LocationAreaCode,
    /// `cell.ci`.
    CellIdentity,
    /// `cell.arfcn`.
    Arfcn,
    /// `cell.bsic`.
    Bsic,
    /// `cell.channels`.
    Channels,
}

impl Key {
    // The name of a table, or the name of a key without that of its table.
    pub(crate) fn name(self) -> &'static str
        ensures { result.now ≡ name_of self }
    {
        match self {
            Key::Network => "network",
            Key::Mcc => "mcc",
            Key::Mnc => "mnc",
            Key::Release98 => "release98",
            Key::Switch => "switch",
            Key::Address => "address",
            Key::Timers => "timers",
            Key::T3101 => "t3101_ms",
            Key::T3103 => "t3103_ms",
            Key::T3107 => "t3107_ms",
            Key::Drain => "drain_ms",
            Key::Handover => "handover1",
            Key::RxlevWindow => "window_rxlev_averaging",
            Key::RxqualWindow => "window_rxqual_averaging",
            Key::NeighbourWindow => "window_rxlev_neighbor_averaging",
            Key::PowerBudgetInterval => "power_budget_interval",
            Key::PowerBudgetHysteresis => "power_budget_hysteresis",
            Key::Cell => "cell",
            Key::Listen => "listen",
            Key::LocationAreaCode => "lac",
            Key::CellIdentity => "ci",
            Key::Arfcn => "arfcn",
            Key::Bsic => "bsic",
            Key::Channels => "channels",
        }
    }

    // The table that contains this key, or `None` for a table.
    pub(crate) fn table(self) -> Option<Key>
        ensures { result ≡ table_of self }
    {
        match self {
            Key::Mcc | Key::Mnc | Key::Release98 => Some(Key::Network),
            Key::Address => Some(Key::Switch),
            Key::T3101 | Key::T3103 | Key::T3107 | Key::Drain => Some(Key::Timers),
            Key::RxlevWindow
            | Key::RxqualWindow
            | Key::NeighbourWindow
            | Key::PowerBudgetInterval
            | Key::PowerBudgetHysteresis => Some(Key::Handover),
            Key::Listen
            | Key::LocationAreaCode
            | Key::CellIdentity
            | Key::Arfcn
            | Key::Bsic
            | Key::Channels => Some(Key::Cell),
            Key::Network | Key::Switch | Key::Timers | Key::Handover | Key::Cell => None,
        }
    }
}

/// Writes the full name of a key, such as `network.mcc`, or the name of a table, such as `network`.
impl fmt::Display for Key {
    fn fmt<W: fmt::Write>(&self, f: &mut fmt::Formatter<W>) -> fmt::Result {
        match self.table() {
            Some(table) => write!(f, "{}.{}", table.name(), self.name()),
            None => f.write_str(self.name()),
        }
    }
}

// The full name of the key `name` in `table`, or at the top level if `table` is `None`. `Err` only
// if an allocation fails.
pub(crate) fn path(alloc: Global, table: Option<Key>, name: &str) -> Result<Text, Memory>
    ensures { IfOk result (λ text. text ≡ path_in table name.now) }
{
    let mut text = String::new(alloc);
    if let Some(table) = table {
        text.push_str(table.name())?;
        text.push_str(".")?;
    }
    text.push_str(name)?;
    Ok(Text::new(text))
}
