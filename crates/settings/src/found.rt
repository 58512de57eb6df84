// SPDX-License-Identifier: MIT OR Apache-2.0
// The settings as found in a table. Texts, cells and channels are borrowed from the table.
ghost use Rattle.std.specs.Prelude.{◌≡◌, IfOk};
ghost use Rattle.toml.specs.View.{table_view};
ghost use Rattle.settings.specs.Answer.{Finds};
ghost use Rattle.settings.specs.Found.{settings_found, AreFound};
ghost use Rattle.settings.specs.Tables.{parameters_of, first_fault};

use crate::Key;
use crate::cells::cells_at;
use crate::finding::Finding;
use crate::network::NetworkFound;
use crate::repeats::refuse_repeats;
use crate::tables::{handover_at, network_at, switch_at, timers_at};
use crate::timers::Timers;
use crate::unknown::refuse_unknown;
use ho_decision::HoParameters;
use toml::{Table, Value};

#[derive(Clone, Copy)]
pub(crate) struct Found<'a> {
    pub(crate) network: NetworkFound<'a>,
    pub(crate) switch_address: &'a str,
    pub(crate) timers: Timers,
    pub(crate) handover: HoParameters,
    pub(crate) cells: &'a [Value],
}

// Finds the settings in a table. `Err` is the first fault of the table.
pub(crate) fn found_in<'a>(table: &'a Table) -> Result<Found<'a>, Finding<'a>>
    ensures within { IfOk result AreFound }
    ensures finds { Finds result settings_found
        (parameters_of (table_view table.now)) (first_fault (table_view table.now)) }
{
    let tables = [
        Key::Network,
        Key::Switch,
        Key::Timers,
        Key::Handover,
        Key::Cell,
    ];
    refuse_unknown(table, None, &tables)?;
    let network = network_at(table)?;
    let switch_address = switch_at(table)?;
    let timers = timers_at(table)?;
    let handover = handover_at(table)?;
    let cells = cells_at(table)?;
    refuse_repeats(cells)?;
    Ok(Found {
        network,
        switch_address,
        timers,
        handover,
        cells,
    })
}
