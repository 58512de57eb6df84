// SPDX-License-Identifier: MIT OR Apache-2.0
ghost use Rattle.std.specs.Prelude.{◌≡◌, IfOk};
ghost use Rattle.settings.specs.Parameters.{handover_settings_of};
ghost use Rattle.connections.specs.Entries.{AreHandovers, IsStation};

use ho_decision::HoSettings;
use octets::Memory;
use settings::Settings;
use std::alloc::Global;
use std::marker::Model;
use std::snapshot::Snapshot;

/// The settings of the handover decision, for each cell in order.
#[derive(Drop)]
pub(crate) struct Cells {
    settings: Snapshot<Settings>,
    handovers: Vec<HoSettings>,
}

impl Model for Cells {
    ghost use Rattle.settings.specs.Parameters.{Parameters};
    ghost use Rattle.connections.specs.Entries.{AreHandovers};

    ghost Value = { Parameters };

    ghost view = { λ c. c.settings.value };

    ghost invariant = { λ c. AreHandovers c.settings.value c.handovers.items };
}

impl Cells {
    pub(crate) fn new(alloc: Global, settings: &Settings) -> Result<Cells, Memory>
        ensures { IfOk result (λ c. c ≡ settings.now) }
    {
        let handovers = handovers(alloc, settings)?;
        Ok(Cells {
            settings: Snapshot::of(settings),
            handovers,
        })
    }

    /// The settings of the handover decision for a connection that is served by the cell of
    /// `station`. Assumes: `station` is the number of a cell, from 1.
    pub(crate) fn handover(&self, station: u16) -> &HoSettings
        requires { IsStation self.now station }
        ensures { result.now ≡ handover_settings_of self.now station }
    {
        &self.handovers[usize::from(station) - 1]
    }
}

// The settings of the handover decision for each cell.
fn handovers(alloc: Global, settings: &Settings) -> Result<Vec<HoSettings>, Memory>
    ensures { IfOk result (λ handovers. AreHandovers settings.now handovers.items) }
{
    let mut handovers = Vec::new(alloc);
    for place in 0..settings.cell_count() {
        handovers.push(settings.handover_settings(alloc, place + 1)?)?;
    }
    Ok(handovers)
}
