// SPDX-License-Identifier: MIT OR Apache-2.0
ghost use Rattle.std.specs.Prelude.{◌≡◌, ◌≤◌, IfOk};
ghost use Rattle.settings.specs.Found.{cell_found, IsCellFound};
ghost use Rattle.settings.specs.Parameters.{AreChannels, IsCell, air_of};

use crate::channels::copy_channels;
use crate::{Bsic, Text};
use dtap_codec::Arfcn;
use octets::Memory;
use rsl_codec::ChanNo;
use std::alloc::Global;
use std::marker::Model;
use toml::Value;

/// A cell of the settings. In contracts, a cell is a value of `CellParameters` for which `IsCell`
/// holds: the ARFCN and the channels are in their ranges.
#[derive(Drop)]
pub struct Cell {
    pub(crate) listen: Text,
    pub(crate) location_area_code: u16,
    pub(crate) cell_identity: u16,
    pub(crate) arfcn: Arfcn,
    pub(crate) bsic: Bsic,
    pub(crate) channels: Vec<ChanNo>,
}

impl Model for Cell {
    ghost use Rattle.settings.specs.Parameters.{CellParameters, IsCell, a_cell};

    ghost Value = { CellParameters };

    ghost view = { λ c.
        a_cell c.listen c.location_area_code c.cell_identity c.arfcn c.bsic c.channels.items };

    ghost invariant = { λ c. IsCell
        (a_cell c.listen c.location_area_code c.cell_identity c.arfcn c.bsic c.channels.items) };
}

impl Cell {
    /// The address on which the program accepts the connection of the cell's station; a text that
    /// isn't empty.
    pub fn listen(&self) -> &str
        ensures { result.now ≡ self.now.listen }
    {
        self.listen.as_str()
    }

    /// The location area code, LAC.
    pub fn location_area_code(&self) -> u16
        ensures { result ≡ self.now.location_area_code }
    {
        self.location_area_code
    }

    /// The cell identity, CI.
    pub fn cell_identity(&self) -> u16
        ensures { result ≡ self.now.cell_identity }
    {
        self.cell_identity
    }

    /// The ARFCN of the BCCH carrier, 1 to 1023.
    pub fn arfcn(&self) -> Arfcn
        ensures value { result ≡ self.now.arfcn }
        ensures within { (1 ≤ result) × (result ≤ 1023) }
    {
        self.arfcn
    }

    /// The base station identity code.
    pub fn bsic(&self) -> Bsic
        ensures { result ≡ self.now.bsic }
    {
        self.bsic
    }

    /// The numbers of the cell's channels, 1 to 64 TCHs and SDCCHs, in the order of the settings.
    pub fn channels(&self) -> &[ChanNo]
        ensures value { result.now ≡ self.now.channels }
        ensures within { AreChannels 1 64 result.now }
    {
        self.channels.as_slice()
    }

    /// The ARFCN and the BSIC of the cell, for the handover decision.
    pub(crate) fn air(&self) -> ho_decision::Cell
        ensures { result ≡ air_of self.now }
    {
        ho_decision::Cell {
            arfcn: self.arfcn.number(),
            bsic: self.bsic.number(),
        }
    }

    /// A copy of the cell. `Err` only if an allocation fails.
    pub(crate) fn copy(&self, alloc: Global) -> Result<Cell, Memory>
        ensures { IfOk result (λ copy. copy ≡ self.now) }
    {
        Ok(Cell {
            listen: Text::copy(alloc, self.listen.as_str())?,
            location_area_code: self.location_area_code,
            cell_identity: self.cell_identity,
            arfcn: self.arfcn,
            bsic: self.bsic,
            channels: Vec::from_slice(alloc, self.channels.as_slice())?,
        })
    }
}

/// A cell as found in a table. The text and the channels are borrowed from the table.
#[derive(Clone, Copy)]
pub(crate) struct CellFound<'a> {
    pub(crate) listen: &'a str,
    pub(crate) location_area_code: u16,
    pub(crate) cell_identity: u16,
    pub(crate) arfcn: Arfcn,
    pub(crate) bsic: Bsic,
    pub(crate) channels: &'a [Value],
}

impl CellFound<'_> {
    /// Copies the text and the channels into a `Cell`. `Err` only if an allocation fails.
    pub(crate) fn copy(&self, alloc: Global) -> Result<Cell, Memory>
        requires { IsCellFound self.now }
        ensures within { IfOk result IsCell }
        ensures cell { IfOk result (λ cell. cell ≡ cell_found self.now) }
    {
        Ok(Cell {
            listen: Text::copy(alloc, self.listen)?,
            location_area_code: self.location_area_code,
            cell_identity: self.cell_identity,
            arfcn: self.arfcn,
            bsic: self.bsic,
            channels: copy_channels(alloc, self.channels)?,
        })
    }
}
