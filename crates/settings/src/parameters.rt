// SPDX-License-Identifier: MIT OR Apache-2.0
ghost use Rattle.std.specs.Prelude.{◌≡◌, ◌≢◌, ◌≤◌, ◌-◌, true, Some, map};
ghost use Rattle.std.specs.Prelude.{length, IfOk, slice_get};
ghost use Rattle.toml.specs.Errors.{IsBlank};
ghost use Rattle.toml.specs.Parse.{parse_document};
ghost use Rattle.toml.specs.View.{table_view};
ghost use Rattle.settings.specs.Answer.{Reads};
ghost use Rattle.settings.specs.Parsed.{IsAnswered};
ghost use Rattle.settings.specs.Found.{settings_found, AreFound};
ghost use Rattle.settings.specs.Parameters.{AreAllowed, AreDigits, IsTimer, IsWindow, IsInterval};
ghost use Rattle.settings.specs.Parameters.{IsCell, channels_differ, air_of, handover_settings_of};
ghost use Rattle.settings.specs.Tables.{parameters_of, first_fault, settings_in};

use crate::cells::copy_cells;
use crate::found::{Found, found_in};
use crate::network::Network;
use crate::timers::Timers;
use crate::{Cell, SettingsFault, Text};
use ho_decision::{HoParameters, HoSettings};
use octets::Memory;
use std::alloc::Global;
use std::marker::Model;
use toml::Table;
use toml::de::Error;

/// The settings of the controller. In contracts, settings are a value of `Parameters` for which
/// `AreAllowed` holds: each value is in its range, and no value that must be unique occurs twice.
#[derive(Drop)]
pub struct Settings {
    network: Network,
    switch_address: Text,
    timers: Timers,
    handover: HoParameters,
    cells: Vec<Cell>,
}

impl Model for Settings {
    ghost use Rattle.settings.specs.Parameters.{Parameters, parameters, AreAllowed};

    ghost Value = { Parameters };

    ghost view = { λ s. parameters s.network s.switch_address s.timers s.handover s.cells.items };

    ghost invariant = { λ s. AreAllowed
        (parameters s.network s.switch_address s.timers s.handover s.cells.items) };
}

impl Settings {
    /// Reads settings from a text in TOML. `Err` is the first fault in the order of
    /// docs/SETTINGS.md, or `NotToml` if the text isn't TOML.
    ///
    /// `Err(Memory)` if the TOML parser ran out of memory, or if `from_table` returned
    /// `Err(Memory)`. A blank text never gives `Err(Memory)`.
    pub fn read(alloc: Global, text: &str) -> Result<Settings, SettingsFault>
        ensures reads { result ≢ Err SettingsFault.Memory
            → result ≡ settings_in (parse_document text.now) }
        ensures blank { IsBlank text.now → result ≡ settings_in (parse_document text.now) }
    {
        answered(alloc, toml::table_from_str(alloc, text))
    }

    /// Reads settings from a TOML table. `Err` is the first fault of the table in the order of
    /// docs/SETTINGS.md. Checks the whole table before allocating.
    ///
    /// `Err(Memory)` if an allocation failed. Allocations are made only if the table has no fault,
    /// or if its first fault is an unknown key, whose name is copied.
    pub fn from_table(alloc: Global, table: &Table) -> Result<Settings, SettingsFault>
        ensures { Reads result
            (parameters_of (table_view table.now)) (first_fault (table_view table.now)) }
    {
        match found_in(table) {
            Ok(found) => Ok(copy(alloc, &found)?),
            Err(finding) => Err(finding.fault(alloc)),
        }
    }

    /// A copy of the settings. `Err` only if an allocation fails.
    pub fn copy(&self, alloc: Global) -> Result<Settings, Memory>
        ensures { IfOk result (λ copy. copy ≡ self.now) }
    {
        Ok(Settings {
            network: self.network.copy(alloc)?,
            switch_address: Text::copy(alloc, self.switch_address.as_str())?,
            timers: self.timers,
            handover: self.handover,
            cells: copies(alloc, &self.cells)?,
        })
    }

    /// The mobile country code, three decimal digits.
    pub fn mcc(&self) -> &str
        ensures value { result.now ≡ self.now.network.mcc }
        ensures within { AreDigits 3 3 result.now }
    {
        self.network.mcc.as_str()
    }

    /// The mobile network code, two or three decimal digits.
    pub fn mnc(&self) -> &str
        ensures value { result.now ≡ self.now.network.mnc }
        ensures within { AreDigits 2 3 result.now }
    {
        self.network.mnc.as_str()
    }

    /// Whether mobiles and switch count the send sequence number N(SD) modulo 2, as in Release 98.
    pub fn release98(&self) -> bool
        ensures { result ≡ self.now.network.release98 }
    {
        self.network.release98
    }

    /// The address of the switch, a text that isn't empty.
    pub fn switch_address(&self) -> &str
        ensures { result.now ≡ self.now.switch_address }
    {
        self.switch_address.as_str()
    }

    /// The time of T3101 in milliseconds, 100 to 60,000. T3101 runs from CHANNEL ACTIVATION to
    /// ESTABLISH INDICATION.
    pub fn t3101_ms(&self) -> u32
        ensures value { result ≡ self.now.timers.t3101_ms }
        ensures within { IsTimer result }
    {
        self.timers.t3101_ms
    }

    /// The time of T3103, the timer of a handover, in milliseconds, 100 to 60,000.
    pub fn t3103_ms(&self) -> u32
        ensures value { result ≡ self.now.timers.t3103_ms }
        ensures within { IsTimer result }
    {
        self.timers.t3103_ms
    }

    /// The time of T3107, the timer of an assignment, in milliseconds, 100 to 60,000.
    pub fn t3107_ms(&self) -> u32
        ensures value { result ≡ self.now.timers.t3107_ms }
        ensures within { IsTimer result }
    {
        self.timers.t3107_ms
    }

    /// The longest time for which an old channel drains, in milliseconds, 100 to 60,000.
    pub fn drain_ms(&self) -> u32
        ensures value { result ≡ self.now.timers.drain_ms }
        ensures within { IsTimer result }
    {
        self.timers.drain_ms
    }

    /// The number of reports over which the serving cell's level is averaged, 1 to 10.
    pub fn rxlev_window(&self) -> u8
        ensures value { result ≡ self.now.handover.rxlev_window }
        ensures within { IsWindow result }
    {
        self.handover.rxlev_window
    }

    /// The number of reports over which the serving cell's quality is averaged, 1 to 10.
    pub fn rxqual_window(&self) -> u8
        ensures value { result ≡ self.now.handover.rxqual_window }
        ensures within { IsWindow result }
    {
        self.handover.rxqual_window
    }

    /// The number of reports over which a neighbour's level is averaged, 1 to 10.
    pub fn neighbour_window(&self) -> u8
        ensures value { result ≡ self.now.handover.neighbour_window }
        ensures within { IsWindow result }
    {
        self.handover.neighbour_window
    }

    /// The interval, in reports, at which the levels are compared, 1 to 99.
    pub fn power_budget_interval(&self) -> u8
        ensures value { result ≡ self.now.handover.interval }
        ensures within { IsInterval result }
    {
        self.handover.interval
    }

    /// The hysteresis in dB, 0 to 63: how much better than the serving cell a neighbour has to be.
    pub fn power_budget_hysteresis(&self) -> u8
        ensures value { result ≡ self.now.handover.hysteresis }
        ensures within { result ≤ 63 }
    {
        self.handover.hysteresis
    }

    /// The 1 to 32 cells in the order of the settings. The first cell has the number 1.
    pub fn cells(&self) -> &[Cell]
        ensures value { result.now ≡ self.now.cells }
        ensures allowed { AreAllowed self.now }
    {
        self.cells.as_slice()
    }

    /// How many cells there are, 1 to 32.
    pub fn cell_count(&self) -> u8
        ensures value { result ≡ length self.now.cells }
        ensures within { (1 ≤ result) × (result ≤ 32) }
    {
        self.cells.len() as u8
    }

    /// The cell with the number `number`. Assumes: `number` is from 1 to `cell_count`.
    pub fn cell(&self, number: u8) -> &Cell
        requires { (1 ≤ number) × (number ≤ length self.now.cells) }
        ensures value { slice_get self.now.cells (number - 1) ≡ Some result.now }
        ensures within { IsCell result.now }
        ensures differ { channels_differ result.now ≡ true }
    {
        &self.cells[usize::from(number) - 1]
    }

    /// The settings of the handover decision if the cell with the number `serving` serves. Assumes:
    /// `serving` is from 1 to `cell_count`. `Err` only if an allocation fails.
    pub fn handover_settings(&self, alloc: Global, serving: u8) -> Result<HoSettings, Memory>
        requires { (1 ≤ serving) × (serving ≤ length self.now.cells) }
        ensures { IfOk result (λ settings. settings ≡ handover_settings_of self.now serving) }
    {
        HoSettings::new(alloc, self.handover, airs(alloc, &self.cells)?, serving)
    }
}

// The result of `read` if the TOML parser returned `parsed`. If `parsed` is a table, the result is
// that of `from_table`; if the parser ran out of memory, `Memory`; if it failed otherwise,
// `NotToml`.
fn answered(alloc: Global, parsed: Result<Table, Error>) -> Result<Settings, SettingsFault>
    ensures { IsAnswered parsed result }
{
    match parsed {
        Ok(table) => Settings::from_table(alloc, &table),
        Err(error) => {
            if error.is_memory() {
                Err(SettingsFault::Memory)
            } else {
                Err(SettingsFault::NotToml)
            }
        }
    }
}

// The ARFCN and the BSIC of each cell, for the handover decision. `Err` only if an allocation
// fails.
fn airs(alloc: Global, cells: &[Cell]) -> Result<Vec<ho_decision::Cell>, Memory>
    ensures { IfOk result (λ airs. airs.items ≡ map air_of cells.now) }
{
    let mut airs = Vec::with_capacity(alloc, cells.len())?;
    for cell in cells {
        airs.push(cell.air())?;
    }
    Ok(airs)
}

// Copies of the cells. `Err` only if an allocation fails.
fn copies(alloc: Global, cells: &[Cell]) -> Result<Vec<Cell>, Memory>
    ensures { IfOk result (λ copies. copies.items ≡ cells.now) }
{
    let mut copies = Vec::with_capacity(alloc, cells.len())?;
    for cell in cells {
        copies.push(cell.copy(alloc)?)?;
    }
    Ok(copies)
}

// Copies found settings, with their texts, cells and channels. Assumes: the found settings have no
// fault. `Err` only if an allocation fails.
fn copy(alloc: Global, found: &Found) -> Result<Settings, Memory>
    requires { AreFound found.now }
    ensures { IfOk result (λ settings. settings ≡ settings_found found.now) }
{
    Ok(Settings {
        network: found.network.copy(alloc)?,
        switch_address: Text::copy(alloc, found.switch_address)?,
        timers: found.timers,
        handover: found.handover,
        cells: copy_cells(alloc, found.cells)?,
    })
}
