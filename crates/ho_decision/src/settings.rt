// SPDX-License-Identifier: MIT OR Apache-2.0
ghost use Rattle.std.specs.Prelude.{◌≡◌, ◌<◌, ◌≤◌, ◌-◌, [], IfOk, OnOk};
ghost use Rattle.std.specs.Prelude.{fold, length, map, remove};
ghost use Rattle.ho_decision.specs.Measure.{level_among};
ghost use Rattle.ho_decision.specs.Settings.{with_arfcn, with_cell};

use crate::measure::Measure;
use octets::Memory;
use std::alloc::Global;
use std::marker::Model;

/// The greatest number of reports that a value is averaged over.
pub const MAX_WINDOW: u8 = 10;

/// The longest interval between two regular comparisons of levels, in reports.
pub const MAX_INTERVAL: u8 = 99;

/// The greatest hysteresis, in dB.
pub const MAX_HYSTERESIS: u8 = 63;

/// The greatest number of cells.
pub const MAX_CELLS: usize = 32;

/// The identity of a cell on the radio interface: the ARFCN of its BCCH carrier (TS 45.005 clause
/// 2) and its base station identity code (TS 23.003 clause 4.3.2).
#[derive(Clone, Copy)]
pub struct Cell {
    /// The absolute radio frequency channel number, 1 to 1023.
    pub arfcn: u16,
    /// The base station identity code, NCC times 8 plus BCC; 0 to 63.
    pub bsic: u8,
}

/// The parameters of the handover decision.
#[derive(Clone, Copy)]
pub struct HoParameters {
    /// Over how many reports the serving cell's level is averaged, 1 to `MAX_WINDOW`.
    pub rxlev_window: u8,
    /// Over how many reports the serving cell's quality is averaged, 1 to `MAX_WINDOW`.
    pub rxqual_window: u8,
    /// Over how many reports a neighbour's level is averaged, 1 to `MAX_WINDOW`.
    pub neighbour_window: u8,
    /// The number of reports from one regular comparison of levels to the next, 1 to
    /// `MAX_INTERVAL`.
    pub interval: u8,
    /// The margin in dB, 0 to `MAX_HYSTERESIS`: a neighbour's average level has to be at least the
    /// serving cell's average level plus this margin.
    pub hysteresis: u8,
}

/// The settings of the handover decision for one serving cell: the parameters, the cells in order,
/// and the number of the serving cell.
#[derive(Drop)]
pub struct HoSettings {
    pub(crate) parameters: HoParameters,
    pub(crate) cells: Vec<Cell>,
    pub(crate) serving: u8,
    // The measure of each cell's level, in the order of the cells.
    pub(crate) levels: Vec<Measure>,
}

impl Model for HoSettings {
    ghost use Rattle.std.specs.Prelude.{◌≡◌, map};
    ghost use Rattle.ho_decision.specs.Measure.{level_of};
    ghost use Rattle.ho_decision.specs.Settings.{Settings, settings_of, IsAllowed};

    ghost Value = { Settings };

    ghost view = { λ s. settings_of s.parameters s.cells.items s.serving };

    ghost invariant = { λ s.
        (s.levels.items
        ≡ map (level_of (settings_of s.parameters s.cells.items s.serving)) s.cells.items)
        × IsAllowed (settings_of s.parameters s.cells.items s.serving) };
}

impl HoSettings {
    ghost use Rattle.ho_decision.specs.Settings.{settings_of, IsAllowed};

    /// The settings for the serving cell with the number `serving`, from 1. `Err(Memory)` if an
    /// allocation fails. Assumes (`IsAllowed`): each parameter is in its range, there are at most
    /// `MAX_CELLS` cells, and one of the cells has the number `serving`.
    pub fn new(
        alloc: Global,
        parameters: HoParameters,
        cells: Vec<Cell>,
        serving: u8,
    ) -> Result<HoSettings, Memory>
        requires { IsAllowed (settings_of parameters cells.items serving) }
        ensures { IfOk result (λ settings. settings ≡ settings_of parameters cells.items serving) }
    {
        let frequencies = frequencies(alloc, &cells, serving)?;
        let levels = levels(alloc, &frequencies, &cells)?;
        Ok(HoSettings {
            parameters,
            cells,
            serving,
            levels,
        })
    }
}

// The rising list of the ARFCNs of all cells but the serving one, each ARFCN once. BCCH-FREQ is an
// index into this list.
fn frequencies(alloc: Global, cells: &[Cell], serving: u8) -> Result<Vec<u16>, Memory>
    requires { (1 ≤ serving) × (serving ≤ length cells.now) }
    ensures { IfOk result
        (λ arfcns. arfcns.items ≡ fold with_cell [] (remove cells.now (serving - 1))) }
{
    let mut frequencies = Vec::new(alloc);
    let place = usize::from(serving);
    add_frequencies(&mut frequencies, &cells[..place - 1])?;
    add_frequencies(&mut frequencies, &cells[place..])?;
    Ok(frequencies)
}

// The measure of each cell's level. `arfcns` is the list that BCCH-FREQ refers to.
fn levels(alloc: Global, arfcns: &[u16], cells: &[Cell]) -> Result<Vec<Measure>, Memory>
    ensures { IfOk result (λ levels. levels.items ≡ map (level_among arfcns.now) cells.now) }
{
    let levels = cells.iter().map(|cell| Measure::level_of(arfcns, *cell));
    Ok(levels.collect(alloc)?)
}

// Inserts the ARFCNs of `cells` into the rising list `frequencies`, each ARFCN once.
fn add_frequencies(frequencies: &mut Vec<u16>, cells: &[Cell]) -> Result<(), Memory>
    ensures { OnOk result (frequencies.new.items ≡ fold with_cell frequencies.old.items cells.now) }
{
    for cell in cells {
        add_frequency(frequencies, cell.arfcn)?;
    }
    Ok(())
}

// Inserts `arfcn` into the rising list `frequencies`, unless the list has it.
fn add_frequency(frequencies: &mut Vec<u16>, arfcn: u16) -> Result<(), Memory>
    ensures { OnOk result (frequencies.new.items ≡ with_arfcn frequencies.old.items arfcn) }
{
    if !frequencies.contains(&arfcn) {
        let place = frequencies.iter().filter(|f| **f < arfcn).count();
        frequencies.insert(place, arfcn)?;
    }
    Ok(())
}
