// SPDX-License-Identifier: MIT OR Apache-2.0
ghost use Rattle.std.specs.Prelude.{◌≡◌, ◌==◌, position};
ghost use Rattle.ho_decision.specs.Measure.{level_among, level_at, names_at, value_of};

use crate::Cell;
use dtap_codec::{Neighbour, Report};

/// The lowest RXQUAL-FULL that counts as bad quality.
pub(crate) const BAD_QUALITY: u8 = 5;

/// A quantity that is read from a report.
#[derive(Clone, Copy)]
pub(crate) enum Measure {
    /// RXLEV-FULL of the serving cell.
    ServingLevel,
    /// RXQUAL-FULL of the serving cell.
    ServingQuality,
    /// 1 if RXQUAL-FULL is `BAD_QUALITY` or more, else 0.
    BadQuality,
    /// The level of the neighbour cell with this BSIC whose ARFCN has the index `place`, from 0, in
    /// the list that BCCH-FREQ refers to; 0 if the report doesn't name the cell. `place` is `None`
    /// if the list doesn't have the ARFCN.
    NeighbourLevel { place: Option<usize>, bsic: u8 },
}

impl Measure {
    /// The measure of the level of `cell`. `arfcns` is the list that BCCH-FREQ refers to.
    pub fn level_of(arfcns: &[u16], cell: Cell) -> Measure
        ensures { result ≡ level_among arfcns.now cell }
    {
        Measure::NeighbourLevel {
            place: place_of(arfcns, cell.arfcn),
            bsic: cell.bsic,
        }
    }

    /// The value of this measure in a report.
    pub fn value(self, report: &Report) -> u8
        ensures { result ≡ value_of self report.now }
    {
        match self {
            Measure::ServingLevel => report.rxlev_full,
            Measure::ServingQuality => report.rxqual_full,
            Measure::BadQuality => u8::from(report.rxqual_full >= BAD_QUALITY),
            Measure::NeighbourLevel { place, bsic } => level(place, bsic, report),
        }
    }
}

// The first index of `arfcn` in `arfcns`, from 0; `None` if the list doesn't have the ARFCN.
fn place_of(arfcns: &[u16], arfcn: u16) -> Option<usize>
    ensures { result ≡ position (λ a. a == arfcn) arfcns.now }
{
    arfcns.iter().position(|a| *a == arfcn)
}

// The level of a cell in `report`: the level of the first entry that names the cell; 0 if no entry
// does.
fn level(place: Option<usize>, bsic: u8, report: &Report) -> u8
    ensures { result ≡ level_at place bsic report.now }
{
    report
        .neighbours()
        .iter()
        .find(|entry| is_of(place, bsic, entry))
        .map_or(0, |entry| entry.rxlev)
}

// Whether `entry` names the cell with this BSIC whose ARFCN has the index `place`.
fn is_of(place: Option<usize>, bsic: u8, entry: &Neighbour) -> bool
    ensures { result ≡ names_at place bsic entry.now }
{
    match place {
        Some(place) => usize::from(entry.bcch_freq) == place && entry.bsic == bsic,
        None => false,
    }
}
