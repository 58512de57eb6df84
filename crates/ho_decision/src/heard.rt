// SPDX-License-Identifier: MIT OR Apache-2.0
ghost use Rattle.std.specs.Prelude.{◌≡◌, ◌<◌, ◌≤◌, ℕ, false, length, List};
ghost use Rattle.std.specs.List.{All};
ghost use Rattle.dtap_codec.specs.declared.report.Neighbour.{Neighbour as Entry};
ghost use Rattle.dtap_codec.specs.declared.report.Report.{Report as ReportValue};
ghost use Rattle.ho_decision.specs.Heard.{AreHeard, AreWithin, IsWithin};
ghost use Rattle.ho_decision.specs.Measure.{level_at, value_of};

use crate::measure::Measure;
use circular_buffer::HeapCircularBuffer;
use dtap_codec::{Neighbour, Report};

/// The number of values of the octet that holds BCCH-FREQ.
const NUMBERS: usize = 256;

/// Upper bounds of the levels in some reports, one for each value of BCCH-FREQ: no counted entry of
/// a report with this value has a greater level.
#[derive(Drop)]
pub(crate) struct Heard {
    /// At each index, the greatest level of the reports' entries whose BCCH-FREQ is the index; 0 if
    /// there is no such entry.
    pub greatest: [u8; NUMBERS],
}

impl Heard {
    /// The bounds for `reports`.
    pub fn of(reports: &HeapCircularBuffer<Report>) -> Heard
        ensures { AreHeard reports.now.items result }
    {
        let mut greatest = [0; NUMBERS];
        let (first, rest) = reports.as_slices();
        note_reports(&mut greatest, first);
        note_reports(&mut greatest, rest);
        Heard { greatest }
    }

    /// Whether `measure` may be above 0 in one of the reports. If `false`, the measure is 0 in each
    /// report.
    pub fn may_name(&self, measure: Measure) -> bool
        ensures { (reports : List ReportValue) → AreHeard reports self.now → result ≡ false
            → All (λ r. value_of measure r ≡ 0) reports }
    {
        self.may_have(measure, 1)
    }

    /// Whether `measure` may reach `level` in one of the reports. If `false`, the measure is below
    /// `level` in each report.
    pub fn may_have(&self, measure: Measure, level: u16) -> bool
        ensures { (reports : List ReportValue) → AreHeard reports self.now → result ≡ false
            → All (λ r. value_of measure r < level) reports }
    {
        match measure {
            Measure::NeighbourLevel { place, .. } => self.has_level(place, level),
            _ => true,
        }
    }

    // Whether a cell whose ARFCN has the index `place` may reach `level` in one of the reports. If
    // `false`, the cell's level is below `level` in each report.
    fn has_level(&self, place: Option<usize>, level: u16) -> bool
        ensures { (reports : List ReportValue) → AreHeard reports self.now → result ≡ false
            → (bsic : ℕ) → All (λ r. level_at place bsic r < level) reports }
    {
        match place {
            Some(place) => place >= NUMBERS || u16::from(self.greatest[place]) >= level,
            None => true,
        }
    }
}

// Raises each bound to at least the levels in `reports`.
fn note_reports(greatest: &mut [u8], reports: &[Report])
    requires { length greatest.old ≡ NUMBERS }
    ensures noted { AreWithin greatest.new reports.now }
    ensures kept { (n : Entry) → IsWithin greatest.old n → IsWithin greatest.new n }
{
    for report in reports {
        note(greatest, report.neighbours());
    }
}

// Raises each bound to at least the levels of `entries`.
fn note(greatest: &mut [u8], entries: &[Neighbour])
    requires { length greatest.old ≡ NUMBERS }
    ensures noted { All (IsWithin greatest.new) entries.now }
    ensures kept { (n : Entry) → IsWithin greatest.old n → IsWithin greatest.new n }
{
    for entry in entries {
        let place = usize::from(entry.bcch_freq);
        if entry.rxlev > greatest[place] {
            greatest[place] = entry.rxlev;
        }
    }
}
