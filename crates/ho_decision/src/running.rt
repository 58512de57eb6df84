// SPDX-License-Identifier: MIT OR Apache-2.0
ghost use Rattle.std.specs.Prelude.{◌≡◌, ◌+◌, ◌<◌, ◌≤◌, [], ◌∷◌};
ghost use Rattle.std.specs.Prelude.{◌++◌, length};
ghost use Rattle.ho_decision.specs.Average.{average};
ghost use Rattle.ho_decision.specs.Measure.{value_of};
ghost use Rattle.ho_decision.specs.Sums.{IsSum, total_over};
ghost use Rattle.ho_decision.specs.declared.settings.TheConstants.{MAX_WINDOW};

use crate::measure::Measure;
use circular_buffer::HeapCircularBuffer;
use dtap_codec::Report;

/// A measure, and the window over which it is averaged.
#[derive(Clone, Copy)]
pub(crate) struct Averaged {
    pub measure: Measure,
    /// The number of last reports that count, 1 to `MAX_WINDOW`.
    pub window: u8,
}

/// The sum of a measure over the last reports of its window. Each report updates the sum.
#[derive(Clone, Copy)]
pub(crate) struct RunningSum {
    pub of: Averaged,
    pub total: u16,
}

impl RunningSum {
    /// The sum over no reports.
    pub fn new(measure: Measure, window: u8) -> RunningSum
        requires { (1 ≤ window) × (window ≤ MAX_WINDOW) }
        ensures of { result.of ≡ record { measure = measure; window = window } }
        ensures sum { IsSum [] result }
    {
        RunningSum {
            of: Averaged { measure, window },
            total: 0,
        }
    }

    /// Adds `report`. `reports` are the reports before `report`. Assumes: the sum is that of
    /// `reports`.
    pub fn add(&mut self, reports: &HeapCircularBuffer<Report>, report: &Report)
        requires { IsSum reports.now.items self.old }
        ensures of { self.new.of ≡ self.old.of }
        ensures sum { IsSum (reports.now.items ++ report.now ∷ []) self.new }
    {
        // The value of the report that leaves the window when `report` arrives; 0 while the window
        // has room.
        let back = usize::from(self.of.window) - 1;
        let leaving = value_at(self.of.measure, back, reports);
        self.total -= u16::from(leaving);
        self.total += u16::from(self.of.measure.value(report));
    }

    /// The average over `reports`, rounded down. Assumes: the sum is that of `reports`, and there
    /// is at least one report.
    pub fn average(&self, reports: &HeapCircularBuffer<Report>) -> u8
        requires sum { IsSum reports.now.items self.now }
        requires some { 0 < length reports.now.items }
        ensures { result ≡
            average (value_of self.now.of.measure) self.now.of.window reports.now.items }
    {
        let count = reports.len().min(usize::from(self.of.window)) as u16;
        (self.total / count) as u8
    }

    /// The total after `add` of `report`. `reports` are the reports before `report`. Changes
    /// nothing. Assumes: the sum is that of `reports`.
    pub fn total_after(&self, reports: &HeapCircularBuffer<Report>, report: &Report) -> u16
        requires { IsSum reports.now.items self.now }
        ensures { result ≡ total_over self.now.of.measure self.now.of.window
            (reports.now.items ++ report.now ∷ []) }
    {
        let mut sum = *self;
        sum.add(reports, report);
        sum.total
    }

    /// The average after `add` of `report`, rounded down. `reports` are the reports before
    /// `report`. Changes nothing. Assumes: the sum is that of `reports`.
    pub fn average_after(&self, reports: &HeapCircularBuffer<Report>, report: &Report) -> u8
        requires { IsSum reports.now.items self.now }
        ensures { result ≡ average (value_of self.now.of.measure) self.now.of.window
            (reports.now.items ++ report.now ∷ []) }
    {
        let mut sum = *self;
        sum.add(reports, report);
        let count = (reports.len() + 1).min(usize::from(sum.of.window)) as u16;
        (sum.total / count) as u8
    }
}

/// The average of a measure over the last reports of its window, rounded down. Assumes: the window
/// is 1 to `MAX_WINDOW`, and there is at least one report.
pub(crate) fn average_over(of: Averaged, reports: &HeapCircularBuffer<Report>) -> u8
    requires window { of.window ≤ MAX_WINDOW }
    requires one { 1 ≤ of.window }
    requires some { 0 < length reports.now.items }
    ensures { result ≡ average (value_of of.measure) of.window reports.now.items }
{
    let count = reports.len().min(usize::from(of.window));
    let mut total = 0;
    for back in 0..count {
        total += u16::from(value_at(of.measure, back, reports));
    }
    (total / count as u16) as u8
}

// The value of `measure` in the report that exactly `back` reports follow; 0 if there is no such
// report.
fn value_at(measure: Measure, back: usize, reports: &HeapCircularBuffer<Report>) -> u8
    ensures { total_over measure (back + 1) reports.now.items ≡
        result + total_over measure back reports.now.items }
{
    match reports.nth_back(back) {
        Some(report) => measure.value(report),
        None => 0,
    }
}
