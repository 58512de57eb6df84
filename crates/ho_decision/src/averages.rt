// SPDX-License-Identifier: MIT OR Apache-2.0
ghost use Rattle.std.specs.Prelude.{ℕ, ◌≡◌, ◌==◌, ◌<◌, ◌∷◌, ◌++◌, [], false, length, count_by};
ghost use Rattle.std.specs.Prelude.{IfErr, IfOk, List};
ghost use Rattle.dtap_codec.specs.declared.report.Report.{Report as ReportValue};
ghost use Rattle.ho_decision.specs.Average.{quality, last, serving_average};
ghost use Rattle.ho_decision.specs.Decision.{Decides, average_at, is_bad, is_due};
ghost use Rattle.ho_decision.specs.State.{DecidesFor, IsCompared};
ghost use Rattle.ho_decision.specs.Heard.{AreHeard};
ghost use Rattle.ho_decision.specs.Settings.{IsAllowed};
ghost use Rattle.ho_decision.specs.declared.decision.TheConstants.{QUALITY_WINDOW};
ghost use Rattle.ho_decision.specs.declared.settings.TheConstants.{MAX_WINDOW};

use crate::decision::{compares, decide};
use crate::heard::Heard;
use crate::running::{Averaged, average_over};
use crate::strongest::strongest;
use crate::sums::Sums;
use crate::{Decision, HoSettings, MAX_WINDOW};
use circular_buffer::HeapCircularBuffer;
use dtap_codec::Report;
use octets::Memory;
use std::alloc::Global;
use std::marker::Model;
use std::snapshot::Snapshot;

/// The last valid measurement reports of one connection on one channel, at most `MAX_WINDOW`, and
/// the number of the last report.
#[derive(Drop)]
pub struct Averages {
    settings: Snapshot<HoSettings>,
    reports: HeapCircularBuffer<Report>,
    number: u8,
    sums: Sums,
}

impl Model for Averages {
    ghost use Rattle.std.specs.Prelude.{◌≡◌};
    ghost use Rattle.ho_decision.specs.Settings.{IsAllowed};
    ghost use Rattle.ho_decision.specs.State.{State};
    ghost use Rattle.ho_decision.specs.Sums.{AreOf, AreSums};
    ghost use Rattle.ho_decision.specs.declared.settings.TheConstants.{MAX_WINDOW};

    ghost Value = { State };

    ghost view = { λ a. record {
      settings = a.settings.value;
      reports = a.reports.items;
      number = a.number;
    } };

    ghost invariant = { λ a. (a.reports.capacity ≡ MAX_WINDOW) × IsAllowed a.settings.value
        × AreOf a.settings.value a.sums × AreSums a.reports.items a.sums };
}

impl Averages {
    ghost use Rattle.ho_decision.specs.State.{new_state, after_report};

    /// Averages without reports, for a connection in the serving cell of `settings`. Allocates in
    /// advance the memory that `add` needs; `Err(Memory)` if the allocation fails.
    pub fn new(alloc: Global, settings: &HoSettings) -> Result<Averages, Memory>
        ensures { IfOk result (λ averages. averages ≡ new_state settings.now) }
    {
        Ok(Averages {
            settings: Snapshot::of(settings),
            reports: HeapCircularBuffer::with_capacity(alloc, usize::from(MAX_WINDOW))?,
            number: 0,
            sums: Sums::new(settings),
        })
    }

    /// Resets to the state of `new` with `settings`, which may have another serving cell. Allocates
    /// nothing.
    pub fn restart(&mut self, settings: &HoSettings)
        ensures { self.new ≡ new_state settings.now }
    {
        self.settings = Snapshot::of(settings);
        self.reports.clear();
        self.number = 0;
        self.sums = Sums::new(settings);
    }

    /// A copy of the averages; `Err(Memory)` if the allocation fails. Assumes: `settings` equals
    /// the settings of the averages.
    pub fn copied(&self, alloc: Global, settings: &HoSettings) -> Result<Averages, Memory>
        requires { settings.now ≡ self.now.settings }
        ensures { IfOk result (λ averages. averages ≡ self.now) }
    {
        Ok(Averages {
            settings: Snapshot::of(settings),
            reports: copied_reports(alloc, &self.reports)?,
            number: self.number,
            sums: self.sums,
        })
    }

    /// Adds `report` with its number, and keeps the last `MAX_WINDOW` reports. An invalid report
    /// changes nothing. Allocates nothing.
    pub fn add(&mut self, report: &Report, number: u8)
        ensures { self.new ≡ after_report self.old report.now number }
    {
        if report.valid {
            self.sums.add(&self.reports, report);
            self.reports.push_back(*report);
            self.number = number;
        }
    }

    /// The average RXQUAL-FULL of the serving cell over the last `rxqual_window` reports, rounded
    /// down; `None` if there is no report.
    pub fn rxqual(&self) -> Option<u8>
        ensures { result ≡ quality self.now.settings self.now.reports }
    {
        if self.is_empty() {
            return None;
        }
        Some(self.sums.serving_quality.average(&self.reports))
    }

    /// The handover decision. Allocates nothing. Assumes: `settings` equals the settings of the
    /// averages.
    ///
    /// The connection stays in its cell if there is no report or if the levels aren't compared. The
    /// levels are compared in three cases:
    ///
    /// - at least three of the last four reports have a quality of 5 or worse;
    /// - the serving cell's average level is 0;
    /// - the last report ends an interval: its number modulo `interval` is `interval` - 1.
    ///
    /// If the levels are compared, the candidates are the other cells whose average level is at
    /// least the serving cell's average level plus the hysteresis. The connection moves to the
    /// candidate with the greatest average level; on a tie, to the first of these in the settings.
    /// Without a candidate, the connection stays.
    pub fn decide(&self, settings: &HoSettings) -> Decision
        requires { settings.now ≡ self.now.settings }
        ensures kept { Decides self.now.settings self.now.reports self.now.number result }
        // The result is also the decision over any list of reports whose last `MAX_WINDOW` are the
        // kept reports.
        ensures all { (all : List ReportValue) → last MAX_WINDOW all ≡ self.now.reports
            → Decides self.now.settings all self.now.number result }
    {
        self.decide_over_kept(settings)
    }

    // The decision over the kept reports.
    fn decide_over_kept(&self, settings: &HoSettings) -> Decision
        requires { settings.now ≡ self.now.settings }
        ensures decides { Decides self.now.settings self.now.reports self.now.number result }
        ensures allowed { IsAllowed self.now.settings }
    {
        decide(settings, self, self.number)
    }

    /// The decision that `decide` would make after `add` of `report` with `number`. Changes
    /// nothing. Allocates only if the levels are compared; `Err(Memory)` if the allocation fails.
    /// Assumes: `settings` equals the settings of the averages.
    pub fn decide_with(
        &self,
        alloc: Global,
        settings: &HoSettings,
        report: &Report,
        number: u8,
    ) -> Result<Decision, Memory>
        requires { settings.now ≡ self.now.settings }
        ensures decides { IfOk result (λ decision. DecidesFor
            (after_report self.now report.now number) decision) }
        ensures memory { IfErr result (λ _. IsCompared self.now report.now number) }
    {
        if !report.valid {
            return Ok(self.decide(settings));
        }
        if !self.is_due_with(settings, report, number) {
            return Ok(Decision::Stay);
        }
        let mut after = self.copied(alloc, settings)?;
        after.add(report, number);
        Ok(after.decide(settings))
    }

    // Whether the levels are compared after `add` of `report` with `number`, if the report is
    // valid.
    fn is_due_with(&self, settings: &HoSettings, report: &Report, number: u8) -> bool
        requires { settings.now ≡ self.now.settings }
        ensures due { result
            ≡ is_due self.now.settings (self.now.reports ++ report.now ∷ []) number }
        ensures allowed { IsAllowed settings.now }
    {
        let bad = self.bad_reports_with(report);
        let level = self.serving_level_with(report);
        compares(settings, bad, level, number)
    }

    // How many of the last `QUALITY_WINDOW` reports have bad quality after `add` of `report`, if it
    // is valid.
    fn bad_reports_with(&self, report: &Report) -> u16
        ensures { result
            ≡ count_by is_bad (last QUALITY_WINDOW (self.now.reports ++ report.now ∷ [])) }
    {
        self.sums.bad_quality.total_after(&self.reports, report)
    }

    // The average level of the serving cell after `add` of `report`, if it is valid.
    fn serving_level_with(&self, report: &Report) -> u8
        ensures { result
            ≡ serving_average self.now.settings (self.now.reports ++ report.now ∷ []) }
    {
        self.sums.serving_level.average_after(&self.reports, report)
    }

    /// Whether there is no report.
    pub(crate) fn is_empty(&self) -> bool
        ensures { result ≡ (length self.now.reports == 0) }
    {
        self.reports.is_empty()
    }

    /// How many of the last `QUALITY_WINDOW` reports have bad quality.
    pub(crate) fn bad_reports(&self) -> u16
        ensures { result ≡ count_by is_bad (last QUALITY_WINDOW self.now.reports) }
    {
        self.sums.bad_quality.total
    }

    /// The average level of the serving cell. Assumes: there is at least one report.
    pub(crate) fn serving_level(&self) -> u8
        requires { 0 < length self.now.reports }
        ensures { result ≡ serving_average self.now.settings self.now.reports }
    {
        self.sums.serving_level.average(&self.reports)
    }

    /// Upper bounds of the levels in the reports, one for each value of BCCH-FREQ.
    pub(crate) fn heard(&self) -> Heard
        ensures { AreHeard self.now.reports result }
    {
        Heard::of(&self.reports)
    }

    /// The average level of the cell at `place`, from 0, in `settings`. Assumes: there are a report
    /// and a cell at `place`, `settings` equals the settings of the averages, and `heard` has the
    /// bounds of the reports.
    pub(crate) fn level_at(&self, settings: &HoSettings, heard: &Heard, place: usize) -> u8
        requires some { 0 < length self.now.reports }
        requires place { place < length self.now.settings.cells }
        requires same { settings.now ≡ self.now.settings }
        requires heard { AreHeard self.now.reports heard.now }
        ensures { result ≡ average_at self.now.settings self.now.reports place }
    {
        average_level(settings, heard, place, &self.reports)
    }

    /// Whether the average level of some cell may reach `level`, by an upper bound from the
    /// strongest neighbour of each report. If `false`, the average level of every cell is below
    /// `level`. Assumes: there is a report, and `settings` equals the settings of the averages.
    pub(crate) fn may_any_reach(&self, settings: &HoSettings, level: u16) -> bool
        requires some { 0 < length self.now.reports }
        requires same { settings.now ≡ self.now.settings }
        ensures { result ≡ false → (place : ℕ) → place < length self.now.settings.cells
            → average_at self.now.settings self.now.reports place < level }
    {
        may_any_reach(settings, &self.reports, level)
    }

    /// Whether the average level of the cell at `place`, from 0, may reach `level`, by an upper
    /// bound from the loudest report. If `false`, the average level is below `level`. Assumes: as
    /// for `level_at`.
    pub(crate) fn may_reach(
        &self,
        settings: &HoSettings,
        heard: &Heard,
        place: usize,
        level: u16,
    ) -> bool
        requires some { 0 < length self.now.reports }
        requires place { place < length self.now.settings.cells }
        requires same { settings.now ≡ self.now.settings }
        requires heard { AreHeard self.now.reports heard.now }
        ensures { result ≡ false
            → average_at self.now.settings self.now.reports place < level }
    {
        heard.may_have(settings.levels[place], level)
    }
}

// The average level of the cell at `place`, from 0, over `reports`.
fn average_level(
    settings: &HoSettings,
    heard: &Heard,
    place: usize,
    reports: &HeapCircularBuffer<Report>,
) -> u8
    requires some { 0 < length reports.now.items }
    requires place { place < length settings.now.cells }
    requires heard { AreHeard reports.now.items heard.now }
    ensures { result ≡ average_at settings.now reports.now.items place }
{
    let measure = settings.levels[place];
    if !heard.may_name(measure) {
        return 0;
    }
    let window = settings.parameters.neighbour_window;
    average_over(Averaged { measure, window }, reports)
}

// Whether the average level of some cell over `reports` may reach `level`. If `false`, the average
// level of every cell is below `level`.
fn may_any_reach(settings: &HoSettings, reports: &HeapCircularBuffer<Report>, level: u16) -> bool
    requires some { 0 < length reports.now.items }
    ensures { result ≡ false → (place : ℕ) → place < length settings.now.cells
        → average_at settings.now reports.now.items place < level }
{
    let window = settings.parameters.neighbour_window;
    let count = reports.len().min(usize::from(window)) as u16;
    strongest(reports, window) >= level.saturating_mul(count)
}

// A copy of `reports`, in a ring buffer of the same capacity.
#[tactic(auto, using(crate::proofs::Copies::keeps_both))]
fn copied_reports(
    alloc: Global,
    reports: &HeapCircularBuffer<Report>,
) -> Result<HeapCircularBuffer<Report>, Memory>
    ensures { IfOk result (λ copy. copy ≡ reports.now) }
{
    let mut copy = HeapCircularBuffer::with_capacity(alloc, reports.capacity())?;
    let (first, rest) = reports.as_slices();
    copy.extend_from_slice(first);
    copy.extend_from_slice(rest);
    Ok(copy)
}
