// SPDX-License-Identifier: MIT OR Apache-2.0
ghost use Rattle.std.specs.Prelude.{◌≡◌, [], ◌∷◌, ◌++◌};
ghost use Rattle.ho_decision.specs.Settings.{IsAllowed};
ghost use Rattle.ho_decision.specs.Sums.{AreOf, AreOfSame, AreSums, IsSum};

use crate::HoSettings;
use crate::decision::QUALITY_WINDOW;
use crate::measure::Measure;
use crate::running::RunningSum;
use circular_buffer::HeapCircularBuffer;
use dtap_codec::Report;

/// The running sums of the serving cell's measures over the reports of one connection, each sum
/// over its own window. Each report updates the sums. Neighbours' levels are added up only when
/// levels are compared.
#[derive(Clone, Copy)]
pub(crate) struct Sums {
    /// The sum of the serving cell's levels.
    pub serving_level: RunningSum,
    /// The sum of the serving cell's qualities.
    pub serving_quality: RunningSum,
    /// How many reports have bad quality.
    pub bad_quality: RunningSum,
}

impl Sums {
    /// The sums over no reports.
    pub fn new(settings: &HoSettings) -> Sums
        ensures of { AreOf settings.now result }
        ensures sums { AreSums [] result }
        ensures allowed { IsAllowed settings.now }
    {
        Sums {
            serving_level: serving_level(settings),
            serving_quality: serving_quality(settings),
            bad_quality: bad_quality(),
        }
    }

    /// Adds `report`. `reports` are the reports before `report`. Assumes: the sums are those of
    /// `reports`.
    pub fn add(&mut self, reports: &HeapCircularBuffer<Report>, report: &Report)
        requires { AreSums reports.now.items self.old }
        ensures of { AreOfSame self.old self.new }
        ensures sums { AreSums (reports.now.items ++ report.now ∷ []) self.new }
    {
        self.serving_level.add(reports, report);
        self.serving_quality.add(reports, report);
        self.bad_quality.add(reports, report);
    }
}

// The sum of the serving cell's levels over no reports.
fn serving_level(settings: &HoSettings) -> RunningSum
    ensures of { result.of ≡ record {
      measure = Measure.ServingLevel;
      window = settings.now.parameters.rxlev_window;
    } }
    ensures sum { IsSum [] result }
    ensures allowed { IsAllowed settings.now }
{
    RunningSum::new(Measure::ServingLevel, settings.parameters.rxlev_window)
}

// The sum of the serving cell's qualities over no reports.
fn serving_quality(settings: &HoSettings) -> RunningSum
    ensures of { result.of ≡ record {
      measure = Measure.ServingQuality;
      window = settings.now.parameters.rxqual_window;
    } }
    ensures sum { IsSum [] result }
{
    RunningSum::new(Measure::ServingQuality, settings.parameters.rxqual_window)
}

// The count of reports with bad quality over no reports.
fn bad_quality() -> RunningSum
    ensures of { result.of ≡ record { measure = Measure.BadQuality; window = QUALITY_WINDOW } }
    ensures sum { IsSum [] result }
{
    RunningSum::new(Measure::BadQuality, QUALITY_WINDOW)
}
