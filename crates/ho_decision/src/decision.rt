// SPDX-License-Identifier: MIT OR Apache-2.0
ghost use Rattle.std.specs.Prelude.{◌≡◌, ◌+◌, ◌<◌, ◌≤◌, ◌-◌, ◌%◌, ◌==◌, ◌||◌, length, nat_le};
ghost use Rattle.ho_decision.specs.Choice.{after_offer};
ghost use Rattle.ho_decision.specs.Decision.{Decides, Chooses, average_at, bound, is_due};
ghost use Rattle.ho_decision.specs.Heard.{AreHeard};
ghost use Rattle.ho_decision.specs.Settings.{IsAllowed};

use crate::heard::Heard;
use crate::{Averages, HoSettings};

/// The number of last reports among which reports of bad quality are counted.
pub(crate) const QUALITY_WINDOW: u8 = 4;

/// The levels are compared if at least this many of the last `QUALITY_WINDOW` reports have bad
/// quality.
const BAD_REPORTS: u16 = 3;

/// Whether a connection is handed over.
#[derive(Clone, Copy, PartialEq, Eq)]
pub enum Decision {
    /// The connection stays in its cell.
    Stay,
    /// The connection moves to the cell with this number, from 1.
    Move(u8),
}

/// The handover decision over `averages`. `number` is the number of the last report. Assumes:
/// `settings` equals the settings of the averages.
pub(crate) fn decide(settings: &HoSettings, averages: &Averages, number: u8) -> Decision
    requires { settings.now ≡ averages.now.settings }
    ensures { Decides averages.now.settings averages.now.reports number result }
{
    if averages.is_empty() || !is_due(settings, averages, number) {
        return Decision::Stay;
    }
    best(settings, averages)
}

// Whether the levels are compared after the last report. `number` is the number of that report.
fn is_due(settings: &HoSettings, averages: &Averages, number: u8) -> bool
    requires some { 0 < length averages.now.reports }
    requires same { settings.now ≡ averages.now.settings }
    ensures { result ≡ is_due averages.now.settings averages.now.reports number }
{
    compares(
        settings,
        averages.bad_reports(),
        averages.serving_level(),
        number,
    )
}

/// Whether the levels are compared. `bad` is the count of bad reports among the last
/// `QUALITY_WINDOW`, `level` is the serving cell's average level, and `number` is the last report's
/// number.
pub(crate) fn compares(settings: &HoSettings, bad: u16, level: u8, number: u8) -> bool
    ensures compares { result ≡ (nat_le BAD_REPORTS bad || (level == 0)
        || (number % settings.now.parameters.interval
        == settings.now.parameters.interval - 1)) }
    ensures allowed { IsAllowed settings.now }
{
    let interval = settings.parameters.interval;
    bad >= BAD_REPORTS || level == 0 || number % interval == interval - 1
}

// The decision over the cells offered so far, and the least level with which a further cell is
// chosen.
#[derive(Drop)]
struct Choice {
    decision: Decision,
    wanted: u16,
}

impl Choice {
    ghost use Rattle.ho_decision.specs.Choice.{after_offer};

    // Chooses the cell with this number if `level` is at least `wanted`.
    fn offer(&mut self, number: u8, level: u8)
        ensures { self.new ≡ after_offer self.old number level }
    {
        let level = u16::from(level);
        if level >= self.wanted {
            self.decision = Decision::Move(number);
            self.wanted = level + 1;
        }
    }
}

// The decision among all cells but the serving one.
fn best(settings: &HoSettings, averages: &Averages) -> Decision
    requires some { 0 < length averages.now.reports }
    requires same { settings.now ≡ averages.now.settings }
    ensures { Chooses averages.now.settings averages.now.reports
        (length averages.now.settings.cells) result }
{
    let wanted = bound(settings, averages);
    if !averages.may_any_reach(settings, wanted) {
        return Decision::Stay;
    }
    let mut choice = Choice {
        decision: Decision::Stay,
        wanted,
    };
    let heard = averages.heard();
    for place in 0..settings.cells.len() {
        let number = place as u8 + 1;
        if number != settings.serving {
            consider(settings, averages, &heard, place, &mut choice);
        }
    }
    choice.decision
}

// Chooses the cell at `place`, from 0, if its average level is at least `wanted`. The average level
// is computed only if an upper bound of that level is at least `wanted`.
fn consider(
    settings: &HoSettings,
    averages: &Averages,
    heard: &Heard,
    place: usize,
    choice: &mut Choice,
)
    requires some { 0 < length averages.now.reports }
    requires same { settings.now ≡ averages.now.settings }
    requires place { place < length averages.now.settings.cells }
    requires few { place < 255 }
    requires heard { AreHeard averages.now.reports heard.now }
    ensures { choice.new ≡ after_offer choice.old (place + 1)
        (average_at averages.now.settings averages.now.reports place) }
{
    if averages.may_reach(settings, heard, place, choice.wanted) {
        choice.offer(place as u8 + 1, averages.level_at(settings, heard, place));
    }
}

// The average level that a neighbour has to reach.
fn bound(settings: &HoSettings, averages: &Averages) -> u16
    requires some { 0 < length averages.now.reports }
    requires same { settings.now ≡ averages.now.settings }
    ensures { result ≡ bound averages.now.settings averages.now.reports }
{
    u16::from(averages.serving_level()) + u16::from(settings.parameters.hysteresis)
}
