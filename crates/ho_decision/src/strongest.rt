// SPDX-License-Identifier: MIT OR Apache-2.0
ghost use Rattle.std.specs.Prelude.{◌+◌, ◌≤◌, ℕ, Option, sum_by};
ghost use Rattle.std.specs.List.{All};
ghost use Rattle.ho_decision.specs.Average.{last};
ghost use Rattle.ho_decision.specs.Measure.{level_at};
ghost use Rattle.ho_decision.specs.Strongest.{IsStrongest};

use circular_buffer::HeapCircularBuffer;
use dtap_codec::{Neighbour, Report};

/// The sum of the greatest neighbour levels of the last `window` reports; the sum saturates. If the
/// sum isn't saturated, the levels of any one cell in these reports add up to at most this sum.
pub(crate) fn strongest(reports: &HeapCircularBuffer<Report>, window: u8) -> u16
    ensures { IsStrongest window reports.now.items result }
{
    let count = reports.len().min(usize::from(window));
    let mut total: u16 = 0;
    for back in 0..count {
        total = total.saturating_add(u16::from(greatest_at(reports, back)));
    }
    total
}

// The greatest neighbour level in the report that exactly `back` reports follow; 0 if there is no
// such report.
fn greatest_at(reports: &HeapCircularBuffer<Report>, back: usize) -> u8
    ensures { (place : Option ℕ) (bsic : ℕ)
        → sum_by (level_at place bsic) (last (back + 1) reports.now.items)
        ≤ result + sum_by (level_at place bsic) (last back reports.now.items) }
{
    match reports.nth_back(back) {
        Some(report) => greatest(report.neighbours()),
        None => 0,
    }
}

// The greatest level of `entries`; 0 if there is no entry.
fn greatest(entries: &[Neighbour]) -> u8
    ensures { All (λ n. n.rxlev ≤ result) entries.now }
{
    let mut level = 0;
    for entry in entries {
        if entry.rxlev > level {
            level = entry.rxlev;
        }
    }
    level
}
