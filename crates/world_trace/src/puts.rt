// SPDX-License-Identifier: MIT OR Apache-2.0
ghost use Rattle.std.specs.Prelude.{◌≡◌, drop};
ghost use Rattle.world_trace.specs.Notes.{is_put, is_sent, puts_of};

use crate::crossing::{Crossing, End, Passage};
use connection_notes::{Puts, Way};

/// The directions, down and up, in which frames among these crossings are put on a link.
pub(crate) fn puts_of(crossings: &[Crossing]) -> Puts
    ensures { result ≡ puts_of crossings.now }
{
    Puts {
        down: is_put(Way::Down, crossings),
        up: is_put(Way::Up, crossings),
    }
}

fn is_put(way: Way, crossings: &[Crossing]) -> bool
    ensures { result ≡ is_put way crossings.now }
{
    for crossing in crossings {
        if is_sent(way, crossing) {
            return true;
        }
    }
    false
}

/// Whether the frame is put on a link in this direction: down on a station's link, up on the
/// switch's.
fn is_sent(way: Way, crossing: &Crossing) -> bool
    ensures { result ≡ is_sent way crossing.now }
{
    match (way, crossing.passage, crossing.to) {
        (Way::Down, Passage::Sent, End::Station(_)) => true,
        (Way::Up, Passage::Sent, End::Switch) => true,
        _ => false,
    }
}
