// SPDX-License-Identifier: MIT OR Apache-2.0
ghost use Rattle.std.specs.Prelude.{◌≡◌, codes, option_map};
ghost use Rattle.std.specs.Str.{bytes_eq};
ghost use Rattle.judge_lines.specs.Columns.{crossing_in, link_in, station_in};

use crate::number::read_number;
use run_judge::Way;

/// The beginning of a station's name, before its number.
const STATION: &[u8] = b"station ";

/// The highest number of a station.
const LAST_STATION: u64 = 255;

/// The direction of a frame on a link of the controller, and the name of the other end.
#[derive(Clone, Copy)]
pub(crate) struct Crossing<'a> {
    pub(crate) way: Way,
    pub(crate) peer: &'a [u8],
}

/// The crossing of a frame from the end `from` to the end `to`. `None` unless exactly one of the
/// two ends is the controller.
pub(crate) fn crossing_of<'a>(from: &'a [u8], to: &'a [u8]) -> Option<Crossing<'a>>
    ensures { option_map (λ c. (c.way, c.peer.now)) result ≡ crossing_in from.now to.now }
{
    match (is_controller(from), is_controller(to)) {
        (false, true) => Some(Crossing {
            way: Way::ToController,
            peer: from,
        }),
        (true, false) => Some(Crossing {
            way: Way::FromController,
            peer: to,
        }),
        _ => None,
    }
}

fn is_controller(end: &[u8]) -> bool
    ensures { result ≡ bytes_eq end.now (codes "bsc") }
{
    match end {
        b"bsc" => true,
        _ => false,
    }
}

/// The number of the link to the end with the name `end`: 0 for the switch, else the number of the
/// station. `None` for any other name.
pub(crate) fn read_link(end: &[u8]) -> Option<u16>
    ensures { result ≡ link_in end.now }
{
    match end {
        b"switch" => Some(0),
        _ => read_station(end.strip_prefix(STATION)?),
    }
}

/// Reads the number of a station, from 1 to 255, without leading zeros. `None` for anything else.
fn read_station(digits: &[u8]) -> Option<u16>
    ensures { result ≡ station_in digits.now }
{
    if let [b'0', ..] = digits {
        return None;
    }
    let number = read_number(digits)?;
    if number > LAST_STATION {
        return None;
    }
    Some(number as u16)
}
