// SPDX-License-Identifier: MIT OR Apache-2.0
ghost use Rattle.std.specs.Prelude.{◌≡◌, ◌<◌, ◌/◌, ◌%◌, All};
ghost use Rattle.controller_model.specs.Channels as words;
ghost use Rattle.settings.specs.Parameters.{IsDigit};

use conn_messages::CELL_IDENTIFIER_LENGTH;
use settings::{Cell, Settings};

/// The value of a cell's identifier (TS 48.008 clause 3.2.2.17): the octet 00; the digits of the
/// mobile country and network codes in three octets, two digits an octet, with F for a missing
/// third digit of the network code; the location area code; the cell identity. The location area
/// code and the cell identity have two octets each, the high octet first.
pub(crate) fn cell_identifier(settings: &Settings, cell: &Cell) -> [u8; CELL_IDENTIFIER_LENGTH]
    ensures { result ≡ words.cell_identifier settings.now.network cell.now }
{
    let mcc = settings.mcc().as_bytes();
    let mnc = settings.mnc().as_bytes();
    let area = cell.location_area_code();
    let identity = cell.cell_identity();
    [
        0,
        digits(digit(mcc, 1), digit(mcc, 0)),
        digits(third_digit(mnc), digit(mcc, 2)),
        digits(digit(mnc, 1), digit(mnc, 0)),
        high_octet(area),
        low_octet(area),
        high_octet(identity),
        low_octet(identity),
    ]
}

fn high_octet(number: u16) -> u8
    ensures { result ≡ number / 256 }
{
    (number / 256) as u8
}

fn low_octet(number: u16) -> u8
    ensures { result ≡ number % 256 }
{
    (number % 256) as u8
}

// The value of the digit at `place` in a text of digits; 0 beyond the end of the text.
fn digit(text: &[u8], place: usize) -> u8
    requires { All IsDigit text.now }
    ensures value { result ≡ words.digit_at text.now place }
    ensures digit { result < 16 }
{
    match text.get(place) {
        Some(digit) => digit.saturating_sub(b'0'),
        None => 0,
    }
}

fn third_digit(mnc: &[u8]) -> u8
    requires { All IsDigit mnc.now }
    ensures value { result ≡ words.third_digit mnc.now }
    ensures digit { result < 16 }
{
    match mnc.get(2) {
        Some(digit) => digit.saturating_sub(b'0'),
        None => 0x0f,
    }
}

// Two digits in an octet.
fn digits(high: u8, low: u8) -> u8
    requires { (high < 16) × (low < 16) }
    ensures { result ≡ words.digits high low }
{
    16 * high + low
}
