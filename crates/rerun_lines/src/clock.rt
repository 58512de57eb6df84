// SPDX-License-Identifier: MIT OR Apache-2.0
//! The time of day, UTC.
ghost use Rattle.std.specs.Prelude.{◌≡◌};
ghost use Rattle.rerun_lines.specs.Clock.{clock_column, digit_of, time_of_day};

use run_record::Stamp;

/// The milliseconds since midnight.
pub(crate) fn time_of_day(stamp: Stamp) -> u32
    ensures { result ≡ time_of_day stamp }
{
    1000 * (stamp.seconds % 86400) + stamp.microseconds / 1000 % 1000
}

/// The last decimal digit of a number.
fn digit_of(number: u32) -> u8
    ensures { result ≡ digit_of number }
{
    b'0' + (number % 10) as u8
}

/// The end of a column: a space, hours, minutes, seconds and milliseconds, and the tab behind it.
pub(crate) fn clock_column(stamp: Stamp) -> [u8; 14]
    ensures { result ≡ clock_column stamp }
{
    let time = time_of_day(stamp);
    [
        b' ',
        digit_of(time / 36_000_000),
        digit_of(time / 3_600_000),
        b':',
        digit_of(time / 600_000 % 6),
        digit_of(time / 60_000),
        b':',
        digit_of(time / 10_000 % 6),
        digit_of(time / 1000),
        b'.',
        digit_of(time / 100),
        digit_of(time / 10),
        digit_of(time),
        b'\t',
    ]
}
