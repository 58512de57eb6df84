// SPDX-License-Identifier: MIT OR Apache-2.0
ghost use Rattle.std.specs.Prelude.{◌≡◌};
ghost use Rattle.step_recorder.specs.Writing.{is_before, later};

use run_record::Stamp;

fn is_before(one: Stamp, other: Stamp) -> bool
    ensures { result ≡ is_before one other }
{
    one.seconds < other.seconds
        || one.seconds == other.seconds && one.microseconds < other.microseconds
}

/// The later of two times.
pub(crate) fn later(one: Stamp, other: Stamp) -> Stamp
    ensures { result ≡ later one other }
{
    if is_before(one, other) { other } else { one }
}
