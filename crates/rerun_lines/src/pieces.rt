// SPDX-License-Identifier: MIT OR Apache-2.0
//! Pieces of a line.
ghost use Rattle.std.specs.Prelude.{◌≡◌, ◌++◌, OnOk, codes, decimal};
ghost use Rattle.rerun_lines.specs.Clock.{clock_column};

use crate::clock::clock_column;
use itoa::Buffer;
use octets::Memory;
use run_record::Stamp;

/// Appends octets.
pub(crate) fn put_octets(octets: &[u8], text: &mut Vec<u8>) -> Result<(), Memory>
    ensures { OnOk result (text.new.items ≡ text.old.items ++ octets.now) }
{
    text.extend_from_slice(octets)?;
    Ok(())
}

/// Appends the decimal digits of a number.
pub(crate) fn put_decimal(number: u64, text: &mut Vec<u8>) -> Result<(), Memory>
    ensures { OnOk result (text.new.items ≡ text.old.items ++ decimal number) }
{
    let mut digits = Buffer::new();
    text.extend_from_slice(digits.format(number).as_bytes())?;
    Ok(())
}

/// Appends the time of day, and a last column that is empty.
pub(crate) fn put_clock(stamp: Stamp, text: &mut Vec<u8>) -> Result<(), Memory>
    ensures { OnOk result (text.new.items ≡ text.old.items ++ (clock_column stamp ++ codes "\n")) }
{
    text.extend_from_slice(&clock_column(stamp))?;
    text.extend_from_slice(b"\n")?;
    Ok(())
}
