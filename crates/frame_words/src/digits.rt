// SPDX-License-Identifier: MIT OR Apache-2.0
ghost use Rattle.std.specs.Prelude.{◌≡◌, ◌≤◌, ◌++◌, ◌∷◌, [], IfErr, OnOk, codes};
ghost use Rattle.std.specs.Prelude.{length};
ghost use Rattle.std.specs.Io.KnownBytes.{Appends};
ghost use Rattle.hex.specs.Hex.{encode_lower};
ghost use Rattle.program_io.specs.Status.{status_of};

use crate::joined::write_parted;
use octets::Memory;
use program_io::{Failure, put, put_joined};
use std::alloc::Global;
use std::io::Write;

/// The number of octets up to which their digits are assembled without an allocation.
const SHORT: usize = 64;

/// Writes octets in lower-case hexadecimal digits. After an error, a part may have been written.
pub fn write_digits<W: Write>(alloc: Global, octets: &[u8], output: &mut W) -> Result<(), Failure>
    ensures text { OnOk result (Appends (W.contents output.old) (W.contents output.new)
        (encode_lower octets.now)) }
    ensures err { IfErr result (λ failure. status_of failure ≡ 3) }
{
    if octets.len() <= SHORT {
        put(output, short_digits(octets, &mut [0; 2 * SHORT]))?;
        return Ok(());
    }
    let digits = hex::encode(alloc, octets).map_err(Memory::from)?;
    put(output, digits.as_bytes())?;
    Ok(())
}

/// Writes a word, octets in lower-case hexadecimal digits, and a line feed. After an error, a part
/// may have been written. The word's last octet separates two columns. If the output takes nothing
/// of the line as one piece, this octet is written separately.
pub fn write_digits_line<W: Write>(
    alloc: Global,
    word: &str,
    octets: &[u8],
    output: &mut W,
) -> Result<(), Failure>
    ensures text { OnOk result (Appends (W.contents output.old) (W.contents output.new)
        (word.now ++ encode_lower octets.now ++ codes "\n")) }
    ensures err { IfErr result (λ failure. status_of failure ≡ 3) }
{
    let front = word.len().saturating_sub(1);
    if octets.len() <= SHORT {
        let mut room = [0; 2 * SHORT];
        let digits = short_digits(octets, &mut room);
        let sizes = [front, 1, digits.len()];
        return write_parted(word.as_bytes(), digits, b"\n", &sizes, output);
    }
    put_joined(output, word.as_bytes(), &[front])?;
    write_digits(alloc, octets, output)?;
    put(output, b"\n")?;
    Ok(())
}

/// The hexadecimal digits of at most `SHORT` octets, written into `room`.
fn short_digits<'a>(octets: &[u8], room: &'a mut [u8; 2 * SHORT]) -> &'a [u8]
    requires { length octets.now ≤ SHORT }
    ensures { result.now ≡ encode_lower octets.now }
{
    let end = 2 * octets.len();
    let Ok(()) = hex::encode_to_slice(octets, &mut room[..end]) else {
        unreachable!()
    };
    &room[..end]
}

/// The hexadecimal digits of an octet.
pub(crate) fn digits_of(octet: u8) -> [u8; 2]
    ensures { result ≡ encode_lower (octet ∷ []) }
{
    let mut digits = [0; 2];
    hex::encode_to_slice([octet], &mut digits).unwrap();
    digits
}

/// The hexadecimal digits of the three octets of a reference.
pub(crate) fn reference_digits(octets: [u8; 3]) -> [u8; 6]
    ensures { result ≡ encode_lower octets }
{
    let mut digits = [0; 6];
    hex::encode_to_slice(octets, &mut digits).unwrap();
    digits
}
