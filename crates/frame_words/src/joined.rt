// SPDX-License-Identifier: MIT OR Apache-2.0
//! Texts are joined before they are written, because a write costs more than a copy.
ghost use Rattle.std.specs.Prelude.{◌≡◌, ◌++◌, IfErr, OnOk};
ghost use Rattle.std.specs.Io.KnownBytes.{Appends};
ghost use Rattle.program_io.specs.Status.{status_of};

use arrayvec::{ArrayVec, CapacityError};
use program_io::{Failure, put, put_joined};
use std::io::Write;

/// The number of octets up to which texts are joined. Joining them needs no allocation.
const ROOM: usize = 160;

/// Writes three texts one after the other. If they have at most `ROOM` octets together, as nearly
/// all lines have, they are joined and offered to the output as one piece. After an error, a part
/// may have been written.
pub fn write_joined<W: Write>(
    first: &[u8],
    second: &[u8],
    third: &[u8],
    output: &mut W,
) -> Result<(), Failure>
    ensures text { OnOk result (Appends (W.contents output.old) (W.contents output.new)
        (first.now ++ second.now ++ third.now)) }
    ensures err { IfErr result (λ failure. status_of failure ≡ 3) }
{
    let sizes = [first.len(), second.len()];
    write_parted(first, second, third, &sizes, output)
}

/// Writes three texts one after the other. If they have at most `ROOM` octets together, they are
/// joined and written as one piece. If the output doesn't take the joined text, it is written in
/// parts of the sizes `sizes`.
pub(crate) fn write_parted<W: Write>(
    first: &[u8],
    second: &[u8],
    third: &[u8],
    sizes: &[usize],
    output: &mut W,
) -> Result<(), Failure>
    ensures text { OnOk result (Appends (W.contents output.old) (W.contents output.new)
        (first.now ++ second.now ++ third.now)) }
    ensures err { IfErr result (λ failure. status_of failure ≡ 3) }
{
    let mut room = ArrayVec::<u8, ROOM>::new();
    match gather(first, second, third, &mut room) {
        Ok(()) => {
            put_joined(output, room.as_slice(), sizes)?;
            Ok(())
        }
        Err(_) => write_apart(first, second, third, output),
    }
}

/// Appends three texts to `room`, or fails if they don't fit.
fn gather(
    first: &[u8],
    second: &[u8],
    third: &[u8],
    room: &mut ArrayVec<u8, ROOM>,
) -> Result<(), CapacityError>
    ensures { OnOk result (room.new.items ≡ room.old.items
        ++ (first.now ++ second.now ++ third.now)) }
{
    room.try_extend_from_slice(first)?;
    room.try_extend_from_slice(second)?;
    room.try_extend_from_slice(third)
}

/// Writes three texts one after the other, each with a write of its own.
fn write_apart<W: Write>(
    first: &[u8],
    second: &[u8],
    third: &[u8],
    output: &mut W,
) -> Result<(), Failure>
    ensures text { OnOk result (Appends (W.contents output.old) (W.contents output.new)
        (first.now ++ second.now ++ third.now)) }
    ensures err { IfErr result (λ failure. status_of failure ≡ 3) }
{
    put(output, first)?;
    put(output, second)?;
    put(output, third)?;
    Ok(())
}
