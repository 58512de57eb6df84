// SPDX-License-Identifier: MIT OR Apache-2.0
ghost use Rattle.std.specs.Prelude.{◌≡◌, ◌<◌, ◌≤◌, ℕ, OnOk, length};
ghost use Rattle.frame_pictures.specs.Capture.{way};
ghost use Rattle.frame_pictures.specs.NextNumbers.{Moves, number_at};

use crate::link_frame::End;
use octets::Memory;

/// The number of the way from `from` to `to`: even towards the controller, odd from the controller.
pub(crate) fn way(from: End, to: End) -> usize
    ensures { result ≡ way from to }
{
    match from {
        End::Switch => 0,
        End::Station(number) => 2 * usize::from(number) + 2,
        End::Controller => match to {
            End::Station(number) => 2 * usize::from(number) + 3,
            _ => 1,
        },
    }
}

/// The TCP sequence number of the next octet on a way, or 1 if `numbers` has no entry for the way.
pub(crate) fn number_at(numbers: &[u32], way: usize) -> u32
    ensures { result ≡ number_at numbers.now way }
{
    match numbers.get(way) {
        Some(number) => *number,
        None => 1,
    }
}

/// Adds `octets` to the sequence number of a way, modulo 2^32. Fails only if an allocation fails.
pub(crate) fn move_number(numbers: &mut Vec<u32>, way: usize, octets: u32) -> Result<(), Memory>
    ensures { OnOk result (Moves numbers.old.items numbers.new.items way octets) }
{
    reach(numbers, way)?;
    numbers[way] = numbers[way].wrapping_add(octets);
    Ok(())
}

/// Appends entries of value 1 to `numbers` until it has an entry for `way`.
fn reach(numbers: &mut Vec<u32>, way: usize) -> Result<(), Memory>
    ensures length { OnOk result (way < length numbers.new.items) }
    ensures same { OnOk result ((other : ℕ) →
        number_at numbers.new.items other ≡ number_at numbers.old.items other) }
{
    while numbers.len() <= way {
        numbers.push(1)?;
    }
    Ok(())
}
