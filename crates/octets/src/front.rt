// SPDX-License-Identifier: MIT OR Apache-2.0
ghost use Rattle.std.specs.Prelude.{◌≡◌, ◌++◌, ◌<◌, length, OnErr, OnOk};
ghost use Rattle.octets.specs.Answer.{result_map};
ghost use Rattle.octets.specs.Front.{octet_at, split_at, counted_at, counted_text};

use crate::{Memory, Octets};

/// The first octet, and the octets after it. `Err(fault)` if `octets` is empty.
#[tactic(auto, unfolding(crate::specs::Front::octet_at))]
pub fn octet<F: Copy>(octets: &[u8], fault: F) -> Result<(u8, &[u8]), F>
    ensures { result_map (λ p. (p.0, p.1.now)) result ≡ octet_at fault octets.now }
{
    match octets.split_first() {
        Some((octet, rest)) => Ok((*octet, rest)),
        None => Err(fault),
    }
}

/// The first `size` octets, and the octets after them. `Err(fault)` if there are fewer than `size`
/// octets.
pub fn split<F: Copy>(octets: &[u8], size: usize, fault: F) -> Result<(&[u8], &[u8]), F>
    ensures { result_map (λ p. (p.0.now, p.1.now)) result ≡ split_at fault size octets.now }
{
    if octets.len() < size {
        return Err(fault);
    }
    Ok((&octets[..size], &octets[size..]))
}

/// The value whose length is the first octet, and the octets after the value. `Err(fault)` if the
/// length octet is missing or the octets end within the value.
#[tactic(auto, unfolding(crate::specs::Front::counted_at))]
pub fn counted<F: Copy>(octets: &[u8], fault: F) -> Result<(&[u8], &[u8]), F>
    ensures { result_map (λ p. (p.0.now, p.1.now)) result ≡ counted_at fault octets.now }
{
    let (size, rest) = octet(octets, fault)?;
    split(rest, usize::from(size), fault)
}

/// Appends a length octet and `value`. On `Err` (allocation failure), `text` is unchanged. Assumes:
/// `value` has at most 255 octets.
pub fn put_counted(text: &mut Vec<u8>, value: &[u8]) -> Result<(), Memory>
    requires { length value.now < 256 }
    ensures ok { OnOk result (text.new.items ≡ text.old.items ++ counted_text value.now) }
    ensures err { OnErr result (text.new.items ≡ text.old.items) }
{
    let size = value.len();
    text.reserve(1 + size)?;
    text.push_reserved(size as u8);
    text.extend_from_slice(value)?;
    Ok(())
}
