// SPDX-License-Identifier: MIT OR Apache-2.0
ghost use Rattle.judge_lines.specs.Line.{Reads, body_in};

use crate::LineFault;
use hex::FromHexError;
use octets::Octets;
use std::alloc::Global;

/// Decodes hexadecimal digits of either case. `Err(NotHexadecimal)` if `digits` is empty, has an
/// odd length or has another character; `Err(Memory)` if an allocation fails.
pub(crate) fn read_body(alloc: Global, digits: &[u8]) -> Result<Octets, LineFault>
    ensures { Reads result (body_in digits.now) }
{
    if digits.is_empty() {
        return Err(LineFault::NotHexadecimal);
    }
    match hex::decode(alloc, digits) {
        Ok(octets) => Ok(Octets::new(octets)),
        Err(FromHexError::OutOfMemory) => Err(LineFault::Memory),
        Err(_) => Err(LineFault::NotHexadecimal),
    }
}
