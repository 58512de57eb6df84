// SPDX-License-Identifier: MIT OR Apache-2.0
ghost use Rattle.std.specs.Prelude.{◌≡◌, ◌<◌, IfOk, true};
ghost use Rattle.dtap_codec.specs.Message.{is_flow_message};
ghost use Rattle.dtap_codec.specs.Number.{count_of, number_in, with_number, without_number};

use crate::is_flow;
use octets::Memory;
use std::alloc::Global;

/// The modulus of the send sequence number N(SD) (TS 24.007 clause 11.2.3.2.3.2).
#[derive(Clone, Copy, Debug)]
pub enum Modulus {
    /// Numbers 0 to 3, in bits 8 and 7 of the second octet.
    Four,
    /// Numbers 0 and 1, in bit 7 of the second octet, for mobiles of Release 98 and older. Bit 8 is
    /// written as 0 and ignored when read.
    Two,
}

impl Modulus {
    /// The modulus as a number.
    pub fn count(self) -> u8
        ensures { result ≡ count_of self }
    {
        match self {
            Modulus::Four => 4,
            Modulus::Two => 2,
        }
    }
}

/// The send sequence number N(SD) of a message: bits 8 and 7 of the second octet, or bit 7 alone
/// with `Two`. `None` if the message isn't of the flow (`is_flow`).
pub fn number_of(message: &[u8], modulus: Modulus) -> Option<u8>
    ensures { result ≡ number_in (count_of modulus) message.now }
{
    match message {
        [_, second, ..] if is_flow(message) => Some((*second >> 6) % modulus.count()),
        _ => None,
    }
}

/// A copy of `message` with `number` in bits 8 and 7 of the second octet and all other bits
/// unchanged. With `Two`, bit 8 is 0 in the copy. `Err` if the allocation fails.
///
/// Assumes: `message` is of the flow (`is_flow`), and `number` is below the modulus.
pub fn with_number(
    alloc: Global,
    message: &[u8],
    number: u8,
    modulus: Modulus,
) -> Result<Vec<u8>, Memory>
    requires flow { is_flow_message message.now ≡ true }
    requires number { number < count_of modulus }
    ensures { IfOk result (λ copy. copy.items ≡ with_number number message.now) }
{
    let mut copy = Vec::from_slice(alloc, message)?;
    copy[1] = copy[1] & 0x3f | number << 6;
    Ok(copy)
}

/// A copy of `message` with N(SD), bits 8 and 7 of the second octet, cleared and all other bits
/// unchanged. `Err` if the allocation fails. Assumes: `message` is of the flow (`is_flow`).
pub fn without_number(alloc: Global, message: &[u8], modulus: Modulus) -> Result<Vec<u8>, Memory>
    requires { is_flow_message message.now ≡ true }
    ensures { IfOk result (λ copy. copy.items ≡ without_number message.now) }
{
    with_number(alloc, message, 0, modulus)
}
