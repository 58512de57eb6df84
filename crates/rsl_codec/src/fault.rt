// SPDX-License-Identifier: MIT OR Apache-2.0
use octets::Memory;
use thiserror::Error;

/// Why a message can't be read or written.
#[derive(Clone, Copy, Debug, Error)]
pub enum RslFault {
    /// There are fewer than two octets, the octets end within an element, or the L3 information is
    /// empty.
    #[error("message too short")]
    Short,
    /// The discriminator and the message type octet are those of no known message.
    #[error("unknown message type")]
    UnknownType,
    /// The mandatory element with this identifier is missing.
    #[error("element {0:02x} is missing")]
    MissingElement(u8),
    /// The octet of the channel number isn't allowed (see `ChanNo`).
    #[error("bad channel number")]
    BadChannel,
    /// Memory ran out.
    #[error("out of memory")]
    Memory,
    /// The L3 information has more than 251 octets, or a value whose length is written in one octet
    /// has more than 255.
    #[error("message too long")]
    TooLong,
}

impl From<Memory> for RslFault {
    ghost use Rattle.std.specs.Prelude.{◌≡◌};
    ghost use Rattle.rsl_codec.specs.declared.fault.RslFault.TheVariants as faults;

    ghost from_gives = { λ _ fault. fault ≡ faults.Memory };

    fn from(_error: Memory) -> RslFault {
        RslFault::Memory
    }
}
