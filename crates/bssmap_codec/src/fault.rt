// SPDX-License-Identifier: MIT OR Apache-2.0
use octets::Memory;
use thiserror::Error;

/// Why octets of the A interface aren't read, or a message isn't written.
#[derive(Clone, Copy, Debug, Error)]
pub enum InterfaceFault {
    /// The octets end too early, or a layer 3 message is empty.
    #[error("message too short")]
    Short,
    /// The type of the message isn't known, the SAPI of DTAP is neither 0 nor 3, or a DT1 is
    /// segmented.
    #[error("unknown type of message")]
    UnknownType,
    /// The message lacks the element with this identifier.
    #[error("element {0:02x} is missing")]
    MissingElement(u8),
    /// A pointer leads out of the message, or the pointer to the called address or to the data is
    /// 0.
    #[error("pointer out of the message")]
    BadPointer,
    /// A layer 3 message has more than 251 octets, or a part that a length octet must count has
    /// more than 255.
    #[error("message too long")]
    TooLong,
    /// An allocation failed.
    #[error("out of memory")]
    Memory,
}

impl From<Memory> for InterfaceFault {
    ghost use Rattle.std.specs.Prelude.{◌≡◌};
    ghost use Rattle.bssmap_codec.specs.declared.fault.InterfaceFault.TheVariants as faults;

    ghost from_gives = { λ _ fault. fault ≡ faults.Memory };

    fn from(_error: Memory) -> InterfaceFault {
        InterfaceFault::Memory
    }
}
