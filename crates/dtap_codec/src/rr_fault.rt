// SPDX-License-Identifier: MIT OR Apache-2.0
use octets::Memory;
use thiserror::Error;

/// Why octets can't be read as a message of radio resource management.
#[derive(Clone, Copy, Debug, Error)]
pub enum RrFault {
    /// The octets end before the message does.
    #[error("message too short")]
    Short,
    /// The discriminator isn't that of radio resource management, or the message type isn't known.
    /// IMMEDIATE ASSIGNMENT is known only after a pseudo length, every other type only without a
    /// pseudo length.
    #[error("unknown message of radio resource management")]
    UnknownRr,
    /// An allocation failed.
    #[error("out of memory")]
    Memory,
}

impl From<Memory> for RrFault {
    ghost use Rattle.std.specs.Prelude.{◌≡◌};
    ghost use Rattle.dtap_codec.specs.declared.rr_fault.RrFault.TheVariants as faults;

    ghost from_gives = { λ _ fault. fault ≡ faults.Memory };

    fn from(_error: Memory) -> RrFault {
        RrFault::Memory
    }
}
