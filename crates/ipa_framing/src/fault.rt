// SPDX-License-Identifier: MIT OR Apache-2.0
use octets::Memory;
use thiserror::Error;

/// Why a frame can't be read or written.
#[derive(Clone, Copy, Debug, Error)]
pub enum FrameFault {
    /// The body has more octets than `MAX_BODY`.
    #[error("frame too long")]
    TooLong,
    /// Memory ran out.
    #[error("out of memory")]
    Memory,
}

impl From<Memory> for FrameFault {
    ghost use Rattle.std.specs.Prelude.{◌≡◌};
    ghost use Rattle.ipa_framing.specs.declared.fault.FrameFault.TheVariants as faults;

    ghost from_gives = { λ _ fault. fault ≡ faults.Memory };

    fn from(_memory: Memory) -> FrameFault {
        FrameFault::Memory
    }
}
