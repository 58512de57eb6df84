// SPDX-License-Identifier: MIT OR Apache-2.0
ghost use Rattle.mobile_end.specs.declared.fault.MobileFault.TheVariants.{Memory as OutOfMemory};
ghost use Rattle.std.specs.Prelude.{◌≡◌};

use octets::Memory;
use thiserror::Error;

/// Why a call of a `MobileEnd` failed. The causes are checked in the order of the variants.
#[derive(Clone, Copy, Debug, Error)]
pub enum MobileFault {
    #[error("the mobile is not connected")]
    NotConnected,
    #[error("the message may not be sent")]
    BadMessage,
    #[error("out of memory")]
    Memory,
}

impl From<Memory> for MobileFault {
    ghost from_gives = { λ _ fault. fault ≡ OutOfMemory };

    fn from(_memory: Memory) -> MobileFault {
        MobileFault::Memory
    }
}
