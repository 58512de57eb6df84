// SPDX-License-Identifier: MIT OR Apache-2.0
ghost use Rattle.std.specs.Prelude.{◌≡◌};
ghost use Rattle.link_model.specs.declared.fault.LinkFault.TheVariants.{Memory as OutOfMemory};

use octets::Memory;
use thiserror::Error;

/// Why a call of a `BaseEnd` failed. The causes are checked in the order of the variants.
#[derive(Clone, Copy, Debug, Error)]
pub enum LinkFault {
    #[error("the channel is not active")]
    NotActive,
    #[error("the channel is active")]
    Busy,
    #[error("out of memory")]
    Memory,
}

impl From<Memory> for LinkFault {
    ghost from_gives = { λ _ fault. fault ≡ OutOfMemory };

    fn from(_memory: Memory) -> LinkFault {
        LinkFault::Memory
    }
}
