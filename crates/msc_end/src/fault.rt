// SPDX-License-Identifier: MIT OR Apache-2.0
use octets::Memory;
use thiserror::Error;

/// Why the switch end doesn't send a message.
#[derive(Clone, Copy, Debug, Error)]
pub enum MscFault {
    /// No connection has that number.
    #[error("no such connection")]
    NoConnection,
    /// A CLEAR COMMAND was sent on the connection, or the connection ended.
    #[error("connection closed")]
    Closed,
    /// Allocation failed.
    #[error("out of memory")]
    Memory,
}

impl From<Memory> for MscFault {
    ghost use Rattle.std.specs.Prelude.{◌≡◌};
    ghost use Rattle.msc_end.specs.declared.fault.MscFault.TheVariants as faults;

    ghost from_gives = { λ _ fault. fault ≡ faults.Memory };

    fn from(_error: Memory) -> MscFault {
        MscFault::Memory
    }
}
