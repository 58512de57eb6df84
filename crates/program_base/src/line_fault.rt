// SPDX-License-Identifier: MIT OR Apache-2.0
ghost use Rattle.std.specs.Prelude.{◌≡◌};
ghost use Rattle.program_base.specs.declared.line_fault.LineFault.TheVariants as faults;

use octets::Memory;
use thiserror::Error;

/// The script line isn't the text of an event.
#[derive(Clone, Copy)]
pub(crate) struct BadEvent;

/// Why a script line gave no event.
#[derive(Clone, Copy, Debug, Error)]
pub enum LineFault {
    /// The line isn't the text of an event.
    #[error("bad event")]
    BadEvent,
    #[error("out of memory")]
    Memory,
}

impl From<BadEvent> for LineFault {
    ghost from_gives = { λ _ fault. fault ≡ faults.BadEvent };

    fn from(_fault: BadEvent) -> LineFault {
        LineFault::BadEvent
    }
}

impl From<Memory> for LineFault {
    ghost from_gives = { λ _ fault. fault ≡ faults.Memory };

    fn from(_memory: Memory) -> LineFault {
        LineFault::Memory
    }
}
