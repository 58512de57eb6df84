// SPDX-License-Identifier: MIT OR Apache-2.0
ghost use Rattle.std.specs.Prelude.{◌≡◌};
ghost use Rattle.record_steps.specs.declared.step_fault.StepFault.TheVariants.{Memory as NoMemory};

use octets::Memory;
use std::alloc::AllocError;
use thiserror::Error;

/// Why an entry of a record is refused.
#[derive(Clone, Copy, Debug, Error)]
pub enum StepFault {
    #[error("a frame that was put, before any step")]
    PutBeforeStep,
    #[error("a piece of the head behind a step")]
    HeadBehindStep,
    #[error("an entry behind the end of the record")]
    BehindEnd,
    /// The number of the link.
    #[error("link {0}, which the settings don't have")]
    NoLink(u8),
    #[error("out of memory")]
    Memory,
}

impl From<AllocError> for StepFault {
    ghost from_gives = { λ _ fault. fault ≡ NoMemory };

    fn from(_error: AllocError) -> StepFault {
        StepFault::Memory
    }
}

impl From<Memory> for StepFault {
    ghost from_gives = { λ _ fault. fault ≡ NoMemory };

    fn from(_memory: Memory) -> StepFault {
        StepFault::Memory
    }
}
