// SPDX-License-Identifier: MIT OR Apache-2.0
use octets::Memory;
use std::alloc::AllocError;
use thiserror::Error;

/// Why a job isn't done.
#[derive(Debug, Clone, Copy, Error)]
pub enum Stop {
    #[error("no such job or seed")]
    Words,
    #[error("out of memory")]
    Memory,
    /// A command ended with a status above 0, or settings were refused.
    #[error("an input was refused")]
    Refused,
    /// A relay lost or duplicated messages.
    #[error("other messages came out than went in")]
    Uneven,
}

impl From<Memory> for Stop {
    fn from(_memory: Memory) -> Stop {
        Stop::Memory
    }
}

impl From<AllocError> for Stop {
    fn from(_error: AllocError) -> Stop {
        Stop::Memory
    }
}
