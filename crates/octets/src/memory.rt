// SPDX-License-Identifier: MIT OR Apache-2.0
use std::alloc::{AllocError, AllocFailed};
use thiserror::Error;

/// The error of calls that can fail only because memory runs out.
#[derive(Clone, Copy, Debug, PartialEq, Eq, Error)]
#[error("out of memory")]
pub struct Memory;

impl From<AllocError> for Memory {
    fn from(_error: AllocError) -> Memory {
        Memory
    }
}

impl<T: Drop> From<AllocFailed<T>> for Memory {
    fn from(_error: AllocFailed<T>) -> Memory {
        Memory
    }
}
