// SPDX-License-Identifier: MIT OR Apache-2.0
ghost use Rattle.std.specs.Prelude.{◌≡◌};
ghost use Rattle.program_io.specs.Status.{failure_of, failure_unread, status_of};
ghost use Rattle.std.specs.IoError.{error_kind};
ghost use Rattle.program_io.specs.declared.failure.Failure.TheVariants.{Memory as OutOfMemory};

use crate::input::Unread;
use octets::Memory;
use std::io::{self, ErrorKind};
use thiserror::Error;

/// Why reading a script or a stream stopped early, or why printing the result did.
#[derive(Clone, Copy, Debug, Error)]
pub enum Failure {
    /// The script line with this number, counted from 1, isn't the text of an event.
    #[error("line {0}: bad event")]
    BadEvent(u64),
    #[error("out of memory")]
    Memory,
    /// A read or a write failed.
    #[error("device failed")]
    Device,
}

impl Failure {
    /// The exit status of the program: 2 for `BadEvent`, 3 for `Memory` and `Device`.
    pub fn status(self) -> u8
        ensures { result ≡ status_of self }
    {
        match self {
            Failure::BadEvent(_) => 2,
            Failure::Memory | Failure::Device => 3,
        }
    }
}

impl From<io::Error> for Failure {
    ghost from_gives = { λ error failure. (failure ≡ failure_of (error_kind error))
        × (status_of failure ≡ 3) };

    fn from(error: io::Error) -> Failure {
        match error.kind() {
            ErrorKind::OutOfMemory => Failure::Memory,
            _ => Failure::Device,
        }
    }
}

impl From<Memory> for Failure {
    ghost from_gives = { λ _ failure. failure ≡ OutOfMemory };

    fn from(_memory: Memory) -> Failure {
        Failure::Memory
    }
}

impl From<Unread<Failure>> for Failure {
    ghost from_gives = { λ unread failure. failure ≡ failure_unread unread };

    fn from(unread: Unread<Failure>) -> Failure {
        match unread {
            Unread::Endless(_) => Failure::Device,
            Unread::Device(error) => Failure::from(error),
            Unread::Refused(failure) => failure,
        }
    }
}
