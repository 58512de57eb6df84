// SPDX-License-Identifier: MIT OR Apache-2.0
ghost use Rattle.std.specs.Prelude.{◌≡◌};
ghost use Rattle.std.specs.IoError.{error_kind};
ghost use Rattle.link_sockets.specs.Faults.{fault_of};
ghost use Rattle.link_sockets.specs.declared.fault.RunFault.TheVariants.{Memory as OutOfMemory};

use octets::Memory;
use std::alloc::{AllocError, AllocFailed};
use std::io::{self, ErrorKind};
use thiserror::Error;

/// Why the relay didn't run to its end.
#[derive(Clone, Copy, Debug, Error)]
pub enum RunFault {
    /// An allocation failed, or a thread couldn't be started.
    #[error("out of memory")]
    Memory,
    /// A link couldn't be opened or ended too early, or a listener couldn't be cloned.
    #[error("device failed")]
    Device,
}

impl From<Memory> for RunFault {
    ghost from_gives = { λ _ fault. fault ≡ OutOfMemory };

    fn from(_want: Memory) -> RunFault {
        RunFault::Memory
    }
}

impl From<AllocError> for RunFault {
    ghost from_gives = { λ _ fault. fault ≡ OutOfMemory };

    fn from(_want: AllocError) -> RunFault {
        RunFault::Memory
    }
}

impl<T: Drop> From<AllocFailed<T>> for RunFault {
    ghost from_gives = { λ _ fault. fault ≡ OutOfMemory };

    fn from(_want: AllocFailed<T>) -> RunFault {
        RunFault::Memory
    }
}

impl From<io::Error> for RunFault {
    ghost from_gives = { λ error fault. fault ≡ fault_of (error_kind error) };

    fn from(error: io::Error) -> RunFault {
        if error.kind() == ErrorKind::OutOfMemory {
            RunFault::Memory
        } else {
            RunFault::Device
        }
    }
}
