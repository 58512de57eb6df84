// SPDX-License-Identifier: MIT OR Apache-2.0
ghost use Rattle.std.specs.Prelude.{◌≡◌};
ghost use Rattle.program_base.specs.WordStatus.{IsNoTaskOf, answer_to, task_fault};
ghost use Rattle.program_base.specs.declared.no_task.NoTask.TheVariants.{Memory as NoMemory};

use crate::words::TaskFault;
use clap::Error;
use clap::error::ErrorKind;
use std::alloc::AllocError;

/// Why `clap` finds neither a task nor a tool in the words.
#[derive(Drop)]
pub(crate) enum NoTask {
    /// `clap` refuses the words with this error.
    Refused(Error),
    Memory,
}

impl NoTask {
    /// The fault that the program reports for this reason.
    pub(crate) fn fault(&self) -> TaskFault
        ensures { result ≡ task_fault self.now }
    {
        match self {
            NoTask::Refused(_) => TaskFault::Words,
            NoTask::Memory => TaskFault::Memory,
        }
    }
}

/// Returns what was found, or the program's fault: `Words` exactly if `clap` refused the words,
/// else `Memory`.
pub(crate) fn answered<T>(found: Result<T, NoTask>) -> Result<T, TaskFault>
    ensures { result ≡ answer_to found }
{
    match found {
        Ok(found) => Ok(found),
        Err(none) => Err(none.fault()),
    }
}

impl From<Error> for NoTask {
    ghost from_gives = { λ error none. IsNoTaskOf error none };

    fn from(error: Error) -> NoTask {
        match error.kind() {
            ErrorKind::OutOfMemory => NoTask::Memory,
            _ => NoTask::Refused(error),
        }
    }
}

impl From<AllocError> for NoTask {
    ghost from_gives = { λ _ fault. fault ≡ NoMemory };

    fn from(_error: AllocError) -> NoTask {
        NoTask::Memory
    }
}
