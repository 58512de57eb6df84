// SPDX-License-Identifier: MIT OR Apache-2.0
ghost use Rattle.std.specs.Prelude.{◌≡◌};
ghost use Rattle.std.specs.IoError.{error_kind};
ghost use Rattle.program_io.specs.Status.{failure_of};
ghost use Rattle.judge_program.specs.Stopping.{status_of_stop, stop_of, stop_unread};
ghost use Rattle.judge_program.specs.declared.stop.Stop.TheVariants.{Failed};

use judge_lines::LineFault;
use octets::Memory;
use program_io::{Failure, Unread};
use std::io;
use thiserror::Error;

/// Why not all lines are judged.
#[derive(Clone, Copy, Debug, Error)]
pub enum Stop {
    /// The line with this number, from 1, is bad.
    #[error("line {number}: {fault}")]
    BadLine { number: u64, fault: LineFault },
    #[error("{0}")]
    Failed(Failure),
}

impl Stop {
    /// The stop for a fault in the line with this number. An allocation failure isn't a fault of
    /// the line.
    pub(crate) fn at_line(number: u64, fault: LineFault) -> Stop
        ensures { result ≡ stop_of number fault }
    {
        match fault {
            LineFault::Memory => Stop::Failed(Failure::Memory),
            fault => Stop::BadLine { number, fault },
        }
    }

    /// The exit status: 2 for a bad line, 3 for a failure.
    pub(crate) fn status(self) -> u8
        ensures { result ≡ status_of_stop self }
    {
        match self {
            Stop::BadLine { .. } => 2,
            Stop::Failed(_) => 3,
        }
    }
}

impl From<io::Error> for Stop {
    ghost from_gives = { λ error stop. stop ≡ Failed (failure_of (error_kind error)) };

    fn from(error: io::Error) -> Stop {
        Stop::Failed(Failure::from(error))
    }
}

impl From<Memory> for Stop {
    ghost use Rattle.program_io.specs.declared.failure.Failure.TheVariants.{Memory as NoMemory};

    ghost from_gives = { λ _ stop. stop ≡ Failed NoMemory };

    fn from(_memory: Memory) -> Stop {
        Stop::Failed(Failure::Memory)
    }
}

impl From<Failure> for Stop {
    ghost from_gives = { λ failure stop. stop ≡ Failed failure };

    fn from(failure: Failure) -> Stop {
        Stop::Failed(failure)
    }
}

impl From<Unread<Stop>> for Stop {
    ghost from_gives = { λ unread stop. stop ≡ stop_unread unread };

    fn from(unread: Unread<Stop>) -> Stop {
        match unread {
            Unread::Endless(_) => Stop::Failed(Failure::Device),
            Unread::Device(error) => Stop::from(error),
            Unread::Refused(stop) => stop,
        }
    }
}
