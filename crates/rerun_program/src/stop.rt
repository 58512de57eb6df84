// SPDX-License-Identifier: MIT OR Apache-2.0
ghost use Rattle.std.specs.Prelude.{◌≡◌};
ghost use Rattle.std.specs.IoError.{error_kind};
ghost use Rattle.program_io.specs.Status.{failure_of};
ghost use Rattle.rerun_program.specs.Stopping.{status_of_stop, stop_by_packet, stop_by_step};
ghost use Rattle.rerun_program.specs.Stopping.{stop_unread};
ghost use Rattle.rerun_program.specs.declared.stop.Stop.TheVariants.{Failed};

use octets::Memory;
use program_io::{Failure, Unread};
use record_steps::StepFault;
use rerun_steps::PacketFault;
use std::io;
use thiserror::Error;

/// Why a run isn't done again to its end.
#[derive(Clone, Copy, Debug, Error)]
pub enum Stop {
    /// The packet with this number, from 1, can't be read.
    #[error("packet {number}: {fault}")]
    BadPacket { number: u64, fault: PacketFault },
    /// The packet with this number belongs to no step.
    #[error("packet {number}: {fault}")]
    BadStep { number: u64, fault: StepFault },
    /// The head of a file doesn't say that it is this part of a run.
    #[error("its head isn't that of part {0} of a run")]
    NoPart(u64),
    /// The part before was cut, or ended while the run went on.
    #[error("the part before it isn't whole")]
    Behind,
    /// The head has no settings that can be read.
    #[error("its head has no settings that can be read")]
    Settings,
    /// The controller put other frames than the record has.
    #[error("the controller puts other frames than the record has")]
    Differs,
    #[error("{0}")]
    Failed(Failure),
}

impl Stop {
    /// The packet with this number can't be read.
    pub(crate) fn by_packet(number: u64, fault: PacketFault) -> Stop
        ensures { result ≡ stop_by_packet number fault }
    {
        match fault {
            PacketFault::Memory => Stop::Failed(Failure::Memory),
            fault => Stop::BadPacket { number, fault },
        }
    }

    /// The packet with this number belongs to no step.
    pub(crate) fn by_step(number: u64, fault: StepFault) -> Stop
        ensures { result ≡ stop_by_step number fault }
    {
        match fault {
            StepFault::Memory => Stop::Failed(Failure::Memory),
            fault => Stop::BadStep { number, fault },
        }
    }

    /// The status that the program ends with.
    pub fn status(self) -> u8
        ensures { result ≡ status_of_stop self }
    {
        match self {
            Stop::Failed(_) => 3,
            Stop::Differs => 5,
            _ => 2,
        }
    }
}

impl From<io::Error> for Stop {
    ghost from_gives = { λ error stop. stop ≡ Failed (failure_of (error_kind error)) };

    fn from(error: io::Error) -> Stop {
        Stop::Failed(Failure::from(error))
    }
}

impl From<Memory> for Stop {
    ghost use Rattle.program_io.specs.declared.failure.Failure.TheVariants.{Memory as NoMemory};

    ghost from_gives = { λ _ stop. stop ≡ Failed NoMemory };

    fn from(_memory: Memory) -> Stop {
        Stop::Failed(Failure::Memory)
    }
}

impl From<Failure> for Stop {
    ghost from_gives = { λ failure stop. stop ≡ Failed failure };

    fn from(failure: Failure) -> Stop {
        Stop::Failed(failure)
    }
}

impl From<Unread<Stop>> for Stop {
    ghost from_gives = { λ unread stop. stop ≡ stop_unread unread };

    fn from(unread: Unread<Stop>) -> Stop {
        match unread {
            Unread::Endless(_) => Stop::Failed(Failure::Device),
            Unread::Device(error) => Stop::from(error),
            Unread::Refused(stop) => stop,
        }
    }
}
