// SPDX-License-Identifier: MIT OR Apache-2.0
ghost use Rattle.std.specs.Prelude.{◌≡◌};
ghost use Rattle.rerun_steps.specs.Packets.{fault_of};
ghost use Rattle.rerun_steps.specs.declared.packet_fault.PacketFault.TheVariants.{Memory as NoMemory};

use octets::Memory;
use run_record::Fault;
use thiserror::Error;

/// Why the next packet of a record's file isn't read.
#[derive(Clone, Copy, Debug, Error)]
pub enum PacketFault {
    #[error("no record of a run")]
    NoRecord,
    /// The two lengths of a packet differ, or it is longer than any packet of a record.
    #[error("a wrong length")]
    Length,
    /// The first octet of a packet that differs from what a record has there, counted from the
    /// packet's time stamp, from 0.
    #[error("octet {0} isn't as in a record")]
    Octet(usize),
    #[error("out of memory")]
    Memory,
}

impl PacketFault {
    /// What is wrong with a packet.
    pub(crate) fn of(fault: Fault) -> PacketFault
        ensures { result ≡ fault_of fault }
    {
        match fault {
            Fault::Length => PacketFault::Length,
            Fault::Octet(at) => PacketFault::Octet(at),
        }
    }
}

impl From<Memory> for PacketFault {
    ghost from_gives = { λ _ fault. fault ≡ NoMemory };

    fn from(_memory: Memory) -> PacketFault {
        PacketFault::Memory
    }
}
