// SPDX-License-Identifier: MIT OR Apache-2.0
use bssmap_codec::InterfaceFault;
use ipa_framing::FrameFault as FramingFault;
use octets::Memory;
use thiserror::Error;

/// Why a link or a worker of the relay stopped early.
#[derive(Clone, Copy, Debug, Error)]
pub enum IoFault {
    /// A read of the device failed, or 2^40 reads didn't reach the end of the octets.
    #[error("the read failed")]
    ReadFailed,
    /// A write or a flush of the device failed, or a write took no octet.
    #[error("the write failed")]
    WriteFailed,
    /// A frame has a body of more than 2,048 octets, or a reply of the test switch can't be
    /// written.
    #[error("a frame is too long")]
    FrameFault,
    /// An allocation failed.
    #[error("out of memory")]
    Memory,
    /// The gate refused one item as often as the limit of refusals allows.
    #[error("the gate stayed shut")]
    GateShut,
    /// The link's outbox was full 1,000 times in a row and was given up.
    #[error("the outbox stayed full")]
    GivenUp,
}

impl From<Memory> for IoFault {
    ghost use Rattle.std.specs.Prelude.{◌≡◌};
    ghost use Rattle.link_workers.specs.declared.fault.IoFault.TheVariants as faults;

    ghost from_gives = { λ _ fault. fault ≡ faults.Memory };

    fn from(_memory: Memory) -> IoFault {
        IoFault::Memory
    }
}

impl From<FramingFault> for IoFault {
    ghost use Rattle.std.specs.Prelude.{◌≡◌};
    ghost use Rattle.link_workers.specs.Faults.{fault_of_frame};

    ghost from_gives = { λ framing fault. fault ≡ fault_of_frame framing };

    fn from(fault: FramingFault) -> IoFault {
        match fault {
            FramingFault::TooLong => IoFault::FrameFault,
            FramingFault::Memory => IoFault::Memory,
        }
    }
}

impl From<InterfaceFault> for IoFault {
    ghost use Rattle.std.specs.Prelude.{◌≡◌};
    ghost use Rattle.link_workers.specs.Faults.{fault_of_reply};

    ghost from_gives = { λ interface fault. fault ≡ fault_of_reply interface };

    fn from(fault: InterfaceFault) -> IoFault {
        match fault {
            InterfaceFault::Memory => IoFault::Memory,
            _ => IoFault::FrameFault,
        }
    }
}
