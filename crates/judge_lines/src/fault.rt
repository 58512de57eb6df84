// SPDX-License-Identifier: MIT OR Apache-2.0
use octets::Memory;
use thiserror::Error;

/// Why a line is refused.
#[derive(Clone, Copy, Debug, Error)]
pub enum LineFault {
    /// The tabs of the line split it into fewer or more than six columns.
    #[error("not six columns")]
    NotSixColumns,
    /// The end other than the controller is neither the switch nor a station.
    #[error("no end of a link")]
    NoEnd,
    /// The octets of a sent frame aren't one or more pairs of hexadecimal digits.
    #[error("octets that aren't hexadecimal")]
    NotHexadecimal,
    /// The line has more than `MAX_LINE` octets.
    #[error("longer than 1048576 octets")]
    TooLong,
    /// An allocation failed.
    #[error("out of memory")]
    Memory,
}

impl From<Memory> for LineFault {
    ghost use Rattle.std.specs.Prelude.{◌≡◌};
    ghost use Rattle.judge_lines.specs.declared.fault.LineFault.TheVariants as faults;

    ghost from_gives = { λ _ fault. fault ≡ faults.Memory };

    fn from(_memory: Memory) -> LineFault {
        LineFault::Memory
    }
}
