// SPDX-License-Identifier: MIT OR Apache-2.0
ghost use Rattle.std.specs.Prelude.{◌≡◌};
ghost use Rattle.program_base.specs.FaultStatus.{status_of_fault};
ghost use Rattle.program_base.specs.declared.fault.ProgramFault.TheVariants.{Failed};

use program_io::Failure;
use settings::SettingsFault;
use thiserror::Error;

/// Why the program ends with a status above 0. The text of the fault is written to standard error
/// after `bsc: `.
#[derive(Debug, Drop, Error)]
pub enum ProgramFault {
    /// The file of the settings can't be read, or isn't UTF-8.
    #[error("settings: cannot read")]
    UnreadSettings,
    /// The settings have this fault. An allocation failure is `Failed` instead.
    #[error("settings: {0}")]
    Settings(SettingsFault),
    /// `--break` is given without settings, or its value isn't the number of a source, from 0 to
    /// the number of cells.
    #[error("--break wants --config, and a number from 0 to that of the cells")]
    BadBreak,
    /// The command failed: a bad line of a script, an allocation failure or a failed device.
    #[error("{0}")]
    Failed(Failure),
}

impl ProgramFault {
    /// The status that the program ends with: 1 for settings, 2 for `BadBreak`, and the failure's
    /// own status for `Failed`.
    pub fn status(&self) -> u8
        ensures { result ≡ status_of_fault self.now }
    {
        match self {
            ProgramFault::UnreadSettings | ProgramFault::Settings(_) => 1,
            ProgramFault::BadBreak => 2,
            ProgramFault::Failed(failure) => failure.status(),
        }
    }
}

impl From<Failure> for ProgramFault {
    ghost from_gives = { λ failure fault. fault ≡ Failed failure };

    fn from(failure: Failure) -> ProgramFault {
        ProgramFault::Failed(failure)
    }
}
