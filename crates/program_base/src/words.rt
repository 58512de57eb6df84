// SPDX-License-Identifier: MIT OR Apache-2.0
ghost use Rattle.std.specs.Prelude.{◌≡◌};
ghost use Rattle.program_base.specs.WordStatus.{status_of_words};
ghost use Rattle.program_base.specs.declared.words.TaskFault.TheVariants.{Memory as OutOfMemory};

use std::alloc::AllocError;
use thiserror::Error;

/// What the program is asked to do.
#[derive(Drop)]
pub enum Task {
    /// `run --config FILE`: to relay between the switch and the base stations. Holds FILE, the path
    /// of the settings.
    Run(String),
    /// `replay [--config FILE] [--break N]`: to replay a script. Holds FILE and N as they were
    /// given.
    Replay(Option<String>, Option<String>),
    /// `decode`: to name the frames of a stream.
    Decode,
}

/// What the program is asked to show.
#[derive(Drop)]
pub enum Tool {
    /// `trace --config FILE [--strict] [--chart[=FORM]] [--capture FILE]`: to show the frames that
    /// cross the links at each event of a script.
    Trace {
        /// The path of the settings.
        settings: String,
        /// Whether the program ends with status 4 if an event isn't taken.
        strict: bool,
        /// The form of the chart as it was given; this form isn't checked here. `None` asks for
        /// lines in place of a chart.
        chart: Option<String>,
        /// The path of the capture to write, if one is asked for.
        capture: Option<String>,
    },
    /// `judge [--settings FILE] [--strict] [--tap]`: to judge by the frames on a controller's links
    /// whether it kept messages in order.
    Judge {
        /// The path of the settings, if given. The settings say how many sequence numbers messages
        /// have, and name the cells.
        settings: Option<String>,
        /// Whether a connection that isn't judged to its end counts as not in order.
        strict: bool,
        /// Whether to print a test point for each connection, in the Test Anything Protocol (TAP).
        tap: bool,
    },
    /// `decode --long`: to name the frames of a stream, and print the fields and octets of each.
    DecodeLong,
}

/// What the words after the program's name ask for.
#[derive(Drop)]
pub enum Asked {
    Task(Task),
    Tool(Tool),
    /// The version of the program.
    Version,
}

/// Why the words give neither a task nor a tool.
#[derive(Clone, Copy, Debug, Error)]
pub enum TaskFault {
    /// The words are no command of the program, or ask for help.
    #[error("these words are no command")]
    Words,
    #[error("out of memory")]
    Memory,
}

impl TaskFault {
    /// The status that the program ends with: 2 for `Words`, 3 for `Memory`.
    pub fn status(&self) -> u8
        ensures { result ≡ status_of_words self.now }
    {
        match self {
            TaskFault::Words => 2,
            TaskFault::Memory => 3,
        }
    }
}

impl From<AllocError> for TaskFault {
    ghost from_gives = { λ _ fault. fault ≡ OutOfMemory };

    fn from(_error: AllocError) -> TaskFault {
        TaskFault::Memory
    }
}
