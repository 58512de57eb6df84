// SPDX-License-Identifier: MIT OR Apache-2.0
use conn_messages::{Change, Place};

/// A tenure of a channel: the time from an activation of the channel to its next release.
#[derive(Clone, Copy)]
pub struct Tenure {
    pub at: Place,
    /// How often the channel was activated, this tenure's activation included.
    pub number: u64,
}

/// A command to change the channel, given to a mobile by an ASSIGNMENT COMMAND or a HANDOVER
/// COMMAND.
#[derive(Clone, Copy)]
pub struct Command {
    pub change: Change,
    pub target: Tenure,
}

/// Where a mobile is.
#[derive(Clone, Copy)]
pub enum Seat {
    /// The mobile asked for a channel and has none yet.
    Asking,
    /// The mobile is on a channel. `command` is the last command that it took there, if any.
    On {
        tenure: Tenure,
        command: Option<Command>,
    },
    /// The mobile left the channel of `from` on `command` and hasn't arrived on a channel yet.
    Moving {
        from: Tenure,
        command: Command,
    },
    /// The mobile took a CHANNEL RELEASE and is on no channel.
    Gone,
}
