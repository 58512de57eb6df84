// SPDX-License-Identifier: MIT OR Apache-2.0
use world_model::{Command, Tenure};

/// A mobile's change to another channel.
#[derive(Clone, Copy)]
pub(crate) struct Departure {
    /// The tenure that the mobile left, or may leave.
    pub from: Tenure,
    /// The command that the mobile got.
    pub command: Command,
}
