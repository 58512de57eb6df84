// SPDX-License-Identifier: MIT OR Apache-2.0
//! The command `replay` of the program `bsc`, over any reader and writers. The crate also
//! re-exports `decode` and the settings' reader of `program_base`.
#![tactic(auto)]

pub use laws::{lines_are_of_octets, scripts_run_in_order};
pub use program_base::{ProgramFault, decode, read_settings};
pub use program_io::Failure;
pub use replay_command::replay;

mod breaks;
mod laws;
mod replay_command;
mod report;
