// SPDX-License-Identifier: MIT OR Apache-2.0
//! Writes a record of a relay's run: each step of the controller, in order. The controller's thread
//! only encodes the steps; another thread writes the files.
#![tactic(auto)]

pub use keeper::{RecordFault, RecordKeeper, start};
pub use plan::RecordPlan;
pub use recorder::Recorder;
pub use step_writer::{StepWriter, Unrecorded};

mod chunk;
mod chunk_link;
mod head;
mod keeper;
mod plan;
mod record_files;
mod recorder;
mod stamps;
mod step_writer;
mod telling;
