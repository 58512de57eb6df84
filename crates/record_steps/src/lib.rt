// SPDX-License-Identifier: MIT OR Apache-2.0
//! Reads the steps of the controller from a record of a run, one by one, each step with the frames
//! that it put.
#![tactic(auto)]

pub use laws::{
    steps_are_handed_out, steps_are_read_as_recorded, steps_of_a_cut_record_are_the_first,
};
pub use recorded_step::{PutFrame, RecordedStep};
pub use step_fault::StepFault;
pub use step_reader::{Part, StepReader};

mod laws;
mod recorded_step;
mod step_fault;
mod step_reader;
