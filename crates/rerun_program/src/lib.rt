// SPDX-License-Identifier: MIT OR Apache-2.0
//! `bsc rerun`: the steps of a recorded run are given to the same controller again, and what crosses
//! its links is shown, or where it puts other frames than the record has.
#![tactic(auto)]

pub use plan::{Mode, Plan};
pub use rerun_lines::Choice;
pub use run::{Ending, Run};
pub use stop::Stop;

mod course;
mod part;
mod plan;
mod run;
mod stop;
