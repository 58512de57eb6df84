// SPDX-License-Identifier: MIT OR Apache-2.0
//! `bsc trace`: runs a script, and prints each event, the frames that cross the controller's links,
//! and what becomes of the controller's connections, as lines of text.
#![tactic(auto)]

pub use notes::write_note_text;
pub use run::{Missed, Tally, write_trace};
pub use trace_command::trace;

mod lines;
mod notes;
mod run;
mod trace_command;
mod words;
