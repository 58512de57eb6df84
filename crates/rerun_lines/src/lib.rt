// SPDX-License-Identifier: MIT OR Apache-2.0
//! The lines of a step that a controller did again: the frame that it took, those that it put, and
//! what became of its connections. They have the columns of a trace, with the time of day. Where
//! other frames were put than a record has, a line says so.
#![tactic(auto)]

pub use choice::Choice;
pub use difference_line::put_difference;
pub use mark::Mark;
pub use step_lines::{View, put_step};

mod choice;
mod clock;
mod difference_line;
mod ends;
mod frame_line;
mod mark;
mod note_line;
mod pieces;
mod step_lines;
