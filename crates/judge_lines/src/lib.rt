// SPDX-License-Identifier: MIT OR Apache-2.0
//! Lines of frames, as a trace and tools for captures print them. `FrameLines` takes octets in
//! pieces of any size and splits them into lines; `read_frame_line` reads the frame of a line.
#![tactic(auto)]

pub use fault::LineFault;
pub use line::{Line, LinkFrame, MAX_LINE, read_frame_line};
pub use lines::FrameLines;

mod body;
mod columns;
mod ends;
mod fault;
mod line;
mod lines;
mod number;
mod report;
