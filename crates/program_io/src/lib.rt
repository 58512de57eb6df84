// SPDX-License-Identifier: MIT OR Apache-2.0
//! Input and output for the commands of the program: reads an input to its end, writes an output,
//! and defines the failures of reading and writing.
#![tactic(auto)]

pub use failure::Failure;
pub use input::{MOST_READS, Sink, Unread, read_all, room_for};
pub use output::{Taken, put, put_at_once, put_joined};
pub use read_count::ReadCount;

mod failure;
mod input;
mod output;
mod read_count;
