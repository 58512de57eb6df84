// SPDX-License-Identifier: MIT OR Apache-2.0
//! The workers at a link's device: a reader puts received frames into the inbox, and a writer
//! writes the frames of the link's outbox. `switch_worker` is a switch for tests at the other end
//! of a link.
#![tactic(auto)]

pub use fault::IoFault;
pub use gate::Gate;
pub use link_reader::LinkReader;
pub use pauses::Pauses;
pub use reader::{HasRead, frames_put_are_the_first, serve_link_reader, serve_reader};
pub use switch::{HasAnswered, switch_worker};
pub use writer::{HasWritten, serve_writer};

mod fault;
mod framing;
mod gate;
mod gated_pass;
mod link_reader;
mod link_reads;
mod pauses;
mod reader;
mod switch;
mod unread;
mod writer;
mod writing;
