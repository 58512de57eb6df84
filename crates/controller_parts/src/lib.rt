// SPDX-License-Identifier: MIT OR Apache-2.0
//! The parts of the controller other than its connections. `read_word` reads what a frame says,
//! with the codecs of the frame's link. `Channels` has the states of the cells' radio channels, and
//! `free_channel` finds a free channel. The definitions are in `controller_model`.
#![tactic(auto)]

pub use channels::Channels;
pub use dtap::is_dtap;
pub use following::handovers_begun;
pub use offer::{free_channel, kind_of};
pub use read::read_word;
pub use views::{forwarded, handed};

mod channels;
mod dtap;
mod following;
mod identifier;
mod offer;
mod read;
mod reports;
mod station;
mod switch;
mod views;
