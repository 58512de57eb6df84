// SPDX-License-Identifier: MIT OR Apache-2.0
//! Notes on the connections of a controller at a step: changes of phase, timers that expire, and
//! messages that are held, relayed or dropped.
#![tactic(auto)]

pub use expiry::{note_expired, note_timer, timer_by};
pub use note::{Holding, Note, Puts, Timer, Way, note_steps, puts_of};
pub use sight::{Phase, Sight, sight_of, sights};

mod expiry;
mod note;
mod note_text;
mod sight;
