// SPDX-License-Identifier: MIT OR Apache-2.0
//! The call worker of the running relay. The worker takes the items of the links, one at a time,
//! and the passing of time, does the controller's steps, and puts the outputs of these steps into
//! the outboxes.
#![tactic(auto)]

pub use call::{HasRelayed, call_worker};
pub use clock::Clock;
pub use limits::{MAX_REFUSALS, TICK_MS};
pub use mark::Marks;

mod call;
mod clock;
mod ending;
mod limits;
mod mark;
mod sending;
mod showing;
mod slow;
mod stepping;
mod taking;
mod waiting;
mod worker;
