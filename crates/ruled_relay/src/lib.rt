// SPDX-License-Identifier: MIT OR Apache-2.0
//! The queues between the threads of the running relay. An inbox has a queue for each link that is
//! read; each link that is written has an outbox.
//!
//! The rule of each queue: the items put are the items taken, in order, followed by the items that
//! the queue still holds.
#![tactic(auto)]

pub use inbox::{Desk, Inbox, Left, PutFault, SourcePass, all_that_is_left_is_given};
pub use item::{Item, What};
pub use outbox::{Full, Line, Outbox, Putter, Taker, Unsent, refusals_are_those_of_all_puts};

mod bell;
mod end;
mod inbox;
mod item;
mod outbox;
mod row;
mod rule;
mod sources;
