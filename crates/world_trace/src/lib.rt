// SPDX-License-Identifier: MIT OR Apache-2.0
//! The trace of a world, event by event. It has the frames that cross the controller's links or are
//! made for the controller, the fate of each message that the switch takes, what becomes of the
//! controller's connections, and why an event isn't taken.
#![tactic(auto)]

pub use cause::Cause;
pub use crossing::{Crossing, End, Passage};
pub use event_trace::{EventTrace, step};
pub use fate::Fate;
pub use made::SOURCE_LIMIT;
pub use tracing::Tracing;

mod cause;
mod crossing;
mod event_trace;
mod expiry;
mod fate;
mod got;
mod made;
mod puts;
mod sent;
mod sight;
mod tracing;
mod turn;
