// SPDX-License-Identifier: MIT OR Apache-2.0
//! Queues for the messages of a connection that wait while its channel changes. A `Hold` has one
//! queue for each SAPI. A `Chain` is for a connection whose channel changes more than once; the
//! chain has one queue for each channel and SAPI.
#![tactic(auto)]

pub use chain::{Chain, TENURE_LIMIT};
pub use fault::HoldFault;
pub use hold::Hold;

mod chain;
mod fault;
mod hold;
mod queues;
