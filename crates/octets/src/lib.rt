// SPDX-License-Identifier: MIT OR Apache-2.0
//! The base of every crate of the relay: the octets of a message, the information elements in these
//! octets, and the error of calls that can fail only by allocation failure.
#![tactic(auto)]

pub use limits::{INITIAL_LIMIT, LENGTH_LIMIT, MESSAGE_LIMIT};
pub use memory::Memory;
pub use octets::Octets;

pub mod element;
pub mod front;
mod limits;
mod memory;
mod octets;
pub mod text;
