// SPDX-License-Identifier: MIT OR Apache-2.0
//! The world around the controller, as one state machine. Each event is one step of one actor. The
//! messages of the flow that the switch accepts on a connection are a prefix of those that the
//! connection's mobile sent.
#![tactic(auto)]

pub use laws::{keeps_order, queues_keep_order};
pub use of_octets::{are_of_octets, is_of_octets};
pub use world::World;
pub use world_model::{Event, SwitchAction};

mod fixed;
mod laws;
mod of_octets;
mod passing;
mod world;
