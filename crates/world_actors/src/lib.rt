// SPDX-License-Identifier: MIT OR Apache-2.0
//! The world with a controller: mobiles, base stations, the switch, and the controller with its
//! queues. The queues are an inbox, and an outbox for each link. The contracts say that this world
//! behaves as the world that `world_model` defines.
#![tactic(auto)]

pub use network::{Network, modulus_of};

mod access;
mod air;
mod base_takes;
mod changes;
mod departure;
mod entries;
mod handling;
mod items;
mod link;
mod links;
mod network;
mod queues;
mod relay;
mod seen;
mod step;
mod uplink;
mod upper_layers;
mod views;
mod waiting;
