// SPDX-License-Identifier: MIT OR Apache-2.0
//! The actors of a world with a controller, apart from the controller: base stations, with their
//! channels, tenures and messages for the controller; mobiles, with their seats and the messages
//! that they received; and the switch. The definitions are in `world_model`.
#![tactic(auto)]

pub use activations::activated_in;
pub use frame::rsl_in;
pub use mobile_station::MobileStation;
pub use mobiles::Mobiles;
pub use stations::Stations;
pub use switch::Switch;

mod activations;
mod base_station;
mod elements;
mod frame;
mod frames;
mod mobile_changes;
mod mobile_station;
mod mobiles;
mod radio_channel;
mod stations;
mod switch;
mod switch_frame;
mod tenures;
