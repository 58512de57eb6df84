// SPDX-License-Identifier: MIT OR Apache-2.0
//! The settings of the controller, read from a text in TOML: the network, the switch, timers,
//! handover and cells.
#![tactic(auto)]

pub use bsic::Bsic;
pub use cell::Cell;
pub use fault::SettingsFault;
pub use key::Key;
pub use parameters::Settings;
pub use text::Text;

mod bsic;
mod cell;
mod cells;
mod channels;
mod fault;
mod finding;
mod found;
mod key;
mod lookup;
mod network;
mod parameters;
mod repeats;
mod seen;
mod tables;
mod text;
mod timers;
mod unknown;
