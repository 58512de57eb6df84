// SPDX-License-Identifier: MIT OR Apache-2.0
//! The controller of base stations. It handles connections between stations and the switch, on the
//! channels of its cells. It takes the items of its links and the passing of time, and puts frames.
//! Its contracts say that it does what the model in `controller_model` does.
#![tactic(auto)]

pub use conn_messages::{Out, Outputs};
pub use controller::Controller;
pub use controller_model::{Forwarded, Item, Step, What};
pub use controller_parts::{forwarded, handed};
pub use life::{lives_keep_laws, run};
pub use of_octets::{arrive_in_octets, arrives_in_octets};
pub use settings::{Settings, SettingsFault};

mod access;
mod breaks;
mod channels;
mod controller;
mod items;
mod life;
mod many;
mod of_octets;
mod offers;
mod reports;
mod rest;
mod row;
mod time;
mod views;
