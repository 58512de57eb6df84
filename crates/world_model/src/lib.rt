// SPDX-License-Identifier: MIT OR Apache-2.0
//! A model of the whole network, event by event: mobiles, base stations, the controller with its
//! queues, and the switch. The definitions are in `specs`.
#![tactic(auto)]

pub use event::{Event, SwitchAction};
pub use laws::{
    channels_are_pipes, complete_is_first, controller_lives_by_its_table,
    mobiles_keep_to_their_tenures, mobiles_live_by_their_ends, mobiles_repeat_at_most_one,
    queues_keep_order, stations_are_honest, stations_are_read,
};
pub use limits::{MAX_NOT_TAKEN, MAX_TENURE, TIMER_EXPIRED};
pub use line::{AirMessage, OutboxEntry};
pub use seat::{Command, Seat, Tenure};

mod event;
mod laws;
mod limits;
mod line;
mod seat;
