// SPDX-License-Identifier: MIT OR Apache-2.0
//! The state table of a connection: its states, its inputs, and the row for an input in a state. A
//! row consists of the messages that are put and the connection afterwards. The rows are defined in
//! `specs`.
#![tactic(auto)]

pub use input::Input;
pub use laws::{
    changing_is_silent, channels_are_kept, closing_is_final, downlink_is_kept, invariant_is_kept,
    messages_go_to_own_channels, roles_change,
};
pub use limits::{DOWN_LIMIT, DRAIN_LIMIT, UP_LIMIT};
pub use state::{Clearing, Drain, ShortMessageLink, Stage, State, Target};
pub use uplink_law::uplink_is_kept;

mod input;
mod laws;
mod limits;
mod state;
mod uplink_law;
