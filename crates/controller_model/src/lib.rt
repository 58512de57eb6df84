// SPDX-License-Identifier: MIT OR Apache-2.0
//! The model of the base station controller: what each item and each tick does to the connections,
//! channels and links of a controller. The laws hold for the whole life of a controller, whatever
//! arrives. The definitions are in `specs`.
#![tactic(auto)]

pub use channel_kind::ChannelKind;
pub use channel_state::ChannelState;
pub use forwarded::Forwarded;
pub use laws::{decision_is_one, others_are_left, report_is_read, row_keeps_number};
pub use life_laws::{
    assignments_name_their_mobile, channels_are_owned, channels_are_used, downlink_is_conserved,
    frames_are_read_as_put, frames_go_to_links_that_are_up, messages_are_handed_in_place,
    messages_keep_to_channels, numbers_rise, others_are_left_alone, silence_is_kept,
    steps_are_rows, uplink_is_conserved,
};
pub use limits::{CHANNEL_NUMBERS, MAX_CONNECTION_NUMBER, MAX_IGNORED};
pub use ruled_relay::{Item, What};
pub use step::Step;
pub use word::Word;

mod channel_kind;
mod channel_state;
mod forwarded;
mod laws;
mod life_laws;
mod limits;
mod step;
mod word;
