// SPDX-License-Identifier: MIT OR Apache-2.0
//! Laws of the world with a controller, and of the line-up of one connection in this world. The
//! line-up says where each message that a mobile sent is, from the radio link over the mobile's
//! channels and the controller to the switch, in the order of the messages' places. Whatever events
//! happen, the switch accepts the mobile's messages once and in order. The crate holds only
//! definitions and laws, by subject. `LineUp` is about one connection, without a controller or a
//! world. `Channels` is about what is on its way on channels, and `Owners` about the mobile that
//! owns a channel or a connection. `Targets` is about changes of channel, and `References` about
//! the references by which the switch and the controller name connections. `Access` is about how a
//! connection begins, and `Handling` about how a connection continues or ends when the controller
//! takes a step. `Order` joins these subjects over whole runs.
#![tactic(auto)]

pub use access_laws::{
    coming_connections_come, connections_begin_for_their_mobile, opened_connections_remain_opened,
    others_keep_coming,
};
pub use channel_laws::{
    acknowledgements_agree, begun_channels_are_taken, established_channels_are_active,
    free_channels_are_silent, old_channels_end, served_channels_are_active,
};
pub use handling_laws::live_connections_continue;
pub use laws::{
    acknowledgements_begin, acknowledgements_show_the_end, allowed_frames_keep_line_ups,
    connections_are_valid, due_follows_orders, ended_connections_remain_in_order,
    flow_arrives_on_sapi_zero, frames_are_for_others, frames_are_handled, frames_are_put_as_read,
    frames_keep_line_ups, handle_keeps_line_ups, inputs_keep_line_ups, line_ups_are_in_order,
    messages_are_whole, mobiles_keep_line_ups, opening_lines_up, orders_take_turns,
    relay_leaves_others, rows_keep_line_ups, station_breaks_keep_line_ups, stations_keep_line_ups,
    stations_refuse_nothing, switch_keeps_line_ups, tenures_are_mobiles,
};
pub use line_up_laws::{
    breaks_keep_line_up, changes_keep_line_up, ended_line_up_remains_in_order, line_up_begins,
    line_up_is_accepted_in_order, mobile_keeps_line_up, relaying_keeps_line_up,
};
pub use order_laws::{
    channel_of_a_coming_one_is_quiet_down, connections_begin, connections_begin_coming,
    cut_numbers_remain_cut, each_number_is_somewhere, fair_frames_are_put, octets_arrive,
    runs_are_in_order, stations_give_octets, switch_is_of_modulus, targets_are_fresh,
    unanswered_mobiles_ask,
};
pub use owner_laws::{
    connections_are_alone, connections_are_one_each, frames_arrive_before_their_down,
    links_of_channels_are_up,
};
pub use reference_laws::{
    dropped_are_unheard, names_agree, over_puts_no_more, peers_differ, switch_delivers_or_refuses,
    unasked_are_unheard_of, unknown_remain_unknown,
};
pub use target_laws::{free_channels_are_quiet, targets_remain_fresh};

mod access_laws;
mod channel_laws;
mod handling_laws;
mod laws;
mod line_up_laws;
mod order_laws;
mod owner_laws;
mod reference_laws;
mod target_laws;
