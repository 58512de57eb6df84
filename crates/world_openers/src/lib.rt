// SPDX-License-Identifier: MIT OR Apache-2.0
//! Definitions and laws about the first message of a connection: the messages that the switch took
//! on a connection begin with the message with which the connection's mobile connected, even if it
//! is a PAGING RESPONSE, which has no number. They follow this message from the `Connect` of the
//! mobile through the radio link, the channel and the controller's connection request to the
//! switch.
#![tactic(auto)]

pub use laws::{mobiles_connect_once, openers_message_is_first};

mod laws;
