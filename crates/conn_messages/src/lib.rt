// SPDX-License-Identifier: MIT OR Apache-2.0
//! The messages that a connection of the base station controller sends: their types, the functions
//! that build them, and the frames that carry them.
#![tactic(auto)]

pub use channel::{CELL_IDENTIFIER_LENGTH, Change, Channel, Place};
pub use laws::{message_fits_its_frame, message_is_read};
pub use message::Message;
pub use messages::Messages;
pub use out::Out;
pub use outputs::Outputs;
pub use parameters::SWITCH_LINK;
pub use uses::{ChannelUse, channel_use};

pub mod causes;
mod channel;
mod framing;
mod laws;
mod message;
mod messages;
mod out;
mod outputs;
mod parameters;
pub mod station_message;
pub mod switch_message;
mod uses;
