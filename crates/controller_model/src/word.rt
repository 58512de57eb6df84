// SPDX-License-Identifier: MIT OR Apache-2.0
use conn_messages::Place;
use conn_rules::Input;
use dtap_codec::Report;
use rsl_codec::RequestReference;

/// The word of a frame: what the frame says to the controller.
#[derive(Drop)]
pub enum Word {
    /// The controller ignores the frame.
    Nothing,
    /// PING: the other end asks whether this end is alive.
    Ping,
    /// CHANNEL REQUIRED: a mobile requests a channel, with this request reference and this access
    /// delay.
    Asks(RequestReference, u8),
    /// An input to the connection that has the channel at this place.
    OnChannel(Place, Input),
    /// A valid MEASUREMENT REPORT of the mobile on the channel at this place, with the number of
    /// the MEASUREMENT RESULT.
    Reports(Place, u8, Report),
    /// An input to the connection with this number.
    OnConnection(u32, Input),
}
