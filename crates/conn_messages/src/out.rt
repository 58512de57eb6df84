// SPDX-License-Identifier: MIT OR Apache-2.0
use ipa_framing::Frame;

/// A frame that is to be sent, with its link and its connection.
#[derive(Drop)]
pub struct Out {
    /// The link that the frame is sent to: 0 for the switch, i for the station of the i-th cell.
    pub to: u16,
    /// The number of the connection that the frame belongs to, or 0 if it belongs to none.
    pub conn: u32,
    pub frame: Frame,
}
