// SPDX-License-Identifier: MIT OR Apache-2.0
/// A link of the controller.
#[derive(Drop)]
pub struct Link<I, O, G> {
    /// The device from which the link's octets are read.
    pub reader: I,
    /// The device to which the octets of the link's frames are written.
    pub writer: O,
    /// Decides whether the link's reader may put the next item into the inbox.
    pub gate: G,
}
