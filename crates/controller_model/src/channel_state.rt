// SPDX-License-Identifier: MIT OR Apache-2.0
/// The state of a channel.
#[derive(Clone, Copy)]
pub enum ChannelState {
    Free,
    /// In use by the connection with this number.
    InUse(u32),
    /// Between RF CHANNEL RELEASE and the acknowledgement of that release (TS 48.058 clause 4.7).
    /// The connection with this number used the channel; messages for this connection may still
    /// arrive on the channel.
    Releasing(u32),
}
