// SPDX-License-Identifier: MIT OR Apache-2.0
/// A kind of dedicated channel (TS 48.058 clause 9.3.1).
#[derive(Clone, Copy)]
pub enum ChannelKind {
    /// SDCCH/4 or SDCCH/8, for signalling. The access of a mobile begins on such a channel.
    Sdcch,
    /// TCH/F or TCH/H, for speech.
    Tch,
}
