// SPDX-License-Identifier: MIT OR Apache-2.0
use ipa_framing::Frame;

/// An end of a link of the controller.
#[derive(Clone, Copy)]
pub enum End {
    Switch,
    /// The base station of the cell with this number, from 1.
    Station(u16),
    Controller,
}

/// A frame that was put on a link, with its time. `from` or `to` is the controller.
#[derive(Drop)]
pub struct LinkFrame {
    /// The time at which the frame was put on the link, in milliseconds since time 0 of the
    /// capture.
    pub ms: u64,
    pub from: End,
    pub to: End,
    pub frame: Frame,
}
