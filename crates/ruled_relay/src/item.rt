// SPDX-License-Identifier: MIT OR Apache-2.0
//! The items that the links of the relay hand to the controller.
#![tactic(auto)]

use ipa_framing::Frame;

/// What a link handed over.
#[derive(Drop)]
pub enum What {
    /// A frame that was read.
    Frame(Frame),
    /// The end of the link's items: the link was closed, broke, or was given up.
    Down,
}

/// What a link handed over, and the link's number.
#[derive(Drop)]
pub struct Item {
    /// The link's number: 0 for the switch, 1 for the station of the first cell, and so on in the
    /// order of the cells in the settings.
    pub source: u16,
    /// What the link handed over.
    pub what: What,
}
