// SPDX-License-Identifier: MIT OR Apache-2.0
use ruled_relay::Item;

/// A step of the controller: one item, or time that passes.
#[derive(Drop)]
pub enum Step {
    /// An item that arrived on a link.
    Take(Item),
    /// This many milliseconds passed.
    Tick(u32),
}
