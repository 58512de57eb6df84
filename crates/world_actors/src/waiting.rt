// SPDX-License-Identifier: MIT OR Apache-2.0
ghost use Rattle.std.specs.Prelude.{◌≡◌, drop, length, option_map};
ghost use Rattle.world_model.specs.Lists.{first_in};
ghost use Rattle.world_model.specs.World.{outbox_of};

use crate::Network;
use ruled_relay::Item;
use world_model::OutboxEntry;

/// Views of the controller's queues. Link 0 is the switch's, link 1 that of station 1, and so on. A
/// link that doesn't exist has an empty outbox.
impl Network {
    /// How many links the controller has.
    pub fn link_count(&self) -> usize
        ensures { result ≡ length self.now.links }
    {
        self.relay.link_count()
    }

    /// How many frames wait in the outbox of a link.
    pub fn outbox_len(&self, link: usize) -> usize
        ensures { result ≡ length (outbox_of self.now link) }
    {
        self.relay.waiting(link)
    }

    /// The entry at a place of the outbox of `link`, counted from 0. `None` if the outbox has no
    /// such entry.
    pub fn outbox_entry(&self, link: usize, place: usize) -> Option<&OutboxEntry>
        ensures { option_map (λ e. e.now) result ≡ first_in (drop place (outbox_of self.now link)) }
    {
        self.relay.entry(link, place)
    }

    /// How many items wait in the inbox.
    pub fn inbox_len(&self) -> usize
        ensures { result ≡ length self.now.inbox }
    {
        self.relay.inbox_len()
    }

    /// The item at a place of the inbox, counted from 0. `None` if the inbox has no such item.
    pub fn inbox_item(&self, place: usize) -> Option<&Item>
        ensures { option_map (λ i. i.now) result ≡ first_in (drop place self.now.inbox) }
    {
        self.relay.item(place)
    }
}
