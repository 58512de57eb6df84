// SPDX-License-Identifier: MIT OR Apache-2.0
ghost use Rattle.std.specs.Prelude.{◌≡◌, IfOk, length, option_map, slice_get};
ghost use Rattle.std.specs.Option.{option_and_then};
ghost use Rattle.conn_rules.specs.Timers.{after_pass};
ghost use Rattle.controller_model.specs.Life.{expiry};
ghost use Rattle.world_model.specs.Queues.{made_items};
ghost use Rattle.world_model.specs.Relay.{station_item as item_of_station};
ghost use Rattle.world_model.specs.Relay.{switch_item as item_of_switch};
ghost use Rattle.world_model.specs.World.{base_of};

use crate::Network;
use crate::items::{station_item, switch_item};
use conn_fsm::{Conn, Input};
use conn_messages::SWITCH_LINK;
use octets::Memory;
use ruled_relay::Item;

/// Views of the controller's connections, and of the items that stations and the switch made.
impl Network {
    /// How many connections the controller has.
    pub fn connection_count(&self) -> usize
        ensures { result ≡ length self.now.controller.entries }
    {
        self.relay.connection_count()
    }

    /// The controller's connection at this place, counted from 0 in the order of connection
    /// numbers. `None` if there is no such connection.
    pub fn connection_at(&self, place: usize) -> Option<&Conn>
        ensures { option_map (λ c. c.now) result
            ≡ option_map (λ e. e.connection) (slice_get self.now.controller.entries place) }
    {
        self.relay.connection_at(place)
    }

    /// The input of the timer that expires within `ms` milliseconds for the connection at this
    /// place: the timer of the connection's state, or else the drain time. `None` if neither
    /// expires by then, or if there is no such connection.
    pub fn expiry_at(&self, place: usize, ms: u32) -> Option<Input>
        ensures { result ≡ option_and_then
            (λ e. expiry self.now.controller.settings.timers (after_pass ms e.connection))
            (slice_get self.now.controller.entries place) }
    {
        self.relay.expiry_at(place, ms)
    }

    /// The number of items of a source that aren't in the inbox yet.
    pub fn made_count(&self, source: u16) -> usize
        ensures { result ≡ length (made_items self.now source) }
    {
        if source == SWITCH_LINK {
            self.switch.made_count()
        } else {
            self.stations.made_count(source)
        }
    }

    /// The item at this place, counted from 0, among the items of a source that aren't in the inbox
    /// yet. `None` if there is no such item.
    pub fn made_item(&self, source: u16, place: usize) -> Result<Option<Item>, Memory>
        ensures { IfOk result (λ item. item ≡ slice_get (made_items self.now source) place) }
    {
        if source == SWITCH_LINK {
            self.made_by_switch(place)
        } else {
            self.made_by_station(source, place)
        }
    }

    fn made_by_switch(&self, place: usize) -> Result<Option<Item>, Memory>
        ensures { IfOk result (λ item.
            item ≡ option_map item_of_switch (slice_get self.now.switch_made place)) }
    {
        match self.switch.made_at(place) {
            Some(message) => Ok(Some(switch_item(self.alloc, message)?)),
            None => Ok(None),
        }
    }

    fn made_by_station(&self, station: u16, place: usize) -> Result<Option<Item>, Memory>
        ensures { IfOk result (λ item. item ≡ option_map (item_of_station station)
            (slice_get (base_of self.now station).messages place)) }
    {
        match self.stations.made_at(station, place) {
            Some(message) => Ok(Some(station_item(self.alloc, station, message)?)),
            None => Ok(None),
        }
    }
}
