// SPDX-License-Identifier: MIT OR Apache-2.0
ghost use Rattle.std.specs.Prelude.{◌≡◌, IfOk, if◌then◌else◌};
ghost use Rattle.dtap_codec.specs.Number.{count_of};
ghost use Rattle.world_model.specs.World.{is_reached, is_station_up, is_up, modulus_in};
ghost use Rattle.world_model.specs.World.{new_actors, stations_from, tenure_at};

use crate::relay::Relay;
use conn_messages::{Place, SWITCH_LINK};
use dtap_codec::Modulus;
use octets::Memory;
use settings::Settings;
use std::alloc::Global;
use std::marker::Model;
use world_ends::{Mobiles, Stations, Switch};
use world_model::Tenure;

/// The actors of a world with a controller. The call of an event returns whether the event was
/// taken; an event that its actor can't take is a no-op. `Err` is an allocation failure, which is
/// possible only for an event that can be taken.
#[derive(Drop)]
pub struct Network {
    pub(crate) alloc: Global,
    pub(crate) mobiles: Mobiles,
    pub(crate) stations: Stations,
    pub(crate) switch: Switch,
    pub(crate) relay: Relay,
}

impl Model for Network {
    ghost use Rattle.world_model.specs.World.{Actors};

    ghost Value = { Actors };

    ghost view = { λ n. record {
      modulus = n.mobiles.modulus;
      mobiles = n.mobiles.mobiles;
      stations = n.stations;
      switch = n.switch.switch;
      switch_made = n.switch.made;
      inbox = n.relay.inbox;
      controller = n.relay.controller;
      links = n.relay.links;
    } };
}

impl Network {
    /// The actors of a world with these settings, before any event.
    pub fn new(alloc: Global, settings: Settings) -> Result<Network, Memory>
        ensures { IfOk result (λ n. n ≡ new_actors settings) }
    {
        match Stations::new(alloc, &settings) {
            Ok(stations) => Network::with_stations(alloc, stations, settings),
            Err(Memory) => {
                drop(settings);
                Err(Memory)
            }
        }
    }

    // The actors with these stations, before any event.
    fn with_stations(
        alloc: Global,
        stations: Stations,
        settings: Settings,
    ) -> Result<Network, Memory>
        requires { stations ≡ stations_from 1 settings.cells }
        ensures { IfOk result (λ n. n ≡ new_actors settings) }
    {
        let modulus = modulus_of(&settings);
        match Relay::new(alloc, settings) {
            Ok(relay) => Ok(Network {
                alloc,
                mobiles: Mobiles::new(alloc, modulus),
                stations,
                switch: Switch::new(alloc, modulus),
                relay,
            }),
            Err(Memory) => {
                drop(stations);
                Err(Memory)
            }
        }
    }

    /// Whether the link of a source is up.
    pub fn is_up(&self, source: u16) -> bool
        ensures { result ≡ is_up self.now source }
    {
        self.relay.is_up(source)
    }

    /// Whether `station` is the number of a station and the station's link is up.
    pub fn is_station_up(&self, station: u16) -> bool
        ensures { result ≡ is_station_up self.now station }
    {
        station != SWITCH_LINK && self.is_up(station)
    }

    /// Whether the tenure is the present one of its channel, and the channel's station is up.
    pub fn is_reached(&self, tenure: &Tenure) -> bool
        ensures { result ≡ is_reached self.now tenure.now }
    {
        self.is_station_up(tenure.at.station) && self.stations.is_present(tenure)
    }

    /// The last tenure of a channel. While the channel is active, its last tenure is the present
    /// one.
    pub(crate) fn last_tenure(&self, at: Place) -> Tenure
        ensures { result ≡ tenure_at self.now at }
    {
        Tenure {
            at,
            number: self.stations.last_tenure(&at),
        }
    }
}

/// The number of sequence numbers N(SD) that messages have: two in a network of Release 98 or
/// older, else four.
pub fn modulus_of(settings: &Settings) -> Modulus
    ensures { count_of result ≡ modulus_in settings.now }
{
    if settings.release98() {
        Modulus::Two
    } else {
        Modulus::Four
    }
}
