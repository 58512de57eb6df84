// SPDX-License-Identifier: MIT OR Apache-2.0
ghost use Rattle.std.specs.Prelude.{◌≡◌, ◌+◌, [], IfOk, OnOk, None, drop, length};
ghost use Rattle.std.specs.Prelude.{option_map, slice_get};
ghost use Rattle.std.specs.Option.{option_and_then};
ghost use Rattle.std.specs.Prelude.{replicate};
ghost use Rattle.bssmap_codec.specs.SccpText.{sccp_write_fault};
ghost use Rattle.conn_rules.specs.Timers.{after_pass};
ghost use Rattle.controller_model.specs.Controller.{new_controller};
ghost use Rattle.controller_model.specs.Life.{expiry};
ghost use Rattle.rsl_codec.specs.RslText.{rsl_write_fault};
ghost use Rattle.world_model.specs.Lists.{behind_first, first_in};
ghost use Rattle.world_model.specs.Relay.{station_item, switch_item};
ghost use Rattle.world_model.specs.World.{new_link};
ghost use Rattle.world_actors.specs.Links.{is_up_in, outbox_in, taken_of};
ghost use Rattle.world_actors.specs.Relay.{breaking, handling, ticking, with_item_in};

use crate::items::{station_item as item_of_station, switch_item as item_of_switch};
use crate::links::Links;
use bssmap_codec::Sccp;
use conn_fsm::{Conn, Input};
use controller::{Controller, Outputs};
use octets::Memory;
use rsl_codec::Rsl;
use ruled_relay::{Item, What};
use settings::Settings;
use std::alloc::Global;
use std::collections::VecDeque;
use std::marker::Model;
use world_model::{OutboxEntry, Tenure};

/// The controller of a world, with the inbox for the items of all sources and an outbox for each
/// link. Each `Err` is an allocation failure.
#[derive(Drop)]
pub struct Relay {
    alloc: Global,
    inbox: VecDeque<Item>,
    controller: Controller,
    links: Links,
}

impl Model for Relay {
    ghost use Rattle.world_actors.specs.RelayState.{RelayState};

    ghost Value = { RelayState };

    ghost view = { λ r. record {
      inbox = r.inbox.items;
      controller = r.controller;
      links = r.links;
    } };
}

impl Relay {
    /// A controller with these settings. All links are up, and all queues are empty.
    pub fn new(alloc: Global, settings: Settings) -> Result<Relay, Memory>
        ensures { IfOk result (λ r. r ≡ record {
          inbox = [];
          controller = new_controller settings;
          links = replicate (length settings.cells + 1) new_link;
        }) }
    {
        match Links::new(alloc, usize::from(settings.cell_count()) + 1) {
            Ok(links) => Relay::with_links(alloc, links, settings),
            Err(Memory) => {
                drop(settings);
                Err(Memory)
            }
        }
    }

    // The controller with these links, and an empty inbox.
    fn with_links(alloc: Global, links: Links, settings: Settings) -> Result<Relay, Memory>
        ensures { IfOk result (λ r.
            r ≡ record { inbox = []; controller = new_controller settings; links = links }) }
    {
        match Controller::new(alloc, settings) {
            Ok(controller) => Ok(Relay {
                alloc,
                inbox: VecDeque::new(alloc),
                controller,
                links,
            }),
            Err(Memory) => {
                drop(links);
                Err(Memory)
            }
        }
    }

    /// Whether this link is up. A link that doesn't exist counts as down.
    pub fn is_up(&self, link: u16) -> bool
        ensures { result ≡ is_up_in self.now.links link }
    {
        self.links.is_up(link)
    }

    /// The first entry of the outbox of `link`, or `None` if the outbox is empty.
    pub fn first_entry(&self, link: u16) -> Option<&OutboxEntry>
        ensures { option_map (λ e. e.now) result ≡ first_in (outbox_in self.now.links link) }
    {
        self.links.first(link)
    }

    /// How many links there are.
    pub fn link_count(&self) -> usize
        ensures { result ≡ length self.now.links }
    {
        self.links.count()
    }

    /// How many entries the outbox of `link` has.
    pub fn waiting(&self, link: usize) -> usize
        ensures { result ≡ length (outbox_in self.now.links link) }
    {
        self.links.waiting(link)
    }

    /// The entry at a place of the outbox of `link`, counted from 0. `None` if the outbox has no
    /// such entry.
    pub fn entry(&self, link: usize, place: usize) -> Option<&OutboxEntry>
        ensures { option_map (λ e. e.now) result
            ≡ first_in (drop place (outbox_in self.now.links link)) }
    {
        self.links.entry(link, place)
    }

    /// How many items the inbox has.
    pub fn inbox_len(&self) -> usize
        ensures { result ≡ length self.now.inbox }
    {
        self.inbox.len()
    }

    /// The item at a place of the inbox, counted from 0. `None` if the inbox has no such item.
    pub fn item(&self, place: usize) -> Option<&Item>
        ensures { option_map (λ i. i.now) result ≡ first_in (drop place self.now.inbox) }
    {
        self.inbox.get(place)
    }

    /// How many connections the controller has.
    pub fn connection_count(&self) -> usize
        ensures { result ≡ length self.now.controller.entries }
    {
        self.controller.connection_count()
    }

    /// The controller's connection at this place, counted from 0 in the order of connection
    /// numbers. `None` if there is no such connection.
    pub fn connection_at(&self, place: usize) -> Option<&Conn>
        ensures { option_map (λ c. c.now) result
            ≡ option_map (λ e. e.connection) (slice_get self.now.controller.entries place) }
    {
        self.controller.connection_at(place)
    }

    /// The input of the timer that expires within `ms` milliseconds for the connection at this
    /// place. `None` if no timer expires by then, or if there is no such connection.
    pub fn expiry_at(&self, place: usize, ms: u32) -> Option<Input>
        ensures { result ≡ option_and_then
            (λ e. expiry self.now.controller.settings.timers (after_pass ms e.connection))
            (slice_get self.now.controller.entries place) }
    {
        self.controller.expiry_at(place, ms)
    }

    /// Takes the first entry of the outbox of `link`. `None` if the outbox is empty.
    pub fn take_entry(&mut self, link: u16) -> Option<OutboxEntry>
        ensures entry { result ≡ first_in (outbox_in self.old.links link) }
        ensures after { self.new ≡ record self.old { links = taken_of link self.old.links } }
    {
        self.links.take(link)
    }

    /// Appends a message of a station to the inbox. Assumes: `message` has an encoding.
    pub fn push_from_station(&mut self, station: u16, message: &Rsl) -> Result<(), Memory>
        requires { rsl_write_fault message.now ≡ None }
        ensures { OnOk result
            (self.new ≡ with_item_in (station_item station message.now) self.old) }
    {
        self.push(item_of_station(self.alloc, station, message)?)
    }

    /// Appends a message of the switch to the inbox. Assumes: `message` has an encoding.
    pub fn push_from_switch(&mut self, message: &Sccp) -> Result<(), Memory>
        requires { sccp_write_fault message.now ≡ None }
        ensures { OnOk result (self.new ≡ with_item_in (switch_item message.now) self.old) }
    {
        self.push(item_of_switch(self.alloc, message)?)
    }

    fn push(&mut self, item: Item) -> Result<(), Memory>
        ensures { OnOk result (self.new ≡ with_item_in item self.old) }
    {
        self.inbox.push_back(item)?;
        Ok(())
    }

    /// Takes the first item of the inbox. `None` if the inbox is empty.
    pub fn take_item(&mut self) -> Option<Item>
        ensures item { result ≡ first_in self.old.inbox }
        ensures after { self.new ≡ record self.old { inbox = behind_first self.old.inbox } }
    {
        self.inbox.pop_front()
    }

    /// The controller handles an item, and the controller's outputs join the outboxes. The entry of
    /// an ASSIGNMENT COMMAND or a HANDOVER COMMAND leads to `target`, the tenure whose activation
    /// the item acknowledges.
    pub fn handle(&mut self, target: &Option<Tenure>, item: Item) -> Result<(), Memory>
        ensures { OnOk result (self.new ≡ handling target.now item self.old) }
    {
        let mut outputs = Outputs::new(self.alloc);
        self.controller
            .step(item, &mut outputs)
            .map_err(|_| Memory)?;
        self.links.join_all(target, outputs.into_vec())
    }

    /// `ms` milliseconds pass for the controller, and the controller's outputs join the outboxes.
    pub fn tick(&mut self, ms: u32) -> Result<(), Memory>
        ensures { OnOk result (self.new ≡ ticking ms self.old) }
    {
        let mut outputs = Outputs::new(self.alloc);
        self.controller.tick(ms, &mut outputs)?;
        self.links.join_all(&None, outputs.into_vec())
    }

    /// The link of a source breaks. The entries of the link's outbox are lost, and `What::Down` is
    /// appended to the inbox.
    pub fn break_down(&mut self, source: u16) -> Result<(), Memory>
        ensures { OnOk result (self.new ≡ breaking source self.old) }
    {
        self.links.break_down(source);
        self.push(Item {
            source,
            what: What::Down,
        })
    }
}
