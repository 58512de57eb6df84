// SPDX-License-Identifier: MIT OR Apache-2.0
ghost use Rattle.std.specs.Prelude.{◌≡◌, IfOk, OnOk, drop, length, option_map, replicate};
ghost use Rattle.world_model.specs.Lists.{first_in};
ghost use Rattle.world_model.specs.World.{new_link};
ghost use Rattle.world_actors.specs.Links.{all_joined_in, broken_in, is_up_in};
ghost use Rattle.world_actors.specs.Links.{joined_in, outbox_in, taken_of};

use crate::entries::entry_of;
use crate::link::RelayLink;
use conn_messages::Out;
use octets::Memory;
use std::alloc::Global;
use std::marker::Model;
use world_model::{OutboxEntry, Tenure};

/// The links of the controller. Link 0 is the switch's, link 1 that of station 1, and so on. A link
/// that doesn't exist counts as down, with an empty outbox.
#[derive(Drop)]
pub struct Links {
    alloc: Global,
    links: Vec<RelayLink>,
}

impl Model for Links {
    ghost use Rattle.std.specs.Prelude.{List};
    ghost use Rattle.world_model.specs.World.{Link};

    ghost Value = { List Link };

    ghost view = { λ l. l.links.items };
}

impl Links {
    /// `count` links that are up, with empty outboxes.
    pub fn new(alloc: Global, count: usize) -> Result<Links, Memory>
        ensures { IfOk result (λ l. l ≡ replicate count new_link) }
    {
        let mut links = Vec::new(alloc);
        for _ in 0..count {
            links.push(RelayLink::new(alloc))?;
        }
        Ok(Links { alloc, links })
    }

    /// Whether this link is up.
    pub fn is_up(&self, link: u16) -> bool
        ensures { result ≡ is_up_in self.now link }
    {
        match self.links.get(usize::from(link)) {
            Some(link) => link.is_up(),
            None => false,
        }
    }

    /// The first entry of the outbox of `link`, or `None` if the outbox is empty.
    pub fn first(&self, link: u16) -> Option<&OutboxEntry>
        ensures { option_map (λ e. e.now) result ≡ first_in (outbox_in self.now link) }
    {
        match self.links.get(usize::from(link)) {
            Some(link) => link.first(),
            None => None,
        }
    }

    /// How many links there are.
    pub fn count(&self) -> usize
        ensures { result ≡ length self.now }
    {
        self.links.len()
    }

    /// How many entries the outbox of `link` has.
    pub fn waiting(&self, link: usize) -> usize
        ensures { result ≡ length (outbox_in self.now link) }
    {
        match self.links.get(link) {
            Some(link) => link.len(),
            None => 0,
        }
    }

    /// The entry at a place of the outbox of `link`, counted from 0. `None` if the outbox has no
    /// such entry.
    pub fn entry(&self, link: usize, place: usize) -> Option<&OutboxEntry>
        ensures { option_map (λ e. e.now) result ≡ first_in (drop place (outbox_in self.now link)) }
    {
        match self.links.get(link) {
            Some(link) => link.entry(place),
            None => None,
        }
    }

    /// Takes the first entry of the outbox of `link`. `None` if the outbox is empty.
    pub fn take(&mut self, link: u16) -> Option<OutboxEntry>
        ensures entry { result ≡ first_in (outbox_in self.old link) }
        ensures after { self.new ≡ taken_of link self.old }
    {
        match self.links.get_mut(usize::from(link)) {
            Some(link) => link.take(),
            None => None,
        }
    }

    /// Breaks `link`. The entries of its outbox are lost.
    pub fn break_down(&mut self, link: u16)
        ensures { self.new ≡ broken_in link self.old }
    {
        if let Some(link) = self.links.get_mut(usize::from(link)) {
            link.break_down();
        }
    }

    /// Appends the controller's outputs to the outboxes of their links, but discards the outputs to
    /// links that are down. The entry of an ASSIGNMENT COMMAND or a HANDOVER COMMAND leads to
    /// `target`, the tenure whose activation was acknowledged.
    pub fn join_all(&mut self, target: &Option<Tenure>, outs: Vec<Out>) -> Result<(), Memory>
        ensures { OnOk result (self.new ≡ all_joined_in target.now self.old outs.items) }
    {
        for out in outs {
            self.join(target, out)?;
        }
        Ok(())
    }

    fn join(&mut self, target: &Option<Tenure>, out: Out) -> Result<(), Memory>
        ensures { OnOk result (self.new ≡ joined_in target.now self.old out) }
    {
        if !self.is_up(out.to) {
            return Ok(());
        }
        let link = usize::from(out.to);
        let entry = entry_of(self.alloc, target, out)?;
        match self.links.get_mut(link) {
            Some(link) => link.put(entry),
            None => Ok(()),
        }
    }
}
