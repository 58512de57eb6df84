// SPDX-License-Identifier: MIT OR Apache-2.0
ghost use Rattle.std.specs.Prelude.{◌≡◌, ◌∷◌, [], ◌++◌, drop, length, OnOk};
ghost use Rattle.std.specs.Prelude.{option_map};
ghost use Rattle.world_model.specs.Lists.{behind_first, first_in};
ghost use Rattle.world_model.specs.World.{broken_link, new_link};

use octets::Memory;
use std::alloc::Global;
use std::collections::VecDeque;
use std::marker::Model;
use world_model::OutboxEntry;

/// A link of the controller, with its outbox.
#[derive(Drop)]
pub(crate) struct RelayLink {
    is_up: bool,
    outbox: VecDeque<OutboxEntry>,
}

impl Model for RelayLink {
    ghost use Rattle.world_model.specs.World.{Link};

    ghost Value = { Link };

    ghost view = { λ l. record { up = l.is_up; outbox = l.outbox.items } };
}

impl RelayLink {
    /// A link that is up and has an empty outbox. The call allocates nothing.
    pub(crate) fn new(alloc: Global) -> RelayLink
        ensures { result ≡ new_link }
    {
        RelayLink {
            is_up: true,
            outbox: VecDeque::new(alloc),
        }
    }

    pub(crate) fn is_up(&self) -> bool
        ensures { result ≡ self.now.up }
    {
        self.is_up
    }

    /// The first entry of the outbox, or `None` if the outbox is empty.
    pub(crate) fn first(&self) -> Option<&OutboxEntry>
        ensures { option_map (λ e. e.now) result ≡ first_in self.now.outbox }
    {
        self.outbox.front()
    }

    /// How many entries the outbox has.
    pub(crate) fn len(&self) -> usize
        ensures { result ≡ length self.now.outbox }
    {
        self.outbox.len()
    }

    /// The entry at a place of the outbox, counted from 0. `None` if the outbox has no such entry.
    pub(crate) fn entry(&self, place: usize) -> Option<&OutboxEntry>
        ensures { option_map (λ e. e.now) result ≡ first_in (drop place self.now.outbox) }
    {
        self.outbox.get(place)
    }

    /// Takes the first entry of the outbox. `None` if the outbox is empty.
    pub(crate) fn take(&mut self) -> Option<OutboxEntry>
        ensures entry { result ≡ first_in self.old.outbox }
        ensures after { self.new ≡ record self.old { outbox = behind_first self.old.outbox } }
    {
        self.outbox.pop_front()
    }

    /// Appends an entry to the outbox. `Err` is an allocation failure.
    pub(crate) fn put(&mut self, entry: OutboxEntry) -> Result<(), Memory>
        ensures { OnOk result
            (self.new ≡ record self.old { outbox = self.old.outbox ++ entry ∷ [] }) }
    {
        self.outbox.push_back(entry)?;
        Ok(())
    }

    /// Breaks the link. The entries of the outbox are lost.
    pub(crate) fn break_down(&mut self)
        ensures { self.new ≡ broken_link }
    {
        self.is_up = false;
        self.outbox.clear();
    }
}
