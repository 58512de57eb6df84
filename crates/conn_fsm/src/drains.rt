// SPDX-License-Identifier: MIT OR Apache-2.0
ghost use Rattle.std.specs.Prelude.{◌≡◌, ◌<◌, ◌≤◌, ◌↔◌, [], ◌∷◌};
ghost use Rattle.std.specs.Prelude.{◌++◌, length, false, IsTrue, IfOk, slice_get};
ghost use Rattle.std.specs.Prelude.{drop as dropped};
ghost use Rattle.conn_rules.specs.Connection.{drain_at};
ghost use Rattle.conn_rules.specs.Steps.{done_at};
ghost use Rattle.conn_rules.specs.Table.{drains_at};
ghost use Rattle.conn_fsm.specs.Leaving.{leaving};

use crate::places::is_at;
use conn_messages::{Channel, Place};
use conn_rules::{DRAIN_LIMIT, Drain};
use octets::Memory;
use std::alloc::Global;
use std::collections::VecDeque;
use std::marker::Model;

/// The old channels of a connection, the oldest first.
#[derive(Drop)]
pub(crate) struct Drains {
    list: VecDeque<Drain>,
}

impl Model for Drains {
    ghost use Rattle.std.specs.Prelude.{◌≤◌, List, length};
    ghost use Rattle.std.specs.VecDeque.{deque_capacity};
    ghost use Rattle.conn_rules.specs.declared.limits.TheConstants.{DRAIN_LIMIT};
    ghost use Rattle.conn_rules.specs.declared.state.Drain.{Drain};

    ghost Value = { List Drain };

    ghost view = { λ drains. drains.list.items };

    // Room for `DRAIN_LIMIT` old channels is reserved, so that `push` allocates nothing.
    ghost invariant = { λ drains. (length drains.list.items ≤ DRAIN_LIMIT)
        × (DRAIN_LIMIT ≤ deque_capacity drains.list) };
}

impl Drains {
    pub(crate) fn new(alloc: Global) -> Result<Drains, Memory>
        ensures { IfOk result (λ drains. drains ≡ []) }
    {
        let list = VecDeque::with_capacity(alloc, DRAIN_LIMIT)?;
        Ok(Drains { list })
    }

    pub(crate) fn len(&self) -> usize
        ensures { result ≡ length self.now }
    {
        self.list.len()
    }

    pub(crate) fn is_empty(&self) -> bool
        ensures { IsTrue result ↔ (self.now ≡ []) }
    {
        self.list.is_empty()
    }

    /// The old channel at position `place`; the oldest is at position 0. Returns `None` if there is
    /// no old channel at the position.
    pub(crate) fn get(&self, place: usize) -> Option<Drain>
        ensures { result ≡ slice_get self.now place }
    {
        self.list.get(place).copied()
    }

    /// The position of the first old channel that is at place `at` and isn't done; `None` if there
    /// is no such channel.
    pub(crate) fn place_of(&self, at: &Place) -> Option<usize>
        ensures { result ≡ drain_at at.now self.now }
    {
        self.list
            .iter()
            .position(|drain| is_at(at, &drain.channel) && !drain.is_done)
    }

    /// How many old channels would leave if the old channel at position `place` were done.
    pub(crate) fn leaving(&self, place: usize) -> usize
        ensures number { result ≡ leaving (done_at place self.now) }
        ensures few { result ≤ length self.now }
    {
        for k in 0..self.list.len() {
            if k != place && !self.list[k].is_done {
                return k;
            }
        }
        self.list.len()
    }

    /// Whether an old channel at this station isn't done.
    pub(crate) fn drains_at(&self, station: u16) -> bool
        ensures { result ≡ drains_at station self.now }
    {
        self.list
            .iter()
            .any(|drain| drain.channel.station == station && !drain.is_done)
    }

    /// Adds `channel` as the youngest old channel. There must be fewer than `DRAIN_LIMIT` old
    /// channels before. Allocates nothing.
    pub(crate) fn push(&mut self, channel: Channel)
        requires { length self.old < DRAIN_LIMIT }
        ensures { self.new ≡ self.old ++ record { channel = channel; is_done = false } ∷ [] }
    {
        self.list.push_back_reserved(Drain {
            channel,
            is_done: false,
        });
    }

    /// Marks the old channel at position `place` as done.
    #[tactic(auto, using(crate::proofs::OldChannels::marked))]
    pub(crate) fn mark_done(&mut self, place: usize)
        requires { place < length self.old }
        ensures { self.new ≡ done_at place self.old }
    {
        self.list[place].is_done = true;
    }

    /// Removes the oldest old channel, if there is one.
    pub(crate) fn shift(&mut self)
        ensures { self.new ≡ dropped 1 self.old }
    {
        self.list.pop_front();
    }

    pub(crate) fn clear(&mut self)
        ensures { self.new ≡ [] }
    {
        self.list.clear();
    }
}
