// SPDX-License-Identifier: MIT OR Apache-2.0
ghost use Rattle.std.specs.Prelude.{◌≡◌, IfOk, replicate, set, slice_index_or};
ghost use Rattle.controller_model.specs.declared.channel_state.ChannelState.TheVariants.{Free as FreeState};
ghost use Rattle.controller_model.specs.Controller.{free_channels, state_in, with_state};

use conn_messages::Place;
use controller_model::{CHANNEL_NUMBERS, ChannelState};
use octets::Memory;
use std::alloc::Global;
use std::marker::Model;

/// The states of the channels of one link, by channel number.
#[derive(Drop)]
struct LinkChannels {
    states: [ChannelState; CHANNEL_NUMBERS],
}

impl Model for LinkChannels {
    ghost use Rattle.std.specs.Prelude.{◌≡◌, List, length};
    ghost use Rattle.controller_model.specs.declared.channel_state.ChannelState.{ChannelState};
    ghost use Rattle.controller_model.specs.declared.limits.TheConstants.{CHANNEL_NUMBERS};

    ghost Value = { List ChannelState };

    ghost view = { λ c. c.states };

    ghost invariant = { λ c. length c.states ≡ CHANNEL_NUMBERS };
}

impl LinkChannels {
    fn free() -> LinkChannels
        ensures { result ≡ free_channels }
    {
        LinkChannels {
            states: [ChannelState::Free; CHANNEL_NUMBERS],
        }
    }

    fn state(&self, number: usize) -> ChannelState
        ensures { result ≡ slice_index_or self.now number FreeState }
    {
        match self.states.get(number) {
            Some(state) => *state,
            None => ChannelState::Free,
        }
    }

    fn set(&mut self, number: usize, state: ChannelState)
        ensures { self.new ≡ set self.old number state }
    {
        if number < CHANNEL_NUMBERS {
            self.states[number] = state;
        }
    }
}

/// The states of the channels of all cells, by link and then by channel number. Link 0 is the
/// switch's and has no channels.
#[derive(Drop)]
pub struct Channels {
    links: Vec<LinkChannels>,
}

impl Model for Channels {
    ghost use Rattle.std.specs.Prelude.{List};
    ghost use Rattle.controller_model.specs.declared.channel_state.ChannelState.{ChannelState};

    ghost Value = { List (List ChannelState) };

    ghost view = { λ c. c.links.items };
}

impl Channels {
    /// The channels of `links` links, all free. `Err(Memory)` if an allocation fails.
    pub fn new(alloc: Global, links: usize) -> Result<Channels, Memory>
        ensures { IfOk result (λ c. c ≡ replicate links free_channels) }
    {
        let mut made = Vec::new(alloc);
        for _ in 0..links {
            made.push(LinkChannels::free())?;
        }
        Ok(Channels { links: made })
    }

    /// The state of the channel `at`; `Free` if no cell has the channel.
    pub fn state(&self, at: Place) -> ChannelState
        ensures { result ≡ state_in self.now at }
    {
        match self.links.get(usize::from(at.station)) {
            Some(link) => link.state(usize::from(at.number.octet())),
            None => ChannelState::Free,
        }
    }

    /// Sets the state of the channel `at`; a no-op if the channel's link or number doesn't exist.
    pub fn set(&mut self, at: Place, state: ChannelState)
        ensures { self.new ≡ with_state at state self.old }
    {
        if let Some(link) = self.links.get_mut(usize::from(at.station)) {
            link.set(usize::from(at.number.octet()), state);
        }
    }

    /// Frees all channels of `station`, as after a break of the station's link; a no-op if there is
    /// no such link.
    pub fn free_station(&mut self, station: u16)
        ensures { self.new ≡ set self.old station free_channels }
    {
        if let Some(link) = self.links.get_mut(usize::from(station)) {
            *link = LinkChannels::free();
        }
    }
}
