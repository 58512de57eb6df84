// SPDX-License-Identifier: MIT OR Apache-2.0
ghost use Rattle.std.specs.Prelude.{◌≡◌, None, true, OnOk, IfOk, IfSome, replicate, length};
ghost use Rattle.std.specs.Prelude.{option_map, slice_get};
ghost use Rattle.controller_model.specs.declared.limits.TheConstants.{CHANNEL_NUMBERS};
ghost use Rattle.link_model.specs.Base.{after_establish, is_active, is_told, first_message};
ghost use Rattle.world_model.specs.World.{new_spot, new_station};
ghost use Rattle.world_ends.specs.Stations.{given_on, silenced, spot_of, station_after_message};
ghost use Rattle.world_ends.specs.Written.{IsWritten};

use crate::radio_channel::RadioChannel;
use controller_model::CHANNEL_NUMBERS;
use dtap_codec::Sapi;
use link_model::BaseEnd;
use octets::Memory;
use rsl_codec::{ChanNo, Rsl};
use std::alloc::Global;
use std::marker::Model;

/// A base station: its end of the link to the controller, with the messages that it made, and its
/// channels in the order of their numbers. Each of these messages can be written. An `Err` is an
/// allocation failure, after which nothing is known of the station.
#[derive(Drop)]
pub(crate) struct BaseStation {
    pub(crate) alloc: Global,
    pub(crate) base: BaseEnd,
    pub(crate) channels: Vec<RadioChannel>,
}

impl Model for BaseStation {
    ghost use Rattle.world_model.specs.World.{Station};
    ghost use Rattle.world_ends.specs.Written.{HasWritten};

    ghost Value = { Station };

    ghost view = { λ s. record { base = s.base; spots = s.channels.items } };

    ghost invariant = { λ s. HasWritten s.base };
}

impl BaseStation {
    /// The station with this number; none of its channels was ever active.
    pub(crate) fn new(alloc: Global, number: u16) -> Result<BaseStation, Memory>
        ensures { IfOk result (λ s. s ≡ new_station number) }
    {
        Ok(BaseStation {
            alloc,
            base: BaseEnd::new(alloc, number),
            channels: new_channels(alloc)?,
        })
    }

    pub(crate) fn is_active(&self, channel: ChanNo) -> bool
        ensures { result ≡ is_active self.now.base.active channel }
    {
        self.base.is_active(channel)
    }

    /// The number of the last tenure of a channel; 0 before the first tenure.
    pub(crate) fn tenure(&self, channel: ChanNo) -> u64
        ensures { result ≡ (spot_of self.now channel).tenure }
    {
        match self.channels.get(usize::from(channel.octet())) {
            Some(channel) => channel.tenure(),
            None => 0,
        }
    }

    pub(crate) fn is_sapi_three_up(&self, channel: ChanNo) -> bool
        ensures { result ≡ (spot_of self.now channel).sapi_three_up }
    {
        match self.channels.get(usize::from(channel.octet())) {
            Some(channel) => channel.is_sapi_three_up(),
            None => false,
        }
    }

    pub(crate) fn reports(&self, channel: ChanNo) -> u8
        ensures { result ≡ (spot_of self.now channel).reports }
    {
        match self.channels.get(usize::from(channel.octet())) {
            Some(channel) => channel.reports(),
            None => 0,
        }
    }

    /// Makes this message for the controller. Assumes: the message is of a kind that
    /// `BaseEnd::tell` makes, and can be written.
    pub(crate) fn tell(&mut self, message: Rsl) -> Result<(), Memory>
        requires told { is_told message ≡ true }
        requires written { IsWritten message }
        ensures { OnOk result (self.new ≡ station_after_message message self.old) }
    {
        self.base.tell(message).map_err(|_| Memory)
    }

    /// Makes an ESTABLISH INDICATION without a message, since a mobile establishes the data link of
    /// a SAPI on the channel. Assumes: the channel is active.
    pub(crate) fn establish(&mut self, channel: ChanNo, sapi: Sapi) -> Result<(), Memory>
        requires { is_active self.old.base.active channel ≡ true }
        ensures { OnOk result (self.new ≡
            record self.old { base = after_establish self.old.base channel sapi None }) }
    {
        self.base.establish(channel, sapi, None).map_err(|_| Memory)
    }

    /// Discards the messages that the station made and hasn't given out yet.
    pub(crate) fn take_down(&mut self)
        ensures { self.new ≡ silenced self.old }
    {
        self.base.take_down();
    }

    /// Gives out the oldest message that the station made and hasn't given out yet, which can be
    /// written; `None` if there is no such message.
    pub(crate) fn next(&mut self) -> Option<Rsl>
        ensures message { result ≡ first_message self.old.base }
        ensures written { IfSome result IsWritten }
        ensures after { self.new ≡ given_on self.old }
    {
        self.base.next()
    }

    /// How many messages the station made and hasn't given out yet.
    pub(crate) fn made_count(&self) -> usize
        ensures { result ≡ length self.now.base.messages }
    {
        self.base.made_count()
    }

    /// The message at `place`, counted from 0, among those not given out yet, which can be written;
    /// `None` if there is no such place.
    pub(crate) fn made_at(&self, place: usize) -> Option<&Rsl>
        ensures message { option_map (λ m. m.now) result
            ≡ slice_get self.now.base.messages place }
        ensures written { IfSome (option_map (λ m. m.now) result) IsWritten }
    {
        self.base.made_at(place)
    }
}

fn new_channels(alloc: Global) -> Result<Vec<RadioChannel>, Memory>
    ensures { IfOk result (λ channels. channels.items ≡ replicate CHANNEL_NUMBERS new_spot) }
{
    let mut channels = Vec::new(alloc);
    for _ in 0..CHANNEL_NUMBERS {
        channels.push(RadioChannel::new(alloc))?;
    }
    Ok(channels)
}
