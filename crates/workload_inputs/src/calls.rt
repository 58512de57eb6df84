// SPDX-License-Identifier: MIT OR Apache-2.0
//! The calls of a network. A call is found by its place, its channel or its connection.

use octets::Memory;
use std::alloc::Global;

/// The progress of a call.
#[derive(Clone, Copy)]
pub(crate) enum Progress {
    /// The call's mobile has no channel.
    Idle,
    /// The mobile waits for a channel, or for the switch.
    Asking,
    /// The call is in progress. The number counts how often something was sent in the call.
    Talking(u32),
    /// A handover was decided for.
    Moving,
    /// The switch clears the call.
    Leaving,
}

/// A call of the network.
#[derive(Clone, Copy)]
pub(crate) struct Call {
    /// The call's mobile, numbered from 0 in the cell where the call begins.
    pub(crate) mobile: u8,
    /// The cell where the call begins.
    pub(crate) home: u16,
    /// The station that serves the call.
    pub(crate) station: u16,
    pub(crate) channel: u8,
    /// The controller's reference of the call's connection.
    pub(crate) number: u32,
    pub(crate) progress: Progress,
    /// How many lives the call has left.
    pub(crate) lives: u32,
    /// Bits 8 and 7 of the call's next message of the flow.
    pub(crate) turn: u8,
}

/// All calls.
#[derive(Drop)]
pub(crate) struct Calls {
    all: Vec<Call>,
    /// The places of calls, by station and channel, and by connection.
    on_channels: Vec<u16>,
    of_connections: Vec<u16>,
    mobiles: u16,
}

/// How many connections are told apart.
const CONNECTIONS: usize = 1 << 16;

impl Calls {
    /// The calls of `mobiles` mobiles in each of the first `cells` cells. Each call has `lives`
    /// lives.
    pub(crate) fn new(alloc: Global, cells: u16, mobiles: u8, lives: u32) -> Result<Calls, Memory> {
        let mut all = Vec::new(alloc);
        for home in 1..=cells {
            for mobile in 0..mobiles {
                all.push(Call {
                    mobile,
                    home,
                    station: home,
                    channel: 0,
                    number: 0,
                    progress: Progress::Idle,
                    lives,
                    turn: 0,
                })?;
            }
        }
        Ok(Calls {
            all,
            on_channels: vec![in alloc; u16::MAX; 33 * 128]?,
            of_connections: vec![in alloc; u16::MAX; CONNECTIONS]?,
            mobiles: u16::from(mobiles),
        })
    }

    pub(crate) fn len(&self) -> usize {
        self.all.len()
    }

    pub(crate) fn at(&self, place: usize) -> Option<Call> {
        self.all.get(place).copied()
    }

    /// The place of a mobile's call, which begins in the cell `home`.
    pub(crate) fn of_mobile(&self, home: u16, mobile: u8) -> usize {
        usize::from(home.saturating_sub(1)) * usize::from(self.mobiles) + usize::from(mobile)
    }

    /// The place of the last call that was put on a channel.
    pub(crate) fn on_channel(&self, station: u16, channel: u8) -> usize {
        let place = self.on_channels.get(channel_place(station, channel));
        usize::from(place.copied().unwrap_or(u16::MAX))
    }

    /// The place of the call with this connection.
    pub(crate) fn of_connection(&self, number: u32) -> usize {
        let place = self.of_connections.get(number as usize);
        usize::from(place.copied().unwrap_or(u16::MAX))
    }

    /// Replaces the call at a place. From then on, the call's channel and connection lead to that
    /// place.
    pub(crate) fn set(&mut self, place: usize, call: Call) {
        let number = place.min(usize::from(u16::MAX)) as u16;
        if let Some(old) = self.all.get_mut(place) {
            *old = call;
        }
        if let Some(found) = self
            .on_channels
            .get_mut(channel_place(call.station, call.channel))
        {
            *found = number;
        }
        if let Some(found) = self.of_connections.get_mut(call.number as usize) {
            *found = number;
        }
    }
}

fn channel_place(station: u16, channel: u8) -> usize {
    usize::from(station) * 128 + usize::from(channel & 127)
}
