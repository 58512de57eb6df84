// SPDX-License-Identifier: MIT OR Apache-2.0
ghost use Rattle.std.specs.Prelude.{◌≡◌, [], ◌++◌, map, unwrap_or, IfOk, OnOk};
ghost use Rattle.std.specs.Option.{option_copied};
ghost use Rattle.run_judge.specs.Channels.{asked_in, channels_from, early_before, early_in};
ghost use Rattle.run_judge.specs.Channels.{is_offered, is_opened_by, opening_behind, opening_in};
ghost use Rattle.run_judge.specs.Channels.{offered_channels, opened_channels};
ghost use Rattle.run_judge.specs.Channels.{optional_early, put_at, view_at};
ghost use Rattle.run_judge.specs.Channels.{view_of, with_view};

use crate::StationChannel;
use dtap_codec::Sapi;
use octets::{Memory, Octets};
use std::alloc::Global;
use std::marker::Model;
use std::mem;

/// A message, other than the initial one, that came on a channel before the switch was asked for a
/// connection.
#[derive(Drop)]
pub(crate) struct Early {
    pub sapi: Sapi,
    pub message: Octets,
    pub frame: u64,
    /// Whether another initial message came after this message. If so, the controller may have
    /// ignored this message.
    pub is_optional: bool,
}

impl Early {
    fn copy(&self, alloc: Global) -> Result<Early, Memory>
        ensures { IfOk result (λ copy. copy ≡ self.now) }
    {
        let message = Octets::copy(alloc, self.message.as_slice())?;
        Ok(Early {
            sapi: self.sapi,
            message,
            frame: self.frame,
            is_optional: self.is_optional,
        })
    }
}

fn copy_early(alloc: Global, early: &[Early]) -> Result<Vec<Early>, Memory>
    ensures { IfOk result (λ copy. copy.items ≡ early.now) }
{
    let mut copy = Vec::new(alloc);
    for e in early {
        copy.push(e.copy(alloc)?)?;
    }
    Ok(copy)
}

/// The initial message of a mobile on a channel, and the other messages that came on the channel.
#[derive(Drop)]
pub(crate) struct Opening {
    pub message: Octets,
    /// The number of the frame with the initial message; once the CR was sent, the number of the
    /// frame with the CR.
    pub frame: u64,
    pub early: Vec<Early>,
}

impl Model for Opening {
    ghost use Rattle.run_judge.specs.OpeningState.{OpeningState};

    ghost Value = { OpeningState };

    ghost view = { λ o. record { message = o.message; frame = o.frame; early = o.early.items } };
}

impl Opening {
    fn copy(&self, alloc: Global) -> Result<Opening, Memory>
        ensures { IfOk result (λ copy. copy ≡ self.now) }
    {
        let early = copy_early(alloc, self.early.as_slice())?;
        Ok(Opening {
            message: Octets::copy(alloc, self.message.as_slice())?,
            frame: self.frame,
            early,
        })
    }

    // An opening with an empty initial message, frame 0 and no other messages.
    fn empty(alloc: Global) -> Opening
        ensures { result ≡ opening_in ChannelView.Unknown }
    {
        Opening {
            message: Octets::new(Vec::new(alloc)),
            frame: 0,
            early: Vec::new(alloc),
        }
    }

    /// The opening with `frame`, the number of the frame with the CR.
    pub(crate) fn asked_in(self, frame: u64) -> Opening
        ensures { result ≡ asked_in frame self }
    {
        let Opening { message, early, .. } = self;
        Opening {
            message,
            frame,
            early,
        }
    }
}

/// What is known of a channel by the frames so far.
#[derive(Drop)]
pub(crate) enum ChannelView {
    /// Nothing is known, or the channel was released.
    Unknown,
    /// The channel was activated, perhaps with a handover reference.
    Activated(Option<u8>),
    /// A mobile sent its initial message on the channel, and no CR for it was sent yet.
    Opened(Opening),
    /// The channel belongs to the connection with this controller's reference and this number.
    Owned { reference: u32, number: u64 },
}

// Makes the messages optional: the controller may have ignored them.
fn make_optional(early: &mut [Early])
    ensures { early.new ≡ map optional_early early.old }
{
    for e in early.iter_mut() {
        e.is_optional = true;
    }
}

impl ChannelView {
    // The messages that came before another initial one, all optional.
    fn into_early(self, alloc: Global) -> Vec<Early>
        ensures { result.items ≡ early_before self }
    {
        match self {
            ChannelView::Opened(opening) => {
                let Opening { mut early, .. } = opening;
                make_optional(early.as_mut_slice());
                early
            }
            _ => Vec::new(alloc),
        }
    }

    /// The opening of the channel; an empty opening if the channel isn't `Opened`.
    pub(crate) fn into_opening(self, alloc: Global) -> Opening
        ensures { result ≡ opening_in self }
    {
        match self {
            ChannelView::Opened(opening) => opening,
            _ => Opening {
                message: Octets::new(Vec::new(alloc)),
                frame: 0,
                early: Vec::new(alloc),
            },
        }
    }

    // Adds a message that came after the initial message. No-op unless the channel is `Opened`.
    fn add_early(&mut self, early: Early) -> Result<(), Memory>
        ensures { OnOk result (self.new ≡ early_in early self.old) }
    {
        if let ChannelView::Opened(opening) = self {
            opening.early.push(early)?;
        }
        Ok(())
    }

    /// Whether a mobile sent the initial message `message` on the channel, and no CR for it was
    /// sent yet.
    pub(crate) fn is_opened_by(&self, message: &[u8]) -> bool
        ensures { result ≡ is_opened_by message.now self.now }
    {
        match self {
            ChannelView::Opened(opening) => opening.message.as_slice() == message,
            _ => false,
        }
    }

    fn is_offered(&self, reference: u8) -> bool
        ensures { result ≡ is_offered reference self.now }
    {
        match self {
            ChannelView::Activated(Some(offered)) => *offered == reference,
            _ => false,
        }
    }
}

/// The channels of one base station, by their numbers.
#[derive(Drop)]
pub(crate) struct StationViews {
    views: Vec<ChannelView>,
}

impl Model for StationViews {
    ghost use Rattle.std.specs.Prelude.{List, length, ◌≤◌};
    ghost use Rattle.run_judge.specs.declared.channels.ChannelView.{ChannelView as View};

    ghost Value = { List View };

    ghost view = { λ s. s.views.items };

    ghost invariant = { λ s. length s.views.items ≤ 256 };
}

impl StationViews {
    // What is known of a channel, if anything is.
    fn view(&self, number: u8) -> Option<&ChannelView>
        ensures { unwrap_or (option_copied result) ChannelView.Unknown ≡ view_of self.now number }
    {
        self.views.get(number as usize)
    }

    // Sets what is known of a channel, and returns what was known before.
    fn replace(&mut self, number: u8, view: ChannelView) -> Result<ChannelView, Memory>
        ensures old { IfOk result (λ old. old ≡ view_of self.old number) }
        ensures new { OnOk result (self.new ≡ put_at number ChannelView.Unknown view self.old) }
    {
        let place = number as usize;
        while self.views.len() <= place {
            self.views.push(ChannelView::Unknown)?;
        }
        Ok(mem::replace(&mut self.views[place], view))
    }

    fn is_offered(&self, number: u8, reference: u8) -> bool
        ensures { result ≡ is_offered reference (view_of self.now number) }
    {
        match self.view(number) {
            Some(view) => view.is_offered(reference),
            None => false,
        }
    }

    // Appends the station's channels for which `is_opened_by(message)` holds, sorted by number.
    fn add_opened(
        &self,
        station: u16,
        message: &[u8],
        found: &mut Vec<StationChannel>,
    ) -> Result<(), Memory>
        ensures { OnOk result (found.new.items
            ≡ found.old.items ++ channels_from (is_opened_by message.now) station 0 self.now) }
    {
        for (number, view) in self.views.iter().enumerate() {
            if view.is_opened_by(message) {
                found.push(StationChannel {
                    station,
                    number: number as u8,
                })?;
            }
        }
        Ok(())
    }
}

/// The channels of the base stations, by station and channel number.
#[derive(Drop)]
pub(crate) struct Channels {
    alloc: Global,
    stations: Vec<StationViews>,
}

impl Model for Channels {
    ghost use Rattle.std.specs.Prelude.{List, length, ◌≤◌};
    ghost use Rattle.run_judge.specs.declared.channels.ChannelView.{ChannelView as View};

    ghost Value = { List (List View) };

    ghost view = { λ c. c.stations.items };

    ghost invariant = { λ c. length c.stations.items ≤ 65536 };
}

impl Channels {
    /// Channels of which nothing is known. Allocates nothing.
    pub(crate) fn new(alloc: Global) -> Channels
        ensures { result ≡ [] }
    {
        Channels {
            alloc,
            stations: Vec::new(alloc),
        }
    }

    /// What is known of a channel, if anything is.
    pub(crate) fn view(&self, at: StationChannel) -> Option<&ChannelView>
        ensures { unwrap_or (option_copied result) ChannelView.Unknown ≡ view_at self.now at }
    {
        let station = self.stations.get(at.station as usize)?;
        station.view(at.number)
    }

    /// A copy of a channel's opening; an empty opening if the channel isn't `Opened`.
    pub(crate) fn copy_opening(&self, at: StationChannel) -> Result<Opening, Memory>
        ensures { IfOk result (λ copy. copy ≡ opening_in (view_at self.now at)) }
    {
        match self.view(at) {
            Some(ChannelView::Opened(opening)) => opening.copy(self.alloc),
            _ => Ok(Opening::empty(self.alloc)),
        }
    }

    /// Sets what is known of a channel, and returns what was known before. After an `Err` the
    /// channels aren't to be used again.
    pub(crate) fn replace(
        &mut self,
        at: StationChannel,
        view: ChannelView,
    ) -> Result<ChannelView, Memory>
        ensures old { IfOk result (λ old. old ≡ view_at self.old at) }
        ensures new { OnOk result (self.new ≡ with_view at view self.old) }
    {
        let station = at.station as usize;
        while self.stations.len() <= station {
            self.stations.push(StationViews {
                views: Vec::new(self.alloc),
            })?;
        }
        self.stations[station].replace(at.number, view)
    }

    /// Sets what is known of a channel. After an `Err` the channels aren't to be used again.
    pub(crate) fn set(&mut self, at: StationChannel, view: ChannelView) -> Result<(), Memory>
        ensures { OnOk result (self.new ≡ with_view at view self.old) }
    {
        self.replace(at, view)?;
        Ok(())
    }

    /// Records that a mobile's initial message came on the channel `at`. Other messages that came
    /// on the channel before become optional. After an `Err` the channels aren't to be used again.
    pub(crate) fn open(
        &mut self,
        at: StationChannel,
        message: Octets,
        frame: u64,
    ) -> Result<(), Memory>
        ensures { OnOk result (self.new ≡ with_view at (ChannelView.Opened
            (opening_behind (view_at self.old at) message frame)) self.old) }
    {
        let view = self.replace(at, ChannelView::Unknown)?;
        let opening = Opening {
            message,
            frame,
            early: view.into_early(self.alloc),
        };
        self.set(at, ChannelView::Opened(opening))
    }

    /// Records a message that came on the channel `at` after the initial message. No-op unless the
    /// channel is `Opened`. After an `Err` the channels aren't to be used again.
    pub(crate) fn add_early(&mut self, at: StationChannel, early: Early) -> Result<(), Memory>
        ensures { OnOk result
            (self.new ≡ with_view at (early_in early (view_at self.old at)) self.old) }
    {
        let mut view = self.replace(at, ChannelView::Unknown)?;
        view.add_early(early)?;
        self.set(at, view)
    }

    /// The channels on which a mobile sent the initial message `message` and for which no CR was
    /// sent yet, sorted by station and number.
    pub(crate) fn opened(&self, message: &[u8]) -> Result<Vec<StationChannel>, Memory>
        ensures { IfOk result (λ found. found.items ≡ opened_channels message.now self.now) }
    {
        let mut found = Vec::new(self.alloc);
        for (station, views) in self.stations.iter().enumerate() {
            views.add_opened(station as u16, message, &mut found)?;
        }
        Ok(found)
    }

    /// The channels with the number `number` that were activated with the handover reference
    /// `reference` and don't belong to a connection, sorted by station.
    pub(crate) fn offered(&self, number: u8, reference: u8) -> Result<Vec<StationChannel>, Memory>
        ensures { IfOk result (λ found. found.items ≡ offered_channels number reference self.now) }
    {
        let mut found = Vec::new(self.alloc);
        for (station, views) in self.stations.iter().enumerate() {
            if views.is_offered(number, reference) {
                found.push(StationChannel {
                    station: station as u16,
                    number,
                })?;
            }
        }
        Ok(found)
    }
}
