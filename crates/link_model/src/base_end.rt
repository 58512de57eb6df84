// SPDX-License-Identifier: MIT OR Apache-2.0
ghost use Rattle.std.specs.Prelude.{◌≡◌, ◌≤◌, true, None, [], OnOk, OnErr, option_map};
ghost use Rattle.std.specs.Prelude.{filter, not};
ghost use Rattle.std.specs.Prelude.{◌==◌, length, slice_get};
ghost use Rattle.octets.specs.Refusal.{RefusesBy};
ghost use Rattle.link_model.specs.Message.{link_on};
ghost use Rattle.link_model.specs.Base.{is_active, new_base, after_activate, refusal_of_activate};
ghost use Rattle.link_model.specs.Base.{refusal_unless_active, after_establish, after_up};
ghost use Rattle.link_model.specs.Base.{after_release, is_told, after_tell, first_message};
ghost use Rattle.link_model.specs.Base.{after_next, after_take_down};

use crate::LinkFault;
use dtap_codec::Sapi;
use octets::{Memory, Octets};
use rsl_codec::{ActivationAck, ChanNo, Data, Establishment, FrameNumber, LinkId, Rsl};
use std::alloc::Global;
use std::collections::VecDeque;
use std::marker::Model;

/// A base station's end of the link to its controller. It holds the active channels, and the
/// messages that were made and not given out yet, in the order in which they were made.
#[derive(Drop)]
pub struct BaseEnd {
    alloc: Global,
    station: u16,
    active: Vec<ChanNo>,
    messages: VecDeque<Rsl>,
}

impl Model for BaseEnd {
    ghost use Rattle.link_model.specs.BaseState.{BaseState};

    ghost Value = { BaseState };

    ghost view = { λ base. record {
      station = base.station;
      active = base.active.items;
      messages = base.messages.items;
    } };
}

impl BaseEnd {
    /// The end of the station with this number, with no active channel and no message. Allocates
    /// nothing.
    pub fn new(alloc: Global, station: u16) -> BaseEnd
        ensures { result ≡ new_base station }
    {
        BaseEnd {
            alloc,
            station,
            active: Vec::new(alloc),
            messages: VecDeque::new(alloc),
        }
    }

    /// The number of the station.
    pub fn station(&self) -> u16
        ensures { result ≡ self.now.station }
    {
        self.station
    }

    /// Whether a channel is active.
    pub fn is_active(&self, channel: ChanNo) -> bool
        ensures { result ≡ is_active self.now.active channel }
    {
        self.active.contains(&channel)
    }

    /// Activates a channel, and makes a CHANNEL ACTIVATION ACKNOWLEDGE with frame number 0. Returns
    /// `Busy` if the channel is active already, `Memory` on allocation failure; on `Err`, nothing
    /// changes.
    pub fn activate(&mut self, channel: ChanNo) -> Result<(), LinkFault>
        ensures ok { OnOk result (self.new ≡ after_activate self.old channel) }
        ensures refused { RefusesBy LinkFault.Memory result (refusal_of_activate self.old channel) }
        ensures err { OnErr result (self.new ≡ self.old) }
    {
        if self.is_active(channel) {
            return Err(LinkFault::Busy);
        }
        self.active.reserve(1).map_err(Memory::from)?;
        let acknowledgement = ActivationAck {
            channel,
            frame: Some(FrameNumber(0)),
        };
        self.messages
            .push_back(Rsl::ChannelActivationAck(acknowledgement))
            .map_err(Memory::from)?;
        self.active.push_reserved(channel);
        Ok(())
    }

    /// Makes an ESTABLISH INDICATION, as when a mobile establishes the link of this SAPI on the
    /// channel. `message` is the L3 information, if there is any. Returns `NotActive` if the
    /// channel isn't active, `Memory` on allocation failure; on `Err`, nothing changes.
    pub fn establish(
        &mut self,
        channel: ChanNo,
        sapi: Sapi,
        message: Option<&[u8]>,
    ) -> Result<(), LinkFault>
        ensures ok { OnOk result (self.new ≡ after_establish self.old channel sapi
            (option_map (λ octets. octets.now) message.entry)) }
        ensures refused { RefusesBy LinkFault.Memory result
            (refusal_unless_active self.old channel) }
        ensures err { OnErr result (self.new ≡ self.old) }
    {
        if !self.is_active(channel) {
            return Err(LinkFault::NotActive);
        }
        let l3 = Octets::copy_optional(self.alloc, message)?;
        self.make(Rsl::EstablishIndication(Establishment {
            channel,
            link: link_on(channel, sapi),
            l3,
        }))?;
        Ok(())
    }

    /// Makes a DATA INDICATION with `message`, as when a message of a mobile arrives on this SAPI
    /// of the channel. Returns `NotActive` if the channel isn't active, `Memory` on allocation
    /// failure; on `Err`, nothing changes.
    pub fn up(&mut self, channel: ChanNo, sapi: Sapi, message: &[u8]) -> Result<(), LinkFault>
        ensures ok { OnOk result (self.new ≡ after_up self.old channel sapi message.now) }
        ensures refused { RefusesBy LinkFault.Memory result
            (refusal_unless_active self.old channel) }
        ensures err { OnErr result (self.new ≡ self.old) }
    {
        if !self.is_active(channel) {
            return Err(LinkFault::NotActive);
        }
        let l3 = Octets::copy(self.alloc, message)?;
        self.make(Rsl::DataIndication(Data {
            channel,
            link: link_on(channel, sapi),
            l3,
        }))?;
        Ok(())
    }

    /// Releases a channel, which may be inactive already, and makes an RF CHANNEL RELEASE
    /// ACKNOWLEDGE. Returns `Memory` on allocation failure; nothing changes then.
    pub fn release(&mut self, channel: ChanNo) -> Result<(), LinkFault>
        ensures ok { OnOk result (self.new ≡ after_release self.old channel) }
        ensures refused { RefusesBy LinkFault.Memory result None }
        ensures err { OnErr result (self.new ≡ self.old) }
    {
        self.make(Rsl::RfChannelReleaseAck(channel))?;
        deactivate(&mut self.active, channel);
        Ok(())
    }

    /// Makes `message` as it is. Returns `Memory` on allocation failure; nothing changes then.
    /// Assumes: `message` is a CHANNEL REQUIRED, HANDOVER DETECTION, MEASUREMENT RESULT, ESTABLISH
    /// CONFIRM or RELEASE INDICATION.
    pub fn tell(&mut self, message: Rsl) -> Result<(), LinkFault>
        requires { is_told message ≡ true }
        ensures ok { OnOk result (self.new ≡ after_tell self.old message) }
        ensures refused { RefusesBy LinkFault.Memory result None }
        ensures err { OnErr result (self.new ≡ self.old) }
    {
        self.make(message)?;
        Ok(())
    }

    /// Gives out the oldest message that wasn't given out yet; `None` if all messages were given
    /// out.
    pub fn next(&mut self) -> Option<Rsl>
        ensures message { result ≡ first_message self.old }
        ensures after { self.new ≡ after_next self.old }
    {
        self.messages.pop_front()
    }

    /// The number of messages that were made and not given out yet.
    pub fn made_count(&self) -> usize
        ensures { result ≡ length self.now.messages }
    {
        self.messages.len()
    }

    /// The message at this place, counted from 0, among the messages not given out yet; `None` past
    /// the last message.
    pub fn made_at(&self, place: usize) -> Option<&Rsl>
        ensures { option_map (λ m. m.now) result ≡ slice_get self.now.messages place }
    {
        self.messages.get(place)
    }

    /// Discards the messages not given out yet, as when the link to the controller breaks. The
    /// active channels stay active.
    pub fn take_down(&mut self)
        ensures { self.new ≡ after_take_down self.old }
    {
        self.messages.clear();
    }

    fn make(&mut self, message: Rsl) -> Result<(), Memory>
        ensures ok { OnOk result (self.new ≡ after_tell self.old message) }
        ensures err { OnErr result (self.new ≡ self.old) }
    {
        self.messages.push_back(message)?;
        Ok(())
    }
}

fn deactivate(active: &mut Vec<ChanNo>, channel: ChanNo)
    ensures { active.new.items ≡ filter (λ number. not (number == channel)) active.old.items }
{
    active.retain(|number| *number != channel);
}

/// The link identifier of a SAPI on a channel (TS 48.058 clause 9.3.2): the SACCH for SAPI 3 on a
/// TCH, else the main signalling channel.
fn link_on(channel: ChanNo, sapi: Sapi) -> LinkId
    ensures { result ≡ link_on channel sapi }
{
    match sapi {
        Sapi::Zero => LinkId::signalling(),
        Sapi::Three => LinkId::short_messages(channel),
    }
}
