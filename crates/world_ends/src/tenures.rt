// SPDX-License-Identifier: MIT OR Apache-2.0
ghost use Rattle.std.specs.Prelude.{◌≡◌, ◌≢◌, OnOk};
ghost use Rattle.world_model.specs.declared.limits.TheConstants.{MAX_TENURE};
ghost use Rattle.world_model.specs.Lists.{first_in};
ghost use Rattle.world_model.specs.Stations.{new_tenure};
ghost use Rattle.world_ends.specs.Stations.{activated_on, aired_on, answered_on, left_on};
ghost use Rattle.world_ends.specs.Stations.{released_on, spot_of, taken_on, with_spot_of};

use crate::base_station::BaseStation;
use link_model::LinkFault;
use octets::Memory;
use rsl_codec::{ChanNo, Link, LinkId, Rsl};
use world_model::AirMessage;

/// Calls that the controller's messages and the mobiles cause on a channel.
impl BaseStation {
    /// CHANNEL ACTIVATION: begins a new tenure of the channel and makes a CHANNEL ACTIVATION ACK;
    /// no-op if the channel is active. Assumes: the number of the channel's last tenure isn't
    /// `MAX_TENURE`.
    pub(crate) fn activate(&mut self, channel: ChanNo) -> Result<(), Memory>
        requires { (spot_of self.old channel).tenure ≢ MAX_TENURE }
        ensures { OnOk result (self.new ≡ activated_on channel self.old) }
    {
        match self.base.activate(channel) {
            Ok(()) => {
                self.begin_tenure(channel);
                Ok(())
            }
            Err(LinkFault::Memory) => Err(Memory),
            Err(LinkFault::Busy) => Ok(()),
            Err(LinkFault::NotActive) => Ok(()),
        }
    }

    fn begin_tenure(&mut self, channel: ChanNo)
        requires { (spot_of self.old channel).tenure ≢ MAX_TENURE }
        ensures { self.new ≡ with_spot_of channel (new_tenure (spot_of self.old channel)) self.old }
    {
        if let Some(channel) = self.channels.get_mut(usize::from(channel.octet())) {
            channel.begin_tenure();
        }
    }

    /// RF CHANNEL RELEASE: ends the tenure of the channel, if it has one, and makes an RF CHANNEL
    /// RELEASE ACK. Discards the messages that wait for the air, and takes the data link of SAPI 3
    /// down.
    pub(crate) fn release(&mut self, channel: ChanNo) -> Result<(), Memory>
        ensures { OnOk result (self.new ≡ released_on channel self.old) }
    {
        match self.base.release(channel) {
            Ok(()) => {
                self.clear(channel);
                Ok(())
            }
            Err(_) => Err(Memory),
        }
    }

    /// A mobile leaves the channel: discards the messages that wait for the air, and takes the data
    /// link of SAPI 3 down.
    pub(crate) fn leave(&mut self, channel: ChanNo)
        ensures { self.new ≡ left_on channel self.old }
    {
        self.clear(channel);
    }

    fn clear(&mut self, channel: ChanNo)
        ensures { self.new ≡ left_on channel self.old }
    {
        if let Some(channel) = self.channels.get_mut(usize::from(channel.octet())) {
            channel.clear();
        }
    }

    /// DATA REQUEST: appends a message to those that wait for the air of the channel; no-op if the
    /// channel isn't active.
    pub(crate) fn put(&mut self, channel: ChanNo, message: AirMessage) -> Result<(), Memory>
        ensures { OnOk result (self.new ≡ aired_on channel message self.old) }
    {
        if !self.is_active(channel) {
            return Ok(());
        }
        match self.channels.get_mut(usize::from(channel.octet())) {
            Some(channel) => channel.put(message),
            None => Ok(()),
        }
    }

    /// Takes the first message that waits for the air of the channel; `None` if no message waits.
    pub(crate) fn take(&mut self, channel: ChanNo) -> Option<AirMessage>
        ensures message { result ≡ first_in (spot_of self.old channel).air }
        ensures after { self.new ≡ taken_on channel self.old }
    {
        match self.channels.get_mut(usize::from(channel.octet())) {
            Some(channel) => channel.take(),
            None => None,
        }
    }

    /// ESTABLISH REQUEST: if `answer` is `true`, the data link of SAPI 3 is up and an ESTABLISH
    /// CONFIRM is made; otherwise the link is down and a RELEASE INDICATION is made.
    pub(crate) fn answer(&mut self, channel: ChanNo, answer: bool) -> Result<(), Memory>
        ensures { OnOk result (self.new ≡ answered_on answer channel self.old) }
    {
        self.set_sapi_three(channel, answer);
        let link = Link {
            channel,
            link: LinkId::short_messages(channel),
        };
        if answer {
            self.tell(Rsl::EstablishConfirm(link))
        } else {
            self.tell(Rsl::ReleaseIndication(link))
        }
    }
}
