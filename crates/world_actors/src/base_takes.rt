// SPDX-License-Identifier: MIT OR Apache-2.0
ghost use Rattle.std.specs.Prelude.{◌≡◌, ◌≢◌, ◌&&◌, if◌then◌else◌, false};
ghost use Rattle.std.specs.Prelude.{IfOk, IsSome, Ok, OnErr, OnOk, Some};
ghost use Rattle.controller_model.specs.Controller.{place_at};
ghost use Rattle.dtap_codec.specs.RrReading.{rr_reading};
ghost use Rattle.rsl_codec.specs.ChannelNumber.{is_channel};
ghost use Rattle.world_ends.specs.Activations.{activated_by};
ghost use Rattle.world_model.specs.declared.limits.TheConstants.{MAX_TENURE as LAST};
ghost use Rattle.world_model.specs.Lists.{first_in};
ghost use Rattle.world_model.specs.Stations.{accepts, activated, after_base_takes, aired};
ghost use Rattle.world_model.specs.Stations.{asked_for_link, assigned, assigned_to};
ghost use Rattle.world_model.specs.Stations.{mobile_on, released, rsl_in as message_in, took};
ghost use Rattle.world_model.specs.Takes.{Takes};
ghost use Rattle.world_model.specs.World.{is_active_at, mobile_of, outbox_of, spot_at, tenure_at};
ghost use Rattle.world_actors.specs.Seats.{is_asking, is_asking_by};
ghost use Rattle.world_actors.specs.Taking.{can_take, is_spent};

use crate::Network;
use conn_messages::Place;
use dtap_codec::{RrFault, RrMessage};
use octets::Memory;
use rsl_codec::{ChanNo, Rsl};
use world_ends::{activated_in, rsl_in};
use world_model::{AirMessage, MAX_TENURE, OutboxEntry, Seat, Tenure};

/// Stations take frames from the controller.
impl Network {
    /// A station takes the first line of its outbox. Returns whether the event was taken. It isn't
    /// taken if the station isn't up, if its outbox is empty, or if the line activates a channel
    /// that had its last tenure, number `MAX_TENURE`.
    pub fn base_takes(&mut self, station: u16) -> Result<bool, Memory>
        ensures ok { IfOk result (λ taken.
            Takes self.old (after_base_takes self.old station) taken self.new) }
        ensures memory { OnErr result (IsSome (after_base_takes self.old station)) }
    {
        if !self.is_station_up(station) {
            return Ok(false);
        }
        if !self.can_take(station) {
            return Ok(false);
        }
        match self.relay.take_entry(station) {
            Some(entry) => {
                self.take_line(station, entry)?;
                Ok(true)
            }
            None => Ok(false),
        }
    }

    // Whether the station's outbox has a first line that the station can take.
    fn can_take(&self, station: u16) -> bool
        ensures { result ≡ can_take self.now station (first_in (outbox_of self.now station)) }
    {
        match self.relay.first_entry(station) {
            Some(entry) => !self.is_spent(station, activated_in(&entry.out.frame)),
            None => false,
        }
    }

    // Whether `activated`, the channel that is to be activated, had its last tenure.
    fn is_spent(&self, station: u16, activated: Option<ChanNo>) -> bool
        ensures { result ≡ is_spent self.now station activated }
    {
        match activated {
            Some(number) => self.last_tenure(Place { station, number }).number == MAX_TENURE,
            None => false,
        }
    }

    fn take_line(&mut self, station: u16, line: OutboxEntry) -> Result<(), Memory>
        requires { is_spent self.old station (activated_by (message_in line.out.frame)) ≡ false }
        ensures { OnOk result
            (took station line.target (message_in line.out.frame) self.old ≡ Some self.new) }
    {
        let message = rsl_in(self.alloc, &line.out.frame)?;
        match message {
            Some(message) => self.take_message(station, line.target, message),
            None => Ok(()),
        }
    }

    fn take_message(
        &mut self,
        station: u16,
        target: Option<Tenure>,
        message: Rsl,
    ) -> Result<(), Memory>
        requires { is_spent self.old station (activated_by (Some message)) ≡ false }
        ensures { OnOk result (took station target (Some message) self.old ≡ Some self.new) }
    {
        match message {
            Rsl::ChannelActivation(activation) => {
                let number = activation.channel;
                self.activate(&Place { station, number })
            }
            Rsl::ImmediateAssignCommand(command) => {
                self.assign(station, command.information.as_slice())
            }
            Rsl::DataRequest(data) => {
                let number = data.channel;
                let message = data.l3;
                self.put(&Place { station, number }, AirMessage { message, target })
            }
            Rsl::EstablishRequest(link) => {
                let number = link.channel;
                self.answer(Place { station, number })
            }
            Rsl::RfChannelRelease(number) => self.release(&Place { station, number }),
            other => {
                drop(other);
                Ok(())
            }
        }
    }

    fn activate(&mut self, at: &Place) -> Result<(), Memory>
        requires { (spot_at self.old at.now).tenure ≢ LAST }
        ensures { OnOk result (self.new ≡ activated at.now self.old) }
    {
        self.stations.activate(at)
    }

    fn put(&mut self, at: &Place, message: AirMessage) -> Result<(), Memory>
        ensures { OnOk result (self.new ≡ aired at.now message self.old) }
    {
        self.stations.put(at, message)
    }

    // The station answers a request for the data link of SAPI 3. The answer confirms the link if
    // the channel is active and the channel's mobile accepts the link.
    fn answer(&mut self, at: Place) -> Result<(), Memory>
        ensures { OnOk result (self.new ≡ asked_for_link at self.old) }
    {
        let answer = self.accepts_link(at);
        self.stations.answer(&at, answer)
    }

    fn accepts_link(&self, at: Place) -> bool
        ensures { result ≡ (is_active_at self.now at
            && accepts (mobile_on self.now (tenure_at self.now at))) }
    {
        self.stations.is_active(&at) && self.mobiles.accepts_sapi_three(&self.last_tenure(at))
    }

    fn release(&mut self, at: &Place) -> Result<(), Memory>
        ensures { OnOk result (self.new ≡ released at.now self.old) }
    {
        self.stations.release(at)
    }

    // The station takes an IMMEDIATE ASSIGN COMMAND with this information.
    fn assign(&mut self, station: u16, information: &[u8]) -> Result<(), Memory>
        ensures { OnOk result (self.new ≡ assigned station (rr_reading information.now) self.old) }
    {
        match RrMessage::read(self.alloc, information) {
            Ok(message) => {
                self.assign_by(station, &message);
                Ok(())
            }
            Err(RrFault::Memory) => Err(Memory),
            Err(_) => Ok(()),
        }
    }

    fn assign_by(&mut self, station: u16, message: &RrMessage)
        ensures { self.new ≡ assigned station (Ok message.now) self.old }
    {
        match message {
            RrMessage::ImmediateAssignment {
                channel,
                request_reference,
                ..
            } => self.assign_on(request_reference[0], station, channel.channel.0),
            _ => {}
        }
    }

    // Puts a mobile that is asking for a channel on the channel whose number is `octet`. Does
    // nothing if `octet` is no channel number.
    fn assign_on(&mut self, mobile: u8, station: u16, octet: u8)
        ensures { self.new ≡ (if is_channel octet
            then assigned_to (mobile_of self.old mobile)
            (tenure_at self.old (place_at station octet)) self.old
            else self.old) }
    {
        match ChanNo::read(octet) {
            Ok(number) => self.assign_to(mobile, Place { station, number }),
            Err(_) => {}
        }
    }

    // Puts a mobile on the channel at `at`, if the mobile is asking for a channel.
    fn assign_to(&mut self, mobile: u8, at: Place)
        ensures { self.new ≡
            assigned_to (mobile_of self.old mobile) (tenure_at self.old at) self.old }
    {
        if self.is_asking(mobile) {
            let tenure = self.last_tenure(at);
            self.mobiles.assign(mobile, tenure);
        }
    }

    fn is_asking(&self, mobile: u8) -> bool
        ensures { result ≡ is_asking_by self.now mobile }
    {
        match self.mobiles.get(mobile) {
            Some(mobile) => is_asking(mobile.seat()),
            None => false,
        }
    }
}

fn is_asking(seat: Seat) -> bool
    ensures { result ≡ is_asking seat }
{
    match seat {
        Seat::Asking => true,
        _ => false,
    }
}
