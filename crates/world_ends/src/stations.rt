// SPDX-License-Identifier: MIT OR Apache-2.0
ghost use Rattle.std.specs.Prelude.{◌≡◌, ◌≢◌, ◌-◌, length, Some, true, OnOk, IfOk};
ghost use Rattle.std.specs.Prelude.{IfSome, option_map, slice_get};
ghost use Rattle.dtap_codec.specs.declared.report.TheConstants.{REPORT_LENGTH};
ghost use Rattle.link_model.specs.Base.{first_message, is_told};
ghost use Rattle.rsl_codec.specs.Rsl.{IsL3};
ghost use Rattle.world_model.specs.declared.limits.TheConstants.{MAX_TENURE};
ghost use Rattle.world_model.specs.Lists.{first_in};
ghost use Rattle.world_model.specs.World.{stations_from};
ghost use Rattle.world_ends.specs.Stations.{activated_on, aired_on, answered_on};
ghost use Rattle.world_ends.specs.Stations.{at_channel, brought_on, established_on};
ghost use Rattle.world_ends.specs.Stations.{given_on, is_active_in, is_present, left_on};
ghost use Rattle.world_ends.specs.Stations.{released_on, reported_on, at_station, silenced};
ghost use Rattle.world_ends.specs.Stations.{spot_in, station_in, taken_on, station_after_message};
ghost use Rattle.world_ends.specs.Written.{IsWritten};

use crate::base_station::BaseStation;
use conn_messages::Place;
use dtap_codec::Sapi;
use octets::Memory;
use rsl_codec::Rsl;
use settings::Settings;
use std::alloc::Global;
use std::marker::Model;
use world_model::{AirMessage, Tenure};

/// The base stations of a world, one for each cell of the settings, with numbers from 1 on. A call
/// with a greater number than the last station's changes nothing; number 0 stands for station 1. An
/// `Err` is an allocation failure, after which nothing is known of the stations.
#[derive(Drop)]
pub struct Stations {
    stations: Vec<BaseStation>,
}

impl Model for Stations {
    ghost use Rattle.std.specs.Prelude.{List};
    ghost use Rattle.world_model.specs.World.{Station};

    ghost Value = { List Station };

    ghost view = { λ s. s.stations.items };
}

impl Stations {
    /// The stations of these settings; none of their channels was ever active.
    pub fn new(alloc: Global, settings: &Settings) -> Result<Stations, Memory>
        ensures { IfOk result (λ s. s ≡ stations_from 1 settings.now.cells) }
    {
        let mut stations = Vec::new(alloc);
        for cell in 0..u16::from(settings.cell_count()) {
            stations.push(BaseStation::new(alloc, cell + 1)?)?;
        }
        Ok(Stations { stations })
    }

    /// Whether the channel is active.
    pub fn is_active(&self, at: &Place) -> bool
        ensures { result ≡ is_active_in self.now at.now }
    {
        match self.stations.get(place_of(at.station)) {
            Some(station) => station.is_active(at.number),
            None => false,
        }
    }

    /// The number of the last tenure of a channel; 0 before the first tenure.
    pub fn last_tenure(&self, at: &Place) -> u64
        ensures { result ≡ (spot_in self.now at.now).tenure }
    {
        match self.stations.get(place_of(at.station)) {
            Some(station) => station.tenure(at.number),
            None => 0,
        }
    }

    /// Whether the channel of this tenure is active and the tenure is its last one.
    pub fn is_present(&self, tenure: &Tenure) -> bool
        ensures { result ≡ is_present self.now tenure.now }
    {
        self.is_active(&tenure.at) && self.last_tenure(&tenure.at) == tenure.number
    }

    /// The station makes this message for the controller. Assumes: the message is a CHANNEL
    /// REQUIRED, HANDOVER DETECTION, MEASUREMENT RESULT, ESTABLISH CONFIRM or RELEASE INDICATION,
    /// and can be written.
    pub fn tell(&mut self, station: u16, message: Rsl) -> Result<(), Memory>
        requires told { is_told message ≡ true }
        requires written { IsWritten message }
        ensures { OnOk result
            (self.new ≡ at_station station (station_after_message message) self.old) }
    {
        match self.stations.get_mut(place_of(station)) {
            Some(station) => station.tell(message),
            None => Ok(()),
        }
    }

    /// The station takes a frame of a mobile on a channel. On SAPI 0 an ESTABLISH INDICATION brings
    /// the frame if `opens`, since it is then the initial message, and otherwise a DATA INDICATION.
    /// On SAPI 3 a DATA INDICATION brings the frame; if the data link isn't up, an ESTABLISH
    /// INDICATION comes before it. Assumes: the channel is active, and the frame has 1 to 251
    /// octets.
    pub fn bring(&mut self, at: &Place, opens: bool, sapi: Sapi, frame: &[u8]) -> Result<(), Memory>
        requires active { is_active_in self.old at.now ≡ true }
        requires l3 { IsL3 (Some frame.now) }
        ensures { OnOk result (self.new ≡
            at_channel at.now (λ channel. brought_on channel opens sapi frame.now) self.old) }
    {
        match self.stations.get_mut(place_of(at.station)) {
            Some(station) => station.bring(at.number, opens, sapi, frame),
            None => Ok(()),
        }
    }

    /// The station makes an ESTABLISH INDICATION without a message, since a mobile establishes the
    /// data link of SAPI 0 on the channel. Assumes: the channel is active.
    pub fn establish(&mut self, at: &Place) -> Result<(), Memory>
        requires { is_active_in self.old at.now ≡ true }
        ensures { OnOk result (self.new ≡ at_channel at.now established_on self.old) }
    {
        match self.stations.get_mut(place_of(at.station)) {
            Some(station) => station.establish(at.number, Sapi::Zero),
            None => Ok(()),
        }
    }

    /// A mobile leaves the channel: discards the messages that wait for the air, and takes the data
    /// link of SAPI 3 down.
    pub fn leave(&mut self, at: &Place)
        ensures { self.new ≡ at_channel at.now left_on self.old }
    {
        if let Some(station) = self.stations.get_mut(place_of(at.station)) {
            station.leave(at.number);
        }
    }

    /// The station makes a MEASUREMENT RESULT with this measurement report and the count of reports
    /// before it in the tenure, modulo 256. Assumes: the report has 16 octets (`REPORT_LENGTH`).
    pub fn report(&mut self, at: &Place, report: &[u8]) -> Result<(), Memory>
        requires { length report.now ≡ REPORT_LENGTH }
        ensures { OnOk result (self.new ≡
            at_channel at.now (λ channel. reported_on channel report.now) self.old) }
    {
        match self.stations.get_mut(place_of(at.station)) {
            Some(station) => station.report(at.number, report),
            None => Ok(()),
        }
    }

    /// Takes the first message that waits for the air of a channel; `None` if no message waits.
    pub fn take(&mut self, at: &Place) -> Option<AirMessage>
        ensures message { result ≡ first_in (spot_in self.old at.now).air }
        ensures after { self.new ≡ at_channel at.now taken_on self.old }
    {
        match self.stations.get_mut(place_of(at.station)) {
            Some(station) => station.take(at.number),
            None => None,
        }
    }

    /// CHANNEL ACTIVATION: begins a new tenure of the channel and makes a CHANNEL ACTIVATION ACK;
    /// no-op if the channel is active. Assumes: the number of the channel's last tenure isn't
    /// `MAX_TENURE`.
    pub fn activate(&mut self, at: &Place) -> Result<(), Memory>
        requires { (spot_in self.old at.now).tenure ≢ MAX_TENURE }
        ensures { OnOk result (self.new ≡ at_channel at.now activated_on self.old) }
    {
        match self.stations.get_mut(place_of(at.station)) {
            Some(station) => station.activate(at.number),
            None => Ok(()),
        }
    }

    /// DATA REQUEST: appends a message to those that wait for the air of the channel; no-op if the
    /// channel isn't active.
    pub fn put(&mut self, at: &Place, message: AirMessage) -> Result<(), Memory>
        ensures { OnOk result (self.new ≡
            at_channel at.now (λ channel. aired_on channel message) self.old) }
    {
        match self.stations.get_mut(place_of(at.station)) {
            Some(station) => station.put(at.number, message),
            None => Ok(()),
        }
    }

    /// ESTABLISH REQUEST: if `answer` is `true`, the data link of SAPI 3 is up and an ESTABLISH
    /// CONFIRM is made; otherwise the link is down and a RELEASE INDICATION is made.
    pub fn answer(&mut self, at: &Place, answer: bool) -> Result<(), Memory>
        ensures { OnOk result (self.new ≡ at_channel at.now (answered_on answer) self.old) }
    {
        match self.stations.get_mut(place_of(at.station)) {
            Some(station) => station.answer(at.number, answer),
            None => Ok(()),
        }
    }

    /// RF CHANNEL RELEASE: ends the tenure of the channel, if it has one, and makes an RF CHANNEL
    /// RELEASE ACK. Discards the messages that wait for the air, and takes the data link of SAPI 3
    /// down.
    pub fn release(&mut self, at: &Place) -> Result<(), Memory>
        ensures { OnOk result (self.new ≡ at_channel at.now released_on self.old) }
    {
        match self.stations.get_mut(place_of(at.station)) {
            Some(station) => station.release(at.number),
            None => Ok(()),
        }
    }

    /// Gives out the oldest message that the station made and hasn't given out yet, which can be
    /// written; `None` if there is no such message.
    pub fn next(&mut self, station: u16) -> Option<Rsl>
        ensures message { result ≡ first_message (station_in self.old station).base }
        ensures written { IfSome result IsWritten }
        ensures after { self.new ≡ at_station station given_on self.old }
    {
        match self.stations.get_mut(place_of(station)) {
            Some(station) => station.next(),
            None => None,
        }
    }

    /// How many messages the station made and hasn't given out yet.
    pub fn made_count(&self, station: u16) -> usize
        ensures { result ≡ length (station_in self.now station).base.messages }
    {
        match self.stations.get(place_of(station)) {
            Some(station) => station.made_count(),
            None => 0,
        }
    }

    /// The message at `place`, counted from 0, among those that the station hasn't given out yet,
    /// which can be written; `None` if there is no such place.
    pub fn made_at(&self, station: u16, place: usize) -> Option<&Rsl>
        ensures message { option_map (λ m. m.now) result
            ≡ slice_get (station_in self.now station).base.messages place }
        ensures written { IfSome (option_map (λ m. m.now) result) IsWritten }
    {
        match self.stations.get(place_of(station)) {
            Some(station) => station.made_at(place),
            None => None,
        }
    }

    /// Discards the messages that the station hasn't given out yet, since its link broke.
    pub fn take_down(&mut self, station: u16)
        ensures { self.new ≡ at_station station silenced self.old }
    {
        if let Some(station) = self.stations.get_mut(place_of(station)) {
            station.take_down();
        }
    }
}

// The place of the station with this number, counted from 0.
fn place_of(station: u16) -> usize
    ensures { result ≡ station - 1 }
{
    usize::from(station).saturating_sub(1)
}
