// SPDX-License-Identifier: MIT OR Apache-2.0
ghost use Rattle.std.specs.Prelude.{◌≡◌, IfOk, IsSome, OnErr};
ghost use Rattle.world_model.specs.Mobiles.{after_air_ack, after_air_down};
ghost use Rattle.world_model.specs.Mobiles.{after_air_down_lost, after_report};
ghost use Rattle.world_model.specs.Takes.{Takes};
ghost use Rattle.world_actors.specs.Seats.{reached_by, reached_from};

use crate::Network;
use dtap_codec::{REPORT_LENGTH, Sapi};
use octets::Memory;
use world_model::{Seat, Tenure};

/// Frames between a mobile and the station of its channel. A mobile is reached if the tenure that
/// it is on is the channel's present tenure and the station is up.
impl Network {
    /// The tenure that a mobile is on, or `None` if the mobile isn't reached.
    pub(crate) fn reached_by(&self, mobile: u8) -> Option<Tenure>
        ensures { result ≡ reached_by self.now mobile }
    {
        match self.mobiles.get(mobile) {
            Some(mobile) => self.reached_from(mobile.seat()),
            None => None,
        }
    }

    fn reached_from(&self, seat: Seat) -> Option<Tenure>
        ensures { result ≡ reached_from self.now seat }
    {
        match seat {
            Seat::On { tenure, .. } => {
                if self.is_reached(&tenure) {
                    Some(tenure)
                } else {
                    None
                }
            }
            _ => None,
        }
    }

    /// The station acknowledges the frame that it took from a mobile on this SAPI. Returns whether
    /// the event was taken. It isn't taken if the mobile isn't reached, or if no frame on this SAPI
    /// waits for acknowledgement.
    pub fn air_ack(&mut self, mobile: u8, sapi: Sapi) -> bool
        ensures { Takes self.old (after_air_ack self.old mobile sapi) result self.new }
    {
        if self.reached_by(mobile).is_none() {
            return false;
        }
        self.mobiles.acknowledge(mobile, sapi)
    }

    /// A mobile takes the first message for it from the air. Returns whether the event was taken.
    /// It isn't taken if the mobile isn't reached, or if no message for the mobile is in the air.
    pub fn air_down(&mut self, mobile: u8) -> Result<bool, Memory>
        ensures ok { IfOk result (λ taken.
            Takes self.old (after_air_down self.old mobile) taken self.new) }
        ensures memory { OnErr result (IsSome (after_air_down self.old mobile)) }
    {
        let Some(tenure) = self.reached_by(mobile) else {
            return Ok(false);
        };
        match self.stations.take(&tenure.at) {
            Some(heard) => {
                self.mobiles.hear(mobile, heard)?;
                Ok(true)
            }
            None => Ok(false),
        }
    }

    /// The first message for a mobile is lost in the air. Returns whether the event was taken. It
    /// isn't taken if the mobile isn't reached, or if no message for the mobile is in the air.
    pub fn air_down_lost(&mut self, mobile: u8) -> bool
        ensures { Takes self.old (after_air_down_lost self.old mobile) result self.new }
    {
        let Some(tenure) = self.reached_by(mobile) else {
            return false;
        };
        self.stations.take(&tenure.at).is_some()
    }

    /// A measurement report of a mobile reaches the mobile's station. Returns whether the event was
    /// taken. It isn't taken if the mobile isn't reached, or if the report doesn't have 16 octets.
    pub fn report(&mut self, mobile: u8, report: &[u8]) -> Result<bool, Memory>
        ensures ok { IfOk result (λ taken.
            Takes self.old (after_report self.old mobile report.now) taken self.new) }
        ensures memory { OnErr result (IsSome (after_report self.old mobile report.now)) }
    {
        let Some(tenure) = self.reached_by(mobile) else {
            return Ok(false);
        };
        if report.len() != REPORT_LENGTH {
            return Ok(false);
        }
        self.stations.report(&tenure.at, report)?;
        Ok(true)
    }
}
