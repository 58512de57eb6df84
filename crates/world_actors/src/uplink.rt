// SPDX-License-Identifier: MIT OR Apache-2.0
ghost use Rattle.std.specs.Prelude.{◌≡◌, IfOk, IsSome, OnErr};
ghost use Rattle.world_model.specs.Mobiles.{after_air_up};
ghost use Rattle.world_model.specs.Takes.{Takes};
ghost use Rattle.world_actors.specs.Seats.{opens_by};

use crate::Network;
use dtap_codec::Sapi;
use octets::Memory;

/// Frames arrive from mobiles.
impl Network {
    /// The station takes the frame in the air from a mobile on this SAPI. Returns whether the event
    /// was taken. It isn't taken if the mobile isn't reached on its channel, or if no such frame is
    /// in the air.
    pub fn air_up(&mut self, mobile: u8, sapi: Sapi) -> Result<bool, Memory>
        ensures ok { IfOk result (λ taken.
            Takes self.old (after_air_up self.old mobile sapi) taken self.new) }
        ensures memory { OnErr result (IsSome (after_air_up self.old mobile sapi)) }
    {
        let Some(tenure) = self.reached_by(mobile) else {
            return Ok(false);
        };
        let opens = self.opens(mobile);
        match self.mobiles.frame(mobile, sapi)? {
            Some(frame) => {
                self.stations
                    .bring(&tenure.at, opens, sapi, frame.as_slice())?;
                Ok(true)
            }
            None => Ok(false),
        }
    }

    // Whether the next frame of a mobile on SAPI 0 is its initial message.
    fn opens(&self, mobile: u8) -> bool
        ensures { result ≡ opens_by self.now mobile }
    {
        match self.mobiles.get(mobile) {
            Some(mobile) => mobile.opens(),
            None => false,
        }
    }
}
