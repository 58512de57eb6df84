// SPDX-License-Identifier: MIT OR Apache-2.0
ghost use Rattle.std.specs.Prelude.{◌≡◌, ◌&&◌, IfOk, IsSome, OnErr, OnOk};
ghost use Rattle.world_model.specs.Mobiles.{after_connecting, channel_required, with_message_made};
ghost use Rattle.world_model.specs.Takes.{Takes};
ghost use Rattle.world_actors.specs.Seats.{is_new_by};

use crate::Network;
use mobile_end::is_initial;
use octets::Memory;
use rsl_codec::{AccessDelay, ChanNo, ChannelRequired, RequestReference, Rsl};

/// New mobiles ask for a channel.
impl Network {
    /// A new mobile asks a station for a channel. `initial` is the message with which the mobile's
    /// connection will begin: a message of mobility management or of radio resource management.
    /// Returns whether the event was taken. It isn't taken if `initial` is no such message, if the
    /// station isn't up, or if the number `mobile` is 0 or already in use.
    pub fn connect(
        &mut self,
        mobile: u8,
        station: u16,
        initial: &[u8],
        accepts_sapi_three: bool,
    ) -> Result<bool, Memory>
        ensures ok { IfOk result (λ taken. Takes self.old
            (after_connecting self.old mobile station initial.now accepts_sapi_three)
            taken self.new) }
        ensures memory { OnErr result
            (IsSome (after_connecting self.old mobile station initial.now accepts_sapi_three)) }
    {
        if !self.is_new(mobile) {
            return Ok(false);
        }
        if !self.is_station_up(station) {
            return Ok(false);
        }
        if !is_initial(initial) {
            return Ok(false);
        }
        self.mobiles.connect(mobile, initial, accepts_sapi_three)?;
        self.ask(mobile, station)?;
        Ok(true)
    }

    fn is_new(&self, mobile: u8) -> bool
        ensures { result ≡ is_new_by self.now mobile }
    {
        mobile > 0 && self.mobiles.get(mobile).is_none()
    }

    // The station makes a CHANNEL REQUIRED whose request reference carries the mobile's number.
    fn ask(&mut self, mobile: u8, station: u16) -> Result<(), Memory>
        ensures { OnOk result
            (self.new ≡ with_message_made station (channel_required mobile) self.old) }
    {
        let required = ChannelRequired {
            channel: ChanNo::random_access(),
            reference: RequestReference {
                access: mobile,
                frame: 0,
            },
            access_delay: AccessDelay(0),
        };
        self.stations.tell(station, Rsl::ChannelRequired(required))
    }
}
