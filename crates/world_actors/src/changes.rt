// SPDX-License-Identifier: MIT OR Apache-2.0
ghost use Rattle.std.specs.Prelude.{◌≡◌, IfOk, IsSome, OnErr};
ghost use Rattle.world_model.specs.Mobiles.{after_arriving, after_move, after_return};
ghost use Rattle.world_model.specs.Mobiles.{after_touch, is_to_handover};
ghost use Rattle.world_model.specs.Takes.{Takes};
ghost use Rattle.world_actors.specs.Seats.{moving_from, of_seat, commanded_from};

use crate::Network;
use crate::departure::Departure;
use conn_messages::Change;
use octets::Memory;
use rsl_codec::{Detection, Rsl};
use world_model::Seat;

/// Mobiles change their channels.
impl Network {
    // The departure to which a mobile was commanded; `None` if there is no command, or the mobile
    // isn't reached on its channel.
    fn departure_of(&self, mobile: u8) -> Option<Departure>
        ensures { result ≡ of_seat (commanded_from self.now) self.now mobile }
    {
        match self.mobiles.get(mobile) {
            Some(mobile) => self.departure_from(mobile.seat()),
            None => None,
        }
    }

    fn departure_from(&self, seat: Seat) -> Option<Departure>
        ensures { result ≡ commanded_from self.now seat }
    {
        match seat {
            Seat::On {
                tenure,
                command: Some(command),
            } => {
                if self.is_reached(&tenure) {
                    Some(Departure {
                        from: tenure,
                        command,
                    })
                } else {
                    None
                }
            }
            _ => None,
        }
    }

    // The departure of a mobile that left its channel; `None` unless the mobile is between two
    // channels.
    fn moving(&self, mobile: u8) -> Option<Departure>
        ensures { result ≡ of_seat moving_from self.now mobile }
    {
        match self.mobiles.get(mobile) {
            Some(mobile) => moving_from(mobile.seat()),
            None => None,
        }
    }

    /// A mobile leaves its channel as it was commanded. Returns whether the event was taken. It
    /// isn't taken if the mobile wasn't commanded, or isn't reached.
    pub fn leave(&mut self, mobile: u8) -> bool
        ensures { Takes self.old (after_move self.old mobile) result self.new }
    {
        let Some(departure) = self.departure_of(mobile) else {
            return false;
        };
        self.stations.leave(&departure.from.at);
        self.mobiles
            .leave(mobile, departure.from, departure.command);
        true
    }

    /// A mobile is heard on the target channel of a handover, and the target's station makes a
    /// HANDOVER DETECTION. Returns whether the event was taken. It is taken only if the mobile is
    /// between two channels in a handover, and the target is the present tenure of its channel,
    /// whose station is up.
    pub fn touch(&mut self, mobile: u8) -> Result<bool, Memory>
        ensures ok { IfOk result (λ taken.
            Takes self.old (after_touch self.old mobile) taken self.new) }
        ensures memory { OnErr result (IsSome (after_touch self.old mobile)) }
    {
        let Some(departure) = self.moving(mobile) else {
            return Ok(false);
        };
        let target = departure.command.target;
        if !is_to_handover(departure.command.change) {
            return Ok(false);
        }
        if !self.is_reached(&target) {
            return Ok(false);
        }
        let detection = Detection {
            channel: target.at.number,
            access_delay: None,
        };
        self.stations
            .tell(target.at.station, Rsl::HandoverDetection(detection))?;
        Ok(true)
    }

    /// A mobile arrives on the channel to which it was commanded. Returns whether the event was
    /// taken. It is taken only if the mobile is between two channels, and the target is the present
    /// tenure of its channel, whose station is up.
    pub fn arrive(&mut self, mobile: u8) -> Result<bool, Memory>
        ensures ok { IfOk result (λ taken.
            Takes self.old (after_arriving self.old mobile) taken self.new) }
        ensures memory { OnErr result (IsSome (after_arriving self.old mobile)) }
    {
        let Some(departure) = self.moving(mobile) else {
            return Ok(false);
        };
        let command = departure.command;
        if !self.is_reached(&command.target) {
            return Ok(false);
        }
        self.stations.establish(&command.target.at)?;
        self.mobiles.arrive(mobile, command.target, command.change)?;
        Ok(true)
    }

    /// A mobile returns to the channel that it left. Returns whether the event was taken. It is
    /// taken only if the mobile is between two channels, and the tenure that the mobile left is the
    /// present one of its channel, whose station is up.
    pub fn give_up(&mut self, mobile: u8) -> Result<bool, Memory>
        ensures ok { IfOk result (λ taken.
            Takes self.old (after_return self.old mobile) taken self.new) }
        ensures memory { OnErr result (IsSome (after_return self.old mobile)) }
    {
        let Some(departure) = self.moving(mobile) else {
            return Ok(false);
        };
        let from = departure.from;
        if !self.is_reached(&from) {
            return Ok(false);
        }
        self.stations.establish(&from.at)?;
        self.mobiles
            .give_up(mobile, from, departure.command.change)?;
        Ok(true)
    }
}

fn moving_from(seat: Seat) -> Option<Departure>
    ensures { result ≡ moving_from seat }
{
    match seat {
        Seat::Moving { from, command } => Some(Departure { from, command }),
        _ => None,
    }
}

fn is_to_handover(change: Change) -> bool
    ensures { result ≡ is_to_handover change }
{
    match change {
        Change::Handover => true,
        Change::Assignment => false,
    }
}
