// SPDX-License-Identifier: MIT OR Apache-2.0
ghost use Rattle.std.specs.Prelude.{◌≡◌, IfOk, IsSome, OnErr, OnOk, Some};
ghost use Rattle.link_model.specs.Base.{first_message};
ghost use Rattle.world_model.specs.Relay.{after_base_push, after_break, after_tick};
ghost use Rattle.world_model.specs.Relay.{pushed_by_station, pushed_by_switch};
ghost use Rattle.world_model.specs.Takes.{Takes};
ghost use Rattle.world_model.specs.World.{base_of};

use crate::Network;
use conn_messages::SWITCH_LINK;
use octets::Memory;

/// Events at the controller and its queues.
impl Network {
    /// `ms` milliseconds pass for the controller, and the controller's outputs join the outboxes.
    pub fn tick(&mut self, ms: u32) -> Result<(), Memory>
        ensures { OnOk result (after_tick self.old ms ≡ Some self.new) }
    {
        self.relay.tick(ms)
    }

    /// The first item that a source made moves to the end of the inbox. Returns whether there was
    /// such an item; if not, nothing changes.
    pub fn base_push(&mut self, source: u16) -> Result<bool, Memory>
        ensures ok { IfOk result (λ taken.
            Takes self.old (after_base_push self.old source) taken self.new) }
        ensures memory { OnErr result (IsSome (after_base_push self.old source)) }
    {
        if source == SWITCH_LINK {
            self.switch_pushes()
        } else {
            self.station_pushes(source)
        }
    }

    fn switch_pushes(&mut self) -> Result<bool, Memory>
        ensures ok { IfOk result (λ taken.
            Takes self.old (pushed_by_switch self.old.switch_made self.old) taken self.new) }
        ensures memory { OnErr result (IsSome (pushed_by_switch self.old.switch_made self.old)) }
    {
        match self.switch.next() {
            Some(message) => {
                let pushed = self.relay.push_from_switch(&message);
                drop(message);
                pushed?;
                Ok(true)
            }
            None => Ok(false),
        }
    }

    fn station_pushes(&mut self, station: u16) -> Result<bool, Memory>
        ensures ok { IfOk result (λ taken. Takes self.old
            (pushed_by_station station (first_message (base_of self.old station)) self.old)
            taken self.new) }
        ensures memory { OnErr result (IsSome
            (pushed_by_station station (first_message (base_of self.old station)) self.old)) }
    {
        match self.stations.next(station) {
            Some(message) => {
                let pushed = self.relay.push_from_station(station, &message);
                drop(message);
                pushed?;
                Ok(true)
            }
            None => Ok(false),
        }
    }

    /// The link of a source breaks. The entries of the link's outbox are lost, and so are the items
    /// of the source that aren't in the inbox yet. The break is appended to the inbox. Returns
    /// whether the link was up; if not, nothing changes.
    pub fn break_down(&mut self, source: u16) -> Result<bool, Memory>
        ensures ok { IfOk result (λ taken.
            Takes self.old (after_break self.old source) taken self.new) }
        ensures memory { OnErr result (IsSome (after_break self.old source)) }
    {
        if !self.is_up(source) {
            return Ok(false);
        }
        if source == SWITCH_LINK {
            self.switch.take_down();
        } else {
            self.stations.take_down(source);
        }
        self.relay.break_down(source)?;
        Ok(true)
    }
}
