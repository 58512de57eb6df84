// SPDX-License-Identifier: MIT OR Apache-2.0
ghost use Rattle.std.specs.Prelude.{◌≡◌, IfOk, IsSome, OnErr};
ghost use Rattle.world_model.specs.Life.{event_after};
ghost use Rattle.world_model.specs.Relay.{after_tick};
ghost use Rattle.world_model.specs.Takes.{Takes};

use crate::Network;
use octets::Memory;
use world_model::Event;

/// Events of every kind.
impl Network {
    /// Lets an event happen, and returns whether it was taken. An event that its actor can't take
    /// is a no-op. `Err` is an allocation failure, which is possible only for an event that can be
    /// taken.
    #[tactic(auto, unfolding(world_model::specs::Life::event_after))]
    pub fn step(&mut self, event: &Event) -> Result<bool, Memory>
        ensures ok { IfOk result (λ taken.
            Takes self.old (event_after self.old event.now) taken self.new) }
        ensures memory { OnErr result (IsSome (event_after self.old event.now)) }
    {
        match event {
            Event::Upper {
                mobile,
                sapi,
                message,
            } => self.upper(*mobile, *sapi, message.as_slice()),
            Event::Connect {
                mobile,
                station,
                initial,
                accepts_sapi_three,
            } => self.connect(*mobile, *station, initial.as_slice(), *accepts_sapi_three),
            Event::AirUp { mobile, sapi } => self.air_up(*mobile, *sapi),
            Event::AirAck { mobile, sapi } => Ok(self.air_ack(*mobile, *sapi)),
            Event::AirDown(mobile) => self.air_down(*mobile),
            Event::AirDownLost(mobile) => Ok(self.air_down_lost(*mobile)),
            Event::Move(mobile) => Ok(self.leave(*mobile)),
            Event::Touch(mobile) => self.touch(*mobile),
            Event::Arrive(mobile) => self.arrive(*mobile),
            Event::Return(mobile) => self.give_up(*mobile),
            Event::BaseTakes(station) => self.base_takes(*station),
            Event::BasePush(source) => self.base_push(*source),
            Event::Handle => self.handle(),
            Event::SwitchTakes => self.switch_takes(),
            Event::SwitchDoes(action) => self.switch_does(action),
            Event::Tick(ms) => self.pass(*ms),
            Event::BaseDown(source) => self.break_down(*source),
            Event::Report { mobile, report } => self.report(*mobile, report.as_slice()),
        }
    }

    fn pass(&mut self, ms: u32) -> Result<bool, Memory>
        ensures ok { IfOk result (λ taken. Takes self.old (after_tick self.old ms) taken self.new) }
        ensures memory { OnErr result (IsSome (after_tick self.old ms)) }
    {
        self.tick(ms)?;
        Ok(true)
    }
}
