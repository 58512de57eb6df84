// SPDX-License-Identifier: MIT OR Apache-2.0
ghost use Rattle.std.specs.Prelude.{◌≡◌, [], ◌∷◌, ◌++◌, OnOk, OnErr};
ghost use Rattle.bssmap_codec.specs.Layer3.{IsLayer3};
ghost use Rattle.conn_messages.specs.Out.{IsSound, outs_of};
ghost use Rattle.std.specs.List.{AllByRecursion};
ghost use Rattle.conn_messages.specs.StationMessage as words;
ghost use Rattle.conn_rules.specs.Steps.{hold_down, hold_short_message, short_message};
ghost use Rattle.conn_rules.specs.Table.{on_downlink};
ghost use Rattle.conn_fsm.specs.Doing.{Does, StepsOnOk, UnchangedOnErr, WantsForRow};

use crate::machine::Machine;
use conn_messages::causes::EQUIPMENT_FAILURE;
use conn_messages::station_message::{establish_request, handing};
use conn_messages::{Messages, Outputs};
use conn_rules::{DOWN_LIMIT, ShortMessageLink, Stage, State};
use dtap_codec::Sapi;
use hold_queue::HoldFault;
use octets::{Memory, Octets};

impl Machine {
    /// Does the row for a layer 3 message of the switch for the mobile. The message is held while
    /// the mobile is commanded to another channel; a message of SAPI 3 is also held while its link
    /// isn't up. Otherwise the message is handed at once. Returns whether a row fits.
    pub(crate) fn on_downlink(
        &mut self,
        sapi: Sapi,
        message: Octets,
        outputs: &mut Outputs,
    ) -> Result<bool, Memory>
        requires { IsLayer3 message }
        ensures done { StepsOnOk result (on_downlink self.old.state self.old sapi message)
            self.old self.new outputs.old.outs outputs.new.outs }
        ensures err { UnchangedOnErr result self.old self.new outputs.old.outs outputs.new.outs }
        ensures memory { WantsForRow result (on_downlink self.old.state self.old sapi message) }
    {
        let state = self.state;
        match (state, sapi) {
            (State::Live(_, Stage::Changing(_)), _) => self.hold_down(sapi, message, outputs)?,
            (State::Live(_, _), Sapi::Zero) => self.hand(sapi, message, outputs)?,
            (State::Live(_, _), Sapi::Three) => self.short_message(message, outputs)?,
            _ => return Ok(false),
        }
        Ok(true)
    }

    // Hands the message to the mobile on the serving channel.
    fn hand(&self, sapi: Sapi, message: Octets, outputs: &mut Outputs) -> Result<(), Memory>
        requires { IsLayer3 message }
        ensures done { OnOk result (outputs.new.outs ≡ outputs.old.outs
            ++ outs_of self.now.number (words.handing self.now.serving sapi message ∷ [])) }
        ensures sound { OnOk result
            (AllByRecursion IsSound (words.handing self.now.serving sapi message ∷ [])) }
        ensures err { OnErr result (outputs.new.outs ≡ outputs.old.outs) }
    {
        self.put_one(handing(&self.serving, sapi, message), outputs)
    }

    // Holds the message. If the hold is full, the connection fails.
    fn hold_down(
        &mut self,
        sapi: Sapi,
        message: Octets,
        outputs: &mut Outputs,
    ) -> Result<(), Memory>
        ensures done { OnOk result (Does (hold_down self.old.state sapi message self.old)
            self.old self.new outputs.old.outs outputs.new.outs) }
        ensures err { UnchangedOnErr result self.old self.new outputs.old.outs outputs.new.outs }
    {
        match self.down.put(sapi, message.into_vec()) {
            Ok(()) => Ok(()),
            Err(HoldFault::Full(_)) => self.fail(EQUIPMENT_FAILURE, outputs),
            Err(HoldFault::Memory(_)) => Err(Memory),
        }
    }

    // Hands a message of SAPI 3 if the link of SAPI 3 is up, else holds the message.
    fn short_message(&mut self, message: Octets, outputs: &mut Outputs) -> Result<(), Memory>
        requires { IsLayer3 message }
        ensures done { OnOk result (Does
            (short_message self.old.state self.old.link message self.old)
            self.old self.new outputs.old.outs outputs.new.outs) }
        ensures err { UnchangedOnErr result self.old self.new outputs.old.outs outputs.new.outs }
    {
        match self.link {
            ShortMessageLink::Up => self.hand(Sapi::Three, message, outputs),
            ShortMessageLink::Down | ShortMessageLink::Asked => {
                self.hold_short_message(message, outputs)
            }
        }
    }

    // Holds a message of SAPI 3, and asks for the link of SAPI 3 if the link is down. If the hold
    // is full, the connection fails. The request's frame is allocated before the message is held,
    // so that an allocation failure changes nothing.
    fn hold_short_message(&mut self, message: Octets, outputs: &mut Outputs) -> Result<(), Memory>
        ensures done { OnOk result (Does (hold_short_message self.old.state message self.old)
            self.old self.new outputs.old.outs outputs.new.outs) }
        ensures err { UnchangedOnErr result self.old self.new outputs.old.outs outputs.new.outs }
    {
        if self.down.is_full() {
            return self.fail(EQUIPMENT_FAILURE, outputs);
        }
        let mut put = Messages::new(self.alloc);
        if let ShortMessageLink::Down = self.link {
            put.push(establish_request(&self.serving))?;
        }
        let made = Outputs::made(self.alloc, self.number, &put)?;
        outputs.reserve(made.len())?;
        self.down
            .put(Sapi::Three, message.into_vec())
            .map_err(|_| Memory)?;
        outputs.append(made);
        self.link = ShortMessageLink::Asked;
        Ok(())
    }
}
