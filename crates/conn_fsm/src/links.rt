// SPDX-License-Identifier: MIT OR Apache-2.0
ghost use Rattle.std.specs.Prelude.{◌≡◌, [], ◌∷◌, ◌++◌, Some, OnOk};
ghost use Rattle.conn_rules.specs.declared.state.ShortMessageLink.TheVariants.{Asked};
ghost use Rattle.conn_rules.specs.Validity.{IsValid};
ghost use Rattle.conn_rules.specs.Steps.{link_down, link_up};
ghost use Rattle.conn_rules.specs.Table.{access, on_connection_failure, on_error_indication};
ghost use Rattle.conn_rules.specs.Table.{on_establish_confirm, on_establish_indication};
ghost use Rattle.conn_rules.specs.Table.{on_release_indication};
ghost use Rattle.conn_fsm.specs.Doing.{Does, IsInitial, StepsOnOk, UnchangedOnErr, WantsForRow};

use crate::machine::Machine;
use crate::places::is_at;
use bssmap_codec::Reference;
use conn_messages::causes::RADIO_INTERFACE_FAILURE;
use conn_messages::switch_message::{complete_layer3, sapi_3_reject};
use conn_messages::{Messages, Outputs, Place};
use conn_rules::{ShortMessageLink, Stage, State};
use dtap_codec::Sapi;
use octets::{INITIAL_LIMIT, Memory, Octets};

impl Machine {
    // ---- access

    /// Does the row for ESTABLISH INDICATION. Returns whether a row fits.
    pub(crate) fn on_establish_indication(
        &mut self,
        at: Place,
        sapi: Sapi,
        message: Option<Octets>,
        outputs: &mut Outputs,
    ) -> Result<bool, Memory>
        requires valid { IsValid self.old }
        requires layer3 { IsInitial message }
        ensures done { StepsOnOk result
            (on_establish_indication self.old.state self.old at sapi message)
            self.old self.new outputs.old.outs outputs.new.outs }
        ensures err { UnchangedOnErr result self.old self.new outputs.old.outs outputs.new.outs }
        ensures memory { WantsForRow result
            (on_establish_indication self.old.state self.old at sapi message) }
    {
        if !is_at(&at, &self.serving) {
            return Ok(false);
        }
        let state = self.state;
        match (state, sapi) {
            (State::WaitEstablish, Sapi::Zero) => {
                self.access(message, outputs)?;
                Ok(true)
            }
            (State::Live(_, Stage::Changing(_)), _) => Ok(false),
            (State::Live(_, _), Sapi::Three) => {
                self.link_up(outputs)?;
                Ok(true)
            }
            _ => Ok(false),
        }
    }

    // Opens a connection to the switch with the initial message. Drops the connection if there is
    // no initial message or it is too long.
    fn access(&mut self, message: Option<Octets>, outputs: &mut Outputs) -> Result<(), Memory>
        requires { IsInitial message }
        ensures done { OnOk result (Does (access message self.old)
            self.old self.new outputs.old.outs outputs.new.outs) }
        ensures err { UnchangedOnErr result self.old self.new outputs.old.outs outputs.new.outs }
    {
        match message {
            Some(initial) if initial.len() <= INITIAL_LIMIT => {
                let message = complete_layer3(self.alloc, &self.serving, initial.as_slice())?;
                self.put_one(message, outputs)?;
                self.enter(State::WaitConfirm);
                Ok(())
            }
            _ => self.drop_channel(outputs),
        }
    }

    // ---- the link of SAPI 3

    /// Notes that the link of SAPI 3 is up, and hands the held messages of SAPI 3.
    fn link_up(&mut self, outputs: &mut Outputs) -> Result<(), Memory>
        requires { IsValid self.old }
        ensures done { OnOk result (Does (link_up self.old)
            self.old self.new outputs.old.outs outputs.new.outs) }
        ensures err { UnchangedOnErr result self.old self.new outputs.old.outs outputs.new.outs }
    {
        let mut put = Messages::new(self.alloc);
        self.put_held(&self.serving, Sapi::Three, &mut put)?;
        self.put(&put, outputs)?;
        self.link = ShortMessageLink::Up;
        self.down.clear_sapi(Sapi::Three);
        Ok(())
    }

    /// Notes that the link of SAPI 3 is down. If the link was asked for, puts SAPI N REJECT and
    /// drops the held messages of SAPI 3.
    fn link_down(&mut self, reference: Reference, outputs: &mut Outputs) -> Result<(), Memory>
        ensures done { OnOk result (Does (link_down self.old.link reference self.old)
            self.old self.new outputs.old.outs outputs.new.outs) }
        ensures err { UnchangedOnErr result self.old self.new outputs.old.outs outputs.new.outs }
    {
        if let ShortMessageLink::Asked = self.link {
            let mut put = Messages::new(self.alloc);
            put.push(sapi_3_reject(self.alloc, reference, &self.serving)?)?;
            self.put(&put, outputs)?;
            self.down.clear_sapi(Sapi::Three);
        }
        self.link = ShortMessageLink::Down;
        Ok(())
    }

    /// Does the row for ESTABLISH CONFIRM. Returns whether a row fits.
    pub(crate) fn on_establish_confirm(
        &mut self,
        at: Place,
        sapi: Sapi,
        outputs: &mut Outputs,
    ) -> Result<bool, Memory>
        requires { IsValid self.old }
        ensures done { StepsOnOk result (on_establish_confirm self.old.state self.old at sapi)
            self.old self.new outputs.old.outs outputs.new.outs }
        ensures err { UnchangedOnErr result self.old self.new outputs.old.outs outputs.new.outs }
        ensures memory { WantsForRow result (on_establish_confirm self.old.state self.old at sapi) }
    {
        let ShortMessageLink::Asked = self.link else {
            return Ok(false);
        };
        if !is_at(&at, &self.serving) {
            return Ok(false);
        }
        let state = self.state;
        match (state, sapi) {
            (State::Live(_, Stage::Changing(_)), _) => Ok(false),
            (State::Live(_, _), Sapi::Three) => {
                self.link_up(outputs)?;
                Ok(true)
            }
            _ => Ok(false),
        }
    }

    /// Does the row for ERROR INDICATION. Returns whether a row fits.
    pub(crate) fn on_error_indication(
        &mut self,
        at: Place,
        sapi: Sapi,
        outputs: &mut Outputs,
    ) -> Result<bool, Memory>
        ensures done { StepsOnOk result (on_error_indication self.old.state self.old at sapi)
            self.old self.new outputs.old.outs outputs.new.outs }
        ensures err { UnchangedOnErr result self.old self.new outputs.old.outs outputs.new.outs }
        ensures memory { WantsForRow result (on_error_indication self.old.state self.old at sapi) }
    {
        if !is_at(&at, &self.serving) {
            return Ok(false);
        }
        let state = self.state;
        let State::Live(reference, stage) = state else {
            return Ok(false);
        };
        match (stage, sapi) {
            (Stage::Changing(_), _) | (_, Sapi::Zero) => Ok(false),
            (_, Sapi::Three) => {
                self.link_down(reference, outputs)?;
                Ok(true)
            }
        }
    }

    // ---- messages of stations that may end the connection

    /// Does the row for RELEASE INDICATION. Returns whether a row fits.
    pub(crate) fn on_release_indication(
        &mut self,
        at: Place,
        sapi: Sapi,
        outputs: &mut Outputs,
    ) -> Result<bool, Memory>
        ensures done { StepsOnOk result (on_release_indication self.old.state self.old at sapi)
            self.old self.new outputs.old.outs outputs.new.outs }
        ensures err { UnchangedOnErr result self.old self.new outputs.old.outs outputs.new.outs }
        ensures memory { WantsForRow result
            (on_release_indication self.old.state self.old at sapi) }
    {
        match sapi {
            Sapi::Zero => self.on_connection_failure(at, outputs),
            Sapi::Three => self.on_error_indication(at, sapi, outputs),
        }
    }

    /// Does the row for CONNECTION FAILURE, which is also the row for RELEASE INDICATION of SAPI 0.
    /// Returns whether a row fits.
    pub(crate) fn on_connection_failure(
        &mut self,
        at: Place,
        outputs: &mut Outputs,
    ) -> Result<bool, Memory>
        ensures done { StepsOnOk result (on_connection_failure self.old.state self.old at)
            self.old self.new outputs.old.outs outputs.new.outs }
        ensures err { UnchangedOnErr result self.old self.new outputs.old.outs outputs.new.outs }
        ensures memory { WantsForRow result (on_connection_failure self.old.state self.old at) }
    {
        if !is_at(&at, &self.serving) {
            return Ok(false);
        }
        let state = self.state;
        match state {
            State::WaitEstablish => self.drop_channel(outputs)?,
            State::Live(_, Stage::Changing(_)) => return Ok(false),
            State::WaitConfirm | State::Live(_, _) => self.fail(RADIO_INTERFACE_FAILURE, outputs)?,
            State::WaitActivation | State::Closed(_) | State::Removed => return Ok(false),
        }
        Ok(true)
    }
}
