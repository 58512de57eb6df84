// SPDX-License-Identifier: MIT OR Apache-2.0
ghost use Rattle.std.specs.Prelude.{◌≡◌, [], ◌∷◌, ◌++◌};
ghost use Rattle.conn_rules.specs.declared.state.State.TheVariants.{Closed};
ghost use Rattle.conn_rules.specs.Validity.{IsValid};
ghost use Rattle.conn_rules.specs.Table.{on_cipher_mode_command, on_clear_command, on_confirm};
ghost use Rattle.conn_rules.specs.Table.{on_refused, on_released};
ghost use Rattle.conn_fsm.specs.Doing.{StepsOnOk, UnchangedOnErr, WantsForRow};

use crate::machine::Machine;
use bssmap_codec::Reference;
use conn_messages::causes::{ABNORMAL_RELEASE, NORMAL_EVENT};
use conn_messages::switch_message::{
    cipher_mode_reject, clear_complete, clear_request, release_complete,
};
use conn_messages::{Messages, Outputs};
use conn_rules::{Clearing, Stage, State};
use octets::Memory;

impl Machine {
    /// Does the row for CC: relays the messages that the mobile sent since the connection request.
    /// If the connection failed since then, asks the switch to clear the connection. Returns
    /// whether a row fits.
    pub(crate) fn on_confirm(
        &mut self,
        source: Reference,
        outputs: &mut Outputs,
    ) -> Result<bool, Memory>
        requires { IsValid self.old }
        ensures done { StepsOnOk result (on_confirm self.old.state self.old source)
            self.old self.new outputs.old.outs outputs.new.outs }
        ensures err { UnchangedOnErr result self.old self.new outputs.old.outs outputs.new.outs }
        ensures memory { WantsForRow result (on_confirm self.old.state self.old source) }
    {
        let state = self.state;
        match state {
            State::WaitConfirm => {
                let mut put = Messages::new(self.alloc);
                self.put_tenure(source, 0, &mut put)?;
                self.put(&put, outputs)?;
                self.enter(State::Live(source, Stage::Active));
                self.up.clear_first();
            }
            State::Closed(Clearing::Due(cause)) => {
                let message = clear_request(self.alloc, source, cause)?;
                self.put_one(message, outputs)?;
                self.enter(State::Closed(Clearing::Asked(source)));
            }
            _ => return Ok(false),
        }
        Ok(true)
    }

    /// Does the row for CREF. Returns whether a row fits.
    pub(crate) fn on_refused(&mut self, outputs: &mut Outputs) -> Result<bool, Memory>
        ensures done { StepsOnOk result (on_refused self.old.state self.old)
            self.old self.new outputs.old.outs outputs.new.outs }
        ensures err { UnchangedOnErr result self.old self.new outputs.old.outs outputs.new.outs }
        ensures memory { WantsForRow result (on_refused self.old.state self.old) }
    {
        let state = self.state;
        match state {
            State::WaitConfirm => self.end(ABNORMAL_RELEASE, State::Removed, outputs)?,
            State::Closed(Clearing::Due(_)) => self.empty(State::Removed),
            _ => return Ok(false),
        }
        Ok(true)
    }

    /// Does the row for RLSD: dismisses the mobile unless it was dismissed before, and puts RLC for
    /// `source`, the reference that the switch named. Returns whether a row fits.
    pub(crate) fn on_released(
        &mut self,
        source: Reference,
        outputs: &mut Outputs,
    ) -> Result<bool, Memory>
        ensures done { StepsOnOk result (on_released self.old.state self.old source)
            self.old self.new outputs.old.outs outputs.new.outs }
        ensures err { UnchangedOnErr result self.old self.new outputs.old.outs outputs.new.outs }
        ensures memory { WantsForRow result (on_released self.old.state self.old source) }
    {
        let state = self.state;
        let mut put = Messages::new(self.alloc);
        match state {
            State::WaitConfirm | State::Live(_, _) => self.put_end(ABNORMAL_RELEASE, &mut put)?,
            State::Closed(_) => {}
            State::WaitActivation | State::WaitEstablish | State::Removed => return Ok(false),
        }
        put.push(release_complete(source))?;
        self.put(&put, outputs)?;
        self.empty(State::Removed);
        Ok(true)
    }

    /// Does the row for CIPHER MODE COMMAND, which rejects the command. Returns whether a row fits.
    pub(crate) fn on_cipher_mode_command(&mut self, outputs: &mut Outputs) -> Result<bool, Memory>
        ensures done { StepsOnOk result (on_cipher_mode_command self.old.state self.old)
            self.old self.new outputs.old.outs outputs.new.outs }
        ensures err { UnchangedOnErr result self.old self.new outputs.old.outs outputs.new.outs }
        ensures memory { WantsForRow result (on_cipher_mode_command self.old.state self.old) }
    {
        let state = self.state;
        let State::Live(reference, _) = state else {
            return Ok(false);
        };
        let message = cipher_mode_reject(self.alloc, reference)?;
        self.put_one(message, outputs)?;
        Ok(true)
    }

    /// Does the row for CLEAR COMMAND: dismisses the mobile unless it was dismissed before, and
    /// puts CLEAR COMPLETE unless it was put before. Returns whether a row fits.
    pub(crate) fn on_clear_command(&mut self, outputs: &mut Outputs) -> Result<bool, Memory>
        ensures done { StepsOnOk result (on_clear_command self.old.state self.old)
            self.old self.new outputs.old.outs outputs.new.outs }
        ensures err { UnchangedOnErr result self.old self.new outputs.old.outs outputs.new.outs }
        ensures memory { WantsForRow result (on_clear_command self.old.state self.old) }
    {
        let state = self.state;
        match state {
            State::Live(reference, _) => {
                let mut put = Messages::new(self.alloc);
                self.put_end(NORMAL_EVENT, &mut put)?;
                put.push(clear_complete(reference))?;
                self.put(&put, outputs)?;
                self.empty(State::Closed(Clearing::Complete));
                Ok(true)
            }
            State::Closed(clearing) => self.clear_closed(clearing, outputs),
            _ => Ok(false),
        }
    }

    // Puts CLEAR COMPLETE for a closed connection if the switch confirmed the connection and CLEAR
    // COMPLETE wasn't put before. Returns whether it was put.
    fn clear_closed(&mut self, clearing: Clearing, outputs: &mut Outputs) -> Result<bool, Memory>
        ensures done { StepsOnOk result (on_clear_command (Closed clearing) self.old)
            self.old self.new outputs.old.outs outputs.new.outs }
        ensures err { UnchangedOnErr result self.old self.new outputs.old.outs outputs.new.outs }
        ensures memory { WantsForRow result (on_clear_command (Closed clearing) self.old) }
    {
        let Clearing::Asked(reference) = clearing else {
            return Ok(false);
        };
        self.put_one(clear_complete(reference), outputs)?;
        self.enter(State::Closed(Clearing::Complete));
        Ok(true)
    }
}
