// SPDX-License-Identifier: MIT OR Apache-2.0
ghost use Rattle.std.specs.Prelude.{◌≡◌, ◌++◌, OnOk};
ghost use Rattle.conn_rules.specs.Steps.{dropping, ending, end_outs, failing, target_release};
ghost use Rattle.conn_fsm.specs.Doing.{Does, UnchangedOnErr};

use crate::machine::Machine;
use conn_messages::causes::ABNORMAL_RELEASE;
use conn_messages::station_message::{channel_release, rf_channel_release};
use conn_messages::switch_message::clear_request;
use conn_messages::{Messages, Outputs};
use conn_rules::{Clearing, Stage, State};
use octets::Memory;

impl Machine {
    /// Appends the RF CHANNEL RELEASE of the target to `put`, if there is a target.
    pub(crate) fn put_target_release(&self, put: &mut Messages) -> Result<(), Memory>
        ensures { OnOk result (put.new ≡ put.old ++ target_release self.now.state) }
    {
        let state = self.state;
        match state {
            State::Live(_, Stage::Preparing(target) | Stage::Changing(target)) => {
                put.push(rf_channel_release(&target.channel))
            }
            _ => Ok(()),
        }
    }

    /// Appends the messages that end the connection to `put`: the mobile is dismissed with `cause`,
    /// and the serving channel and the target are released.
    pub(crate) fn put_end(&self, cause: u8, put: &mut Messages) -> Result<(), Memory>
        ensures { OnOk result (put.new ≡ put.old
            ++ end_outs self.now.state self.now.serving cause) }
    {
        put.push(channel_release(self.alloc, &self.serving, cause)?)?;
        put.push(rf_channel_release(&self.serving))?;
        self.put_target_release(put)
    }

    /// Appends the messages for a connection that fails to `put`: CLEAR REQUEST with `cause` if the
    /// switch confirmed the connection, then the messages that end the connection.
    pub(crate) fn put_failing(&self, cause: u8, put: &mut Messages) -> Result<(), Memory>
        ensures { OnOk result (put.new ≡ put.old
            ++ (failing self.now.state self.now cause).outs) }
    {
        let state = self.state;
        if let State::Live(reference, _) = state {
            put.push(clear_request(self.alloc, reference, cause)?)?;
        }
        self.put_end(ABNORMAL_RELEASE, put)
    }

    /// The state that the connection enters if it fails with `cause`.
    pub(crate) fn failed_state(&self, cause: u8) -> State
        ensures { (failing self.now.state self.now cause).next.state ≡ result }
    {
        let state = self.state;
        match state {
            State::Live(reference, _) => State::Closed(Clearing::Asked(reference)),
            _ => State::Closed(Clearing::Due(cause)),
        }
    }

    pub(crate) fn fail(&mut self, cause: u8, outputs: &mut Outputs) -> Result<(), Memory>
        ensures done { OnOk result (Does (failing self.old.state self.old cause)
            self.old self.new outputs.old.outs outputs.new.outs) }
        ensures err { UnchangedOnErr result self.old self.new outputs.old.outs outputs.new.outs }
    {
        let mut put = Messages::new(self.alloc);
        self.put_failing(cause, &mut put)?;
        self.put(&put, outputs)?;
        let failed = self.failed_state(cause);
        self.empty(failed);
        Ok(())
    }

    pub(crate) fn end(
        &mut self,
        cause: u8,
        last: State,
        outputs: &mut Outputs,
    ) -> Result<(), Memory>
        ensures done { OnOk result (Does (ending self.old.state self.old cause last)
            self.old self.new outputs.old.outs outputs.new.outs) }
        ensures err { UnchangedOnErr result self.old self.new outputs.old.outs outputs.new.outs }
    {
        let mut put = Messages::new(self.alloc);
        self.put_end(cause, &mut put)?;
        self.put(&put, outputs)?;
        self.empty(last);
        Ok(())
    }

    /// Releases the channel of a connection that the switch doesn't know, and removes the
    /// connection.
    pub(crate) fn drop_channel(&mut self, outputs: &mut Outputs) -> Result<(), Memory>
        ensures done { OnOk result (Does (dropping self.old)
            self.old self.new outputs.old.outs outputs.new.outs) }
        ensures err { UnchangedOnErr result self.old self.new outputs.old.outs outputs.new.outs }
    {
        self.put_one(rf_channel_release(&self.serving), outputs)?;
        self.empty(State::Removed);
        Ok(())
    }
}
