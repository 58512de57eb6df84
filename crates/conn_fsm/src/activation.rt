// SPDX-License-Identifier: MIT OR Apache-2.0
ghost use Rattle.std.specs.Prelude.{OnOk};
ghost use Rattle.conn_rules.specs.declared.state.State.TheVariants.{Live, WaitActivation};
ghost use Rattle.conn_rules.specs.Table.{assign_immediately, command_to, on_activation_ack};
ghost use Rattle.conn_rules.specs.Table.{on_activation_nack, refuse};
ghost use Rattle.conn_fsm.specs.Doing.{Does, StepsOnOk, UnchangedOnErr, WantsForRow};

use crate::machine::Machine;
use crate::places::is_at;
use bssmap_codec::Reference;
use conn_messages::causes::EQUIPMENT_FAILURE;
use conn_messages::station_message::{change_command, immediate_assign_command};
use conn_messages::switch_message::assignment_failure;
use conn_messages::{Change, Channel, Messages, Outputs, Place};
use conn_rules::{ShortMessageLink, Stage, State, Target};
use octets::Memory;

impl Machine {
    /// Does the row for CHANNEL ACTIVATION ACK. Returns whether a row fits.
    pub(crate) fn on_activation_ack(
        &mut self,
        at: Place,
        outputs: &mut Outputs,
    ) -> Result<bool, Memory>
        ensures done { StepsOnOk result (on_activation_ack self.old.state self.old at)
            self.old self.new outputs.old.outs outputs.new.outs }
        ensures err { UnchangedOnErr result self.old self.new outputs.old.outs outputs.new.outs }
        ensures memory { WantsForRow result (on_activation_ack self.old.state self.old at) }
    {
        let state = self.state;
        match state {
            State::WaitActivation => self.access_activated(&at, outputs),
            State::Live(reference, stage) => self.target_activated(reference, stage, &at, outputs),
            _ => Ok(false),
        }
    }

    fn access_activated(&mut self, at: &Place, outputs: &mut Outputs) -> Result<bool, Memory>
        ensures done { StepsOnOk result (on_activation_ack WaitActivation self.old at.now)
            self.old self.new outputs.old.outs outputs.new.outs }
        ensures err { UnchangedOnErr result self.old self.new outputs.old.outs outputs.new.outs }
        ensures memory { WantsForRow result (on_activation_ack WaitActivation self.old at.now) }
    {
        if !is_at(at, &self.serving) {
            return Ok(false);
        }
        self.assign_immediately(outputs)?;
        Ok(true)
    }

    // Assigns the mobile its access channel: puts IMMEDIATE ASSIGNMENT and enters `WaitEstablish`.
    fn assign_immediately(&mut self, outputs: &mut Outputs) -> Result<(), Memory>
        ensures done { OnOk result (Does (assign_immediately self.old)
            self.old self.new outputs.old.outs outputs.new.outs) }
        ensures err { UnchangedOnErr result self.old self.new outputs.old.outs outputs.new.outs }
    {
        let (request, delay) = (self.request, self.delay);
        let message = immediate_assign_command(self.alloc, &self.serving, request, delay)?;
        self.put_one(message, outputs)?;
        self.enter(State::WaitEstablish);
        Ok(())
    }

    fn target_activated(
        &mut self,
        reference: Reference,
        stage: Stage,
        at: &Place,
        outputs: &mut Outputs,
    ) -> Result<bool, Memory>
        ensures done { StepsOnOk result (on_activation_ack (Live reference stage) self.old at.now)
            self.old self.new outputs.old.outs outputs.new.outs }
        ensures err { UnchangedOnErr result self.old self.new outputs.old.outs outputs.new.outs }
        ensures memory { WantsForRow result
            (on_activation_ack (Live reference stage) self.old at.now) }
    {
        let Stage::Preparing(target) = stage else {
            return Ok(false);
        };
        if !is_at(at, &target.channel) {
            return Ok(false);
        }
        self.command(reference, target, outputs)?;
        Ok(true)
    }

    // Commands the mobile to the target and enters `Changing`.
    fn command(
        &mut self,
        reference: Reference,
        target: Target,
        outputs: &mut Outputs,
    ) -> Result<(), Memory>
        ensures done { OnOk result (Does (command_to reference target self.old)
            self.old self.new outputs.old.outs outputs.new.outs) }
        ensures err { UnchangedOnErr result self.old self.new outputs.old.outs outputs.new.outs }
    {
        let (serving, change) = (&self.serving, target.change);
        let message = change_command(self.alloc, serving, change, &target.channel)?;
        self.put_one(message, outputs)?;
        self.link = ShortMessageLink::Down;
        self.enter(State::Live(reference, Stage::Changing(target)));
        Ok(())
    }

    /// Does the row for CHANNEL ACTIVATION NACK. Returns whether a row fits.
    pub(crate) fn on_activation_nack(
        &mut self,
        at: Place,
        offer: Option<Channel>,
        outputs: &mut Outputs,
    ) -> Result<bool, Memory>
        ensures done { StepsOnOk result (on_activation_nack self.old.state self.old at offer)
            self.old self.new outputs.old.outs outputs.new.outs }
        ensures err { UnchangedOnErr result self.old self.new outputs.old.outs outputs.new.outs }
        ensures memory { WantsForRow result (on_activation_nack self.old.state self.old at offer) }
    {
        let state = self.state;
        match state {
            State::WaitActivation if is_at(&at, &self.serving) => {
                self.empty(State::Removed);
                Ok(true)
            }
            State::Live(reference, stage) => {
                self.target_refused(reference, stage, &at, offer, outputs)
            }
            _ => Ok(false),
        }
    }

    fn target_refused(
        &mut self,
        reference: Reference,
        stage: Stage,
        at: &Place,
        offer: Option<Channel>,
        outputs: &mut Outputs,
    ) -> Result<bool, Memory>
        ensures done { StepsOnOk result
            (on_activation_nack (Live reference stage) self.old at.now offer)
            self.old self.new outputs.old.outs outputs.new.outs }
        ensures err { UnchangedOnErr result self.old self.new outputs.old.outs outputs.new.outs }
        ensures memory { WantsForRow result
            (on_activation_nack (Live reference stage) self.old at.now offer) }
    {
        let Stage::Preparing(target) = stage else {
            return Ok(false);
        };
        if !is_at(at, &target.channel) {
            return Ok(false);
        }
        self.refuse(reference, target.change, offer, outputs)?;
        Ok(true)
    }

    // Gives up a change whose target couldn't be activated; then the waiting request begins, if it
    // may.
    fn refuse(
        &mut self,
        reference: Reference,
        change: Change,
        offer: Option<Channel>,
        outputs: &mut Outputs,
    ) -> Result<(), Memory>
        ensures done { OnOk result (Does (refuse reference change offer self.old)
            self.old self.new outputs.old.outs outputs.new.outs) }
        ensures err { UnchangedOnErr result self.old self.new outputs.old.outs outputs.new.outs }
    {
        let mut put = Messages::new(self.alloc);
        if let Change::Assignment = change {
            put.push(assignment_failure(self.alloc, reference, EQUIPMENT_FAILURE, None)?)?;
        }
        let begins = self.waits && self.may_begin(self.resting_stage());
        self.put_waiting(begins, reference, offer, &mut put)?;
        self.put(&put, outputs)?;
        self.rest(reference);
        self.begin_waiting(begins, reference, offer);
        Ok(())
    }
}
