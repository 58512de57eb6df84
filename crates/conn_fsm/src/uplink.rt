// SPDX-License-Identifier: MIT OR Apache-2.0
ghost use Rattle.std.specs.Prelude.{◌≡◌, ◌<◌, ◌≤◌, [], ◌∷◌, ◌++◌, length};
ghost use Rattle.std.specs.Prelude.{map, OnOk, OnErr};
ghost use Rattle.std.specs.List.{AllByRecursion};
ghost use Rattle.bssmap_codec.specs.Layer3.{IsLayer3};
ghost use Rattle.conn_messages.specs.Out.{IsSound, outs_of};
ghost use Rattle.conn_messages.specs.SwitchMessage.{relaying as relaying_word};
ghost use Rattle.conn_rules.specs.declared.state.State.TheVariants.{Live};
ghost use Rattle.conn_rules.specs.Connection.{tenure_at};
ghost use Rattle.conn_rules.specs.Validity.{IsValid};
ghost use Rattle.conn_rules.specs.Steps.{hold_up};
ghost use Rattle.conn_rules.specs.Table.{dtap_before_access, dtap_on_target, on_dtap, relay_dtap};
ghost use Rattle.hold_queue.specs.ChainState.{messages_in};
ghost use Rattle.conn_fsm.specs.Doing.{Does, StepsOnOk, UnchangedOnErr, WantsForRow};
ghost use Rattle.conn_fsm.specs.Leaving.{channel_of, outs_of_tenure};

use crate::machine::Machine;
use crate::places::is_at;
use bssmap_codec::Reference;
use conn_messages::causes::EQUIPMENT_FAILURE;
use conn_messages::switch_message::relaying;
use conn_messages::{Channel, Messages, Outputs, Place};
use conn_rules::{Stage, State, UP_LIMIT};
use dtap_codec::Sapi;
use hold_queue::HoldFault;
use octets::{Memory, Octets};

impl Machine {
    /// Does the row for a layer 3 message of the mobile: the message is relayed if it arrived in
    /// the first tenure, held if it arrived in another tenure. Returns whether a row fits.
    #[tactic(auto, using(crate::proofs::Pushing::tenure_within))]
    pub(crate) fn on_dtap(
        &mut self,
        at: Place,
        sapi: Sapi,
        message: Octets,
        outputs: &mut Outputs,
    ) -> Result<bool, Memory>
        requires valid { IsValid self.old }
        requires layer3 { IsLayer3 message }
        ensures done { StepsOnOk result (on_dtap self.old.state self.old at sapi message)
            self.old self.new outputs.old.outs outputs.new.outs }
        ensures err { UnchangedOnErr result self.old self.new outputs.old.outs outputs.new.outs }
        ensures memory { WantsForRow result (on_dtap self.old.state self.old at sapi message) }
    {
        let state = self.state;
        match state {
            State::WaitEstablish => self.dtap_before_access(&at, sapi, outputs),
            State::WaitConfirm if is_at(&at, &self.serving) => {
                self.hold_up(0, sapi, message, outputs)?;
                Ok(true)
            }
            State::Live(reference, stage) => match self.tenure_at(&at) {
                Some(0) => {
                    self.relay(reference, sapi, message, outputs)?;
                    Ok(true)
                }
                Some(tenure) => {
                    self.hold_up(tenure, sapi, message, outputs)?;
                    Ok(true)
                }
                None => self.dtap_on_target(reference, stage, &at, sapi, outputs),
            },
            _ => Ok(false),
        }
    }

    // Drops the connection if DTAP of SAPI 0 arrives before the initial message. Returns whether a
    // row fits.
    fn dtap_before_access(
        &mut self,
        at: &Place,
        sapi: Sapi,
        outputs: &mut Outputs,
    ) -> Result<bool, Memory>
        ensures done { StepsOnOk result (dtap_before_access self.old at.now sapi)
            self.old self.new outputs.old.outs outputs.new.outs }
        ensures err { UnchangedOnErr result self.old self.new outputs.old.outs outputs.new.outs }
        ensures memory { WantsForRow result (dtap_before_access self.old at.now sapi) }
    {
        match sapi {
            Sapi::Zero if is_at(at, &self.serving) => {
                self.drop_channel(outputs)?;
                Ok(true)
            }
            _ => Ok(false),
        }
    }

    // Does the row for DTAP on the target, where only COMPLETE is expected: DTAP of SAPI 0 makes
    // the connection fail. Returns whether a row fits.
    fn dtap_on_target(
        &mut self,
        reference: Reference,
        stage: Stage,
        at: &Place,
        sapi: Sapi,
        outputs: &mut Outputs,
    ) -> Result<bool, Memory>
        requires { self.old.state ≡ Live reference stage }
        ensures done { StepsOnOk result (dtap_on_target reference stage self.old at.now sapi)
            self.old self.new outputs.old.outs outputs.new.outs }
        ensures err { UnchangedOnErr result self.old self.new outputs.old.outs outputs.new.outs }
        ensures memory { WantsForRow result (dtap_on_target reference stage self.old at.now sapi) }
    {
        match (stage, sapi) {
            (Stage::Changing(target), Sapi::Zero) if is_at(at, &target.channel) => {
                self.fail(EQUIPMENT_FAILURE, outputs)?;
                Ok(true)
            }
            _ => Ok(false),
        }
    }

    // The message of the first tenure is relayed.
    fn relay(
        &self,
        reference: Reference,
        sapi: Sapi,
        message: Octets,
        outputs: &mut Outputs,
    ) -> Result<(), Memory>
        requires { IsLayer3 message }
        ensures done { OnOk result (outputs.new.outs ≡ outputs.old.outs
            ++ outs_of self.now.number (relay_dtap reference sapi message self.now).outs) }
        ensures sound { OnOk result
            (AllByRecursion IsSound (relay_dtap reference sapi message self.now).outs) }
        ensures err { OnErr result (outputs.new.outs ≡ outputs.old.outs) }
    {
        let channel = self.channel_of(0);
        self.put_one(relaying(reference, &channel, sapi, message), outputs)
    }

    // Holds the message in the tenure at place `tenure`. If the tenures are full, the connection
    // fails.
    fn hold_up(
        &mut self,
        tenure: usize,
        sapi: Sapi,
        message: Octets,
        outputs: &mut Outputs,
    ) -> Result<(), Memory>
        requires { tenure < length self.old.up.tenures }
        ensures done { OnOk result (Does (hold_up self.old.state tenure sapi message self.old)
            self.old self.new outputs.old.outs outputs.new.outs) }
        ensures err { UnchangedOnErr result self.old self.new outputs.old.outs outputs.new.outs }
    {
        match self.up.put(tenure, sapi, message.into_vec()) {
            Ok(()) => Ok(()),
            Err(HoldFault::Full(_)) => self.fail(EQUIPMENT_FAILURE, outputs),
            Err(HoldFault::Memory(_)) => Err(Memory),
        }
    }

    // The place of the tenure of the channel at `at`; `None` if the channel is neither the serving
    // channel nor an old channel that isn't done.
    fn tenure_at(&self, at: &Place) -> Option<usize>
        ensures { result ≡ tenure_at at.now self.now.serving self.now.draining }
    {
        if is_at(at, &self.serving) {
            Some(self.draining.len())
        } else {
            self.draining.place_of(at)
        }
    }

    /// The channel of the tenure at place `tenure`.
    #[tactic(auto, using(crate::proofs::Pushing::channels))]
    pub(crate) fn channel_of(&self, tenure: usize) -> Channel
        ensures { result ≡ channel_of tenure self.now }
    {
        match self.draining.get(tenure) {
            Some(drain) => drain.channel,
            None => self.serving,
        }
    }

    /// Appends to `put` what relays the messages held in the tenure at place `tenure`, those of
    /// SAPI 0 first.
    #[tactic(auto, using(crate::proofs::Pushing::tenure_puts))]
    pub(crate) fn put_tenure(
        &self,
        reference: Reference,
        tenure: usize,
        put: &mut Messages,
    ) -> Result<(), Memory>
        requires { IsValid self.now }
        ensures { OnOk result (put.new ≡ put.old ++ outs_of_tenure reference tenure self.now) }
    {
        self.put_tenure_of(reference, tenure, Sapi::Zero, put)?;
        self.put_tenure_of(reference, tenure, Sapi::Three, put)?;
        Ok(())
    }

    #[tactic(auto, using(crate::proofs::Pushing::all_at, crate::proofs::Pushing::all_taken))]
    fn put_tenure_of(
        &self,
        reference: Reference,
        tenure: usize,
        sapi: Sapi,
        put: &mut Messages,
    ) -> Result<(), Memory>
        requires layer3 { AllByRecursion IsLayer3 (messages_in tenure sapi self.now.up.tenures) }
        requires few { length (messages_in tenure sapi self.now.up.tenures) ≤ UP_LIMIT }
        ensures { OnOk result (put.new ≡ put.old
            ++ map (relaying_word reference (channel_of tenure self.now) sapi)
            (messages_in tenure sapi self.now.up.tenures)) }
    {
        let channel = self.channel_of(tenure);
        for place in 0..UP_LIMIT {
            let Some(message) = self.up.get(tenure, sapi, place) else {
                break;
            };
            let message = Octets::copy(self.alloc, message)?;
            put.push(relaying(reference, &channel, sapi, message))?;
        }
        Ok(())
    }
}
