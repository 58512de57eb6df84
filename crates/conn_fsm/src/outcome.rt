// SPDX-License-Identifier: MIT OR Apache-2.0
ghost use Rattle.std.specs.Prelude.{◌≡◌, ℕ, ◌<◌, ◌≤◌, None, length, OnOk};
ghost use Rattle.conn_rules.specs.declared.limits.TheConstants.{DRAIN_LIMIT};
ghost use Rattle.conn_rules.specs.Validity.{IsValid};
ghost use Rattle.conn_rules.specs.Steps.{moved};
ghost use Rattle.conn_rules.specs.Table.{complete, failure, on_complete, on_failure};
ghost use Rattle.conn_rules.specs.Table.{row_of, serving_after};
ghost use Rattle.conn_fsm.specs.Doing.{Does, StepsOnOk, UnchangedOnErr, WantsForRow};

use crate::machine::Machine;
use crate::places::{is_at, same_change};
use bssmap_codec::{Reference, RrCause as ReportedCause};
use conn_messages::causes::REVERSION_TO_OLD_CHANNEL;
use conn_messages::station_message::rf_channel_release;
use conn_messages::switch_message::{assignment_failure, change_complete};
use conn_messages::{Change, Channel, Messages, Outputs, Place};
use conn_rules::{DRAIN_LIMIT, Input, Stage, State};
use dtap_codec::RrCause;
use octets::Memory;

impl Machine {
    /// Does the row for ASSIGNMENT COMPLETE or HANDOVER COMPLETE. Returns whether a row fits.
    pub(crate) fn on_complete(
        &mut self,
        at: Place,
        change: Change,
        cause: RrCause,
        offer: Option<Channel>,
        outputs: &mut Outputs,
    ) -> Result<bool, Memory>
        requires { IsValid self.old }
        ensures done { StepsOnOk result
            (on_complete self.old.state self.old at change cause.0 offer)
            self.old self.new outputs.old.outs outputs.new.outs }
        ensures err { UnchangedOnErr result self.old self.new outputs.old.outs outputs.new.outs }
        ensures memory { WantsForRow result
            (on_complete self.old.state self.old at change cause.0 offer) }
    {
        let state = self.state;
        let State::Live(reference, stage) = state else {
            return Ok(false);
        };
        let Stage::Changing(target) = stage else {
            return Ok(false);
        };
        if !is_at(&at, &target.channel) || !same_change(&change, &target.change) {
            return Ok(false);
        }
        self.complete(reference, change, target.channel, cause, offer, outputs)?;
        Ok(true)
    }

    fn complete(
        &mut self,
        reference: Reference,
        change: Change,
        channel: Channel,
        cause: RrCause,
        offer: Option<Channel>,
        outputs: &mut Outputs,
    ) -> Result<(), Memory>
        requires valid { IsValid self.old }
        requires few { length self.old.draining < DRAIN_LIMIT }
        requires tenures { length self.old.up.tenures ≤ DRAIN_LIMIT }
        ensures done { OnOk result (Does (complete reference change channel cause.0 offer self.old)
            self.old self.new outputs.old.outs outputs.new.outs) }
        ensures err { UnchangedOnErr result self.old self.new outputs.old.outs outputs.new.outs }
    {
        let mut put = Messages::new(self.alloc);
        put.push(change_complete(
            self.alloc,
            reference,
            change,
            &channel,
            ReportedCause(cause.0),
        )?)?;
        put.push(rf_channel_release(&self.serving))?;
        let begins = self.waits && self.draining.len() + 1 < DRAIN_LIMIT;
        self.put_resuming(&channel, begins, reference, offer, &mut put)?;
        self.put(&put, outputs)?;
        self.move_to(reference, channel);
        self.resume(begins, reference, offer);
        Ok(())
    }

    /// Makes the target, `channel`, the serving channel. The channel that served becomes the
    /// youngest old channel.
    fn move_to(&mut self, reference: Reference, channel: Channel)
        requires few { length self.old.draining < DRAIN_LIMIT }
        requires tenures { length self.old.up.tenures ≤ DRAIN_LIMIT }
        ensures { self.new ≡ moved reference channel self.old }
    {
        self.draining.push(self.serving);
        self.serving = channel;
        self.up.add();
        self.enter(State::Live(reference, Stage::Draining));
    }

    /// The channel that would serve after the row for `input`.
    #[tactic(auto, unfolding(conn_rules::specs::Table::row_of), using(conn_rules::proofs::Channels::serves_on))]
    pub(crate) fn serving_after(&self, input: &Input) -> Channel
        ensures { result ≡ serving_after self.now (row_of self.now input.now None) }
    {
        match input {
            Input::Complete { at, change, .. } => self.serving_after_complete(at, change),
            _ => self.serving,
        }
    }

    // The target if a row fits the COMPLETE, else the serving channel.
    #[tactic(auto, using(conn_rules::proofs::Channels::serves_where))]
    fn serving_after_complete(&self, at: &Place, change: &Change) -> Channel
        ensures { (cause : ℕ) → serving_after self.now
            (on_complete self.now.state self.now at.now change.now cause None) ≡ result }
    {
        let state = self.state;
        let State::Live(_, stage) = state else {
            return self.serving;
        };
        let Stage::Changing(target) = stage else {
            return self.serving;
        };
        if is_at(at, &target.channel) && same_change(change, &target.change) {
            target.channel
        } else {
            self.serving
        }
    }

    /// Does the row for ASSIGNMENT FAILURE or HANDOVER FAILURE. Returns whether a row fits.
    pub(crate) fn on_failure(
        &mut self,
        at: Place,
        change: Change,
        cause: RrCause,
        offer: Option<Channel>,
        outputs: &mut Outputs,
    ) -> Result<bool, Memory>
        requires { IsValid self.old }
        ensures done { StepsOnOk result (on_failure self.old.state self.old at change cause.0 offer)
            self.old self.new outputs.old.outs outputs.new.outs }
        ensures err { UnchangedOnErr result self.old self.new outputs.old.outs outputs.new.outs }
        ensures memory { WantsForRow result
            (on_failure self.old.state self.old at change cause.0 offer) }
    {
        let state = self.state;
        let State::Live(reference, stage) = state else {
            return Ok(false);
        };
        let Stage::Changing(target) = stage else {
            return Ok(false);
        };
        if !is_at(&at, &self.serving) || !same_change(&change, &target.change) {
            return Ok(false);
        }
        self.failure(reference, change, target.channel, cause, offer, outputs)?;
        Ok(true)
    }

    fn failure(
        &mut self,
        reference: Reference,
        change: Change,
        channel: Channel,
        cause: RrCause,
        offer: Option<Channel>,
        outputs: &mut Outputs,
    ) -> Result<(), Memory>
        requires { IsValid self.old }
        ensures done { OnOk result (Does (failure reference change channel cause.0 offer self.old)
            self.old self.new outputs.old.outs outputs.new.outs) }
        ensures err { UnchangedOnErr result self.old self.new outputs.old.outs outputs.new.outs }
    {
        let mut put = Messages::new(self.alloc);
        if let Change::Assignment = change {
            put.push(assignment_failure(
                self.alloc,
                reference,
                REVERSION_TO_OLD_CHANNEL,
                Some(ReportedCause(cause.0)),
            )?)?;
        }
        put.push(rf_channel_release(&channel))?;
        let begins = self.waits && self.may_begin(self.resting_stage());
        self.put_resuming(&self.serving, begins, reference, offer, &mut put)?;
        self.put(&put, outputs)?;
        self.rest(reference);
        self.resume(begins, reference, offer);
        Ok(())
    }
}
