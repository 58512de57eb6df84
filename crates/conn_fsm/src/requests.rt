// SPDX-License-Identifier: MIT OR Apache-2.0
ghost use Rattle.std.specs.Prelude.{◌≡◌, [], ◌∷◌, ◌++◌, None, OnOk, OnErr};
ghost use Rattle.std.specs.List.{AllByRecursion};
ghost use Rattle.conn_messages.specs.Out.{IsSound, outs_of};
ghost use Rattle.conn_messages.specs.SwitchMessage as words;
ghost use Rattle.conn_rules.specs.Steps.{after_begin, after_waiting, begin, begin_outs, may_begin};
ghost use Rattle.conn_rules.specs.Steps.{waiting_outs};
ghost use Rattle.conn_rules.specs.Table.{on_move, on_assignment_request};
ghost use Rattle.conn_fsm.specs.Doing.{Does, StepsOnOk, UnchangedOnErr, WantsForRow};

use crate::machine::Machine;
use bssmap_codec::Reference;
use conn_messages::causes::{BSS_NOT_EQUIPPED, NO_RADIO_RESOURCE, PROTOCOL_ERROR};
use conn_messages::station_message::change_activation;
use conn_messages::switch_message::assignment_failure;
use conn_messages::{Change, Channel, Messages, Outputs};
use conn_rules::{DRAIN_LIMIT, Stage, State, Target};
use octets::Memory;

impl Machine {
    /// Does the row for a measurement report that called for a handover to another cell. Returns
    /// whether a row fits.
    pub(crate) fn on_move(
        &mut self,
        offer: Option<Channel>,
        outputs: &mut Outputs,
    ) -> Result<bool, Memory>
        ensures done { StepsOnOk result (on_move self.old.state self.old offer)
            self.old self.new outputs.old.outs outputs.new.outs }
        ensures err { UnchangedOnErr result self.old self.new outputs.old.outs outputs.new.outs }
        ensures memory { WantsForRow result (on_move self.old.state self.old offer) }
    {
        let state = self.state;
        match state {
            State::Live(reference, stage) if self.may_begin(stage) => {
                self.begin(reference, &Change::Handover, &offer, outputs)?;
                Ok(true)
            }
            _ => Ok(false),
        }
    }

    /// Does the row for ASSIGNMENT REQUEST. Returns whether a row fits.
    pub(crate) fn on_assignment_request(
        &mut self,
        is_speech: bool,
        offer: Option<Channel>,
        outputs: &mut Outputs,
    ) -> Result<bool, Memory>
        ensures done { StepsOnOk result
            (on_assignment_request self.old.state self.old is_speech offer)
            self.old self.new outputs.old.outs outputs.new.outs }
        ensures err { UnchangedOnErr result self.old self.new outputs.old.outs outputs.new.outs }
        ensures memory { WantsForRow result
            (on_assignment_request self.old.state self.old is_speech offer) }
    {
        let state = self.state;
        let State::Live(reference, stage) = state else {
            return Ok(false);
        };
        if !is_speech {
            self.refuse_request(reference, BSS_NOT_EQUIPPED, outputs)?;
        } else if self.may_begin(stage) {
            self.begin(reference, &Change::Assignment, &offer, outputs)?;
        } else if self.waits {
            self.refuse_request(reference, PROTOCOL_ERROR, outputs)?;
        } else {
            self.waits = true;
        }
        Ok(true)
    }

    // Answers the request with ASSIGNMENT FAILURE and leaves the connection unchanged.
    fn refuse_request(
        &self,
        reference: Reference,
        cause: u8,
        outputs: &mut Outputs,
    ) -> Result<(), Memory>
        ensures done { OnOk result (outputs.new.outs ≡ outputs.old.outs
            ++ outs_of self.now.number (words.assignment_failure reference cause None ∷ [])) }
        ensures sound { OnOk result
            (AllByRecursion IsSound (words.assignment_failure reference cause None ∷ [])) }
        ensures err { OnErr result (outputs.new.outs ≡ outputs.old.outs) }
    {
        let message = assignment_failure(self.alloc, reference, cause, None)?;
        self.put_one(message, outputs)
    }

    /// Whether a change may begin: in `Active`, and in `Draining` while fewer than `DRAIN_LIMIT`
    /// old channels drain.
    pub(crate) fn may_begin(&self, stage: Stage) -> bool
        ensures { result ≡ may_begin stage self.now.draining }
    {
        match stage {
            Stage::Active => true,
            Stage::Draining => self.draining.len() < DRAIN_LIMIT,
            Stage::Preparing(_) | Stage::Changing(_) => false,
        }
    }

    fn begin(
        &mut self,
        reference: Reference,
        change: &Change,
        offer: &Option<Channel>,
        outputs: &mut Outputs,
    ) -> Result<(), Memory>
        ensures done { OnOk result (Does (begin reference change.now offer.now self.old)
            self.old self.new outputs.old.outs outputs.new.outs) }
        ensures err { UnchangedOnErr result self.old self.new outputs.old.outs outputs.new.outs }
    {
        let mut put = Messages::new(self.alloc);
        self.put_begin(reference, change, *offer, &mut put)?;
        self.put(&put, outputs)?;
        self.begin_with(reference, change, *offer);
        Ok(())
    }

    pub(crate) fn put_begin(
        &self,
        reference: Reference,
        change: &Change,
        offer: Option<Channel>,
        put: &mut Messages,
    ) -> Result<(), Memory>
        ensures { OnOk result (put.new ≡ put.old ++ begin_outs reference change.now offer) }
    {
        match (offer, *change) {
            (Some(channel), change) => {
                put.push(change_activation(self.alloc, change, &channel)?)
            }
            (None, Change::Assignment) => put.push(assignment_failure(
                self.alloc,
                reference,
                NO_RADIO_RESOURCE,
                None,
            )?),
            (None, Change::Handover) => Ok(()),
        }
    }

    pub(crate) fn begin_with(
        &mut self,
        reference: Reference,
        change: &Change,
        offer: Option<Channel>,
    )
        ensures { self.new ≡ after_begin reference change.now offer self.old }
    {
        if let Some(channel) = offer {
            let target = Target {
                change: *change,
                channel,
            };
            self.enter(State::Live(reference, Stage::Preparing(target)));
        }
    }

    pub(crate) fn put_waiting(
        &self,
        begins: bool,
        reference: Reference,
        offer: Option<Channel>,
        put: &mut Messages,
    ) -> Result<(), Memory>
        ensures { OnOk result (put.new ≡ put.old ++ waiting_outs begins reference offer) }
    {
        if begins {
            self.put_begin(reference, &Change::Assignment, offer, put)?;
        }
        Ok(())
    }

    pub(crate) fn begin_waiting(
        &mut self,
        begins: bool,
        reference: Reference,
        offer: Option<Channel>,
    )
        ensures { self.new ≡ after_waiting begins reference offer self.old }
    {
        if begins {
            self.waits = false;
            self.begin_with(reference, &Change::Assignment, offer);
        }
    }
}
