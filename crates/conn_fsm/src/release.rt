// SPDX-License-Identifier: MIT OR Apache-2.0
ghost use Rattle.std.specs.Prelude.{◌≡◌, ◌<◌, ◌≤◌, ◌+◌, ◌&&◌, ◌++◌};
ghost use Rattle.std.specs.Prelude.{length, OnOk, drop as dropped};
ghost use Rattle.conn_rules.specs.declared.state.State.TheVariants.{Live};
ghost use Rattle.conn_rules.specs.Validity.{FirstIsEmpty, IsValid};
ghost use Rattle.conn_rules.specs.Steps.{done_at, may_begin, settled};
ghost use Rattle.conn_rules.specs.Table.{on_release_ack, release};
ghost use Rattle.conn_fsm.specs.Doing.{Does, StepsOnOk, UnchangedOnErr, WantsForRow};
ghost use Rattle.conn_fsm.specs.Leaving.{left, left_outs, oldest_left};

use crate::machine::Machine;
use bssmap_codec::Reference;
use conn_messages::{Channel, Messages, Outputs, Place};
use conn_rules::{DRAIN_LIMIT, Stage, State};
use octets::Memory;

impl Machine {
    /// Does the row for RF CHANNEL RELEASE ACK of an old channel. Returns whether a row fits.
    pub(crate) fn on_release_ack(
        &mut self,
        at: Place,
        offer: Option<Channel>,
        outputs: &mut Outputs,
    ) -> Result<bool, Memory>
        requires { IsValid self.old }
        ensures done { StepsOnOk result (on_release_ack self.old.state self.old at offer)
            self.old self.new outputs.old.outs outputs.new.outs }
        ensures err { UnchangedOnErr result self.old self.new outputs.old.outs outputs.new.outs }
        ensures memory { WantsForRow result (on_release_ack self.old.state self.old at offer) }
    {
        let state = self.state;
        let State::Live(reference, stage) = state else {
            return Ok(false);
        };
        let Some(place) = self.draining.place_of(&at) else {
            return Ok(false);
        };
        self.release(reference, &stage, place, &offer, outputs)?;
        Ok(true)
    }

    // Marks the old channel at position `place` as done. Then the oldest old channels leave while
    // they are done; each time one leaves, the messages held in the next tenure are relayed. At
    // last a waiting request may begin.
    #[tactic(auto, using(crate::proofs::Leaving::length_done))]
    fn release(
        &mut self,
        reference: Reference,
        stage: &Stage,
        place: usize,
        offer: &Option<Channel>,
        outputs: &mut Outputs,
    ) -> Result<(), Memory>
        requires valid { IsValid self.old }
        requires live { self.old.state ≡ Live reference stage.now }
        requires within { place < length self.old.draining }
        ensures done { OnOk result (Does (release reference stage.now place offer.now self.old)
            self.old self.new outputs.old.outs outputs.new.outs) }
        ensures err { UnchangedOnErr result self.old self.new outputs.old.outs outputs.new.outs }
    {
        let leaves = self.draining.leaving(place);
        let begins = self.begins_without(leaves, stage);
        let mut put = Messages::new(self.alloc);
        self.put_left(reference, leaves, &mut put)?;
        self.put_waiting(begins, reference, *offer, &mut put)?;
        self.put(&put, outputs)?;
        self.mark_done(place);
        self.leave(leaves);
        self.settle(reference, stage);
        self.begin_waiting(begins, reference, *offer);
        Ok(())
    }

    // Whether a request waits and may begin once `leaves` old channels have left.
    fn begins_without(&self, leaves: usize, stage: &Stage) -> bool
        requires { leaves ≤ length self.now.draining }
        ensures { result ≡ (self.now.waits
            && may_begin stage.now (dropped leaves self.now.draining)) }
    {
        self.waits
            && match stage {
                Stage::Active => true,
                Stage::Draining => self.draining.len() - leaves < DRAIN_LIMIT,
                Stage::Preparing(_) | Stage::Changing(_) => false,
            }
    }

    // Appends to `put` what relays the messages held in each tenure that becomes the first while
    // `leaves` old channels leave.
    fn put_left(
        &self,
        reference: Reference,
        leaves: usize,
        put: &mut Messages,
    ) -> Result<(), Memory>
        requires valid { IsValid self.now }
        requires few { leaves ≤ length self.now.draining }
        ensures { OnOk result (put.new ≡ put.old ++ left_outs reference leaves self.now) }
    {
        for k in 0..leaves {
            self.put_tenure(reference, k + 1, put)?;
        }
        Ok(())
    }

    // Marks the old channel at position `place` as done.
    fn mark_done(&mut self, place: usize)
        requires { place < length self.old.draining }
        ensures { self.new ≡ record self.old { draining = done_at place self.old.draining } }
    {
        self.draining.mark_done(place);
    }

    // Removes the `leaves` oldest old channels.
    #[tactic(auto, using(crate::proofs::Leaving::length_left, crate::proofs::Leaving::first_left))]
    fn leave(&mut self, leaves: usize)
        requires few { leaves ≤ length self.old.draining }
        requires tenures { length self.old.up.tenures ≡ length self.old.draining + 1 }
        requires first { FirstIsEmpty self.old.up.tenures }
        ensures { self.new ≡ left leaves self.old }
    {
        for _k in 0..leaves {
            self.leave_oldest();
        }
    }

    // Removes the oldest old channel and its tenure. Drops the messages of the next tenure, which
    // were relayed before, and sets the drain time to 0.
    #[tactic(auto, using(crate::proofs::Leaving::first_of))]
    fn leave_oldest(&mut self)
        requires drains { 1 ≤ length self.old.draining }
        requires tenures { length self.old.up.tenures ≡ length self.old.draining + 1 }
        requires first { FirstIsEmpty self.old.up.tenures }
        ensures { self.new ≡ oldest_left self.old }
    {
        self.draining.shift();
        self.up.shift();
        self.up.clear_first();
        self.drained = 0;
    }

    // Enters `Active` if the stage is `Draining` and no old channel is left.
    fn settle(&mut self, reference: Reference, stage: &Stage)
        ensures { self.new ≡ settled reference stage.now self.old.draining self.old }
    {
        if matches!(stage, Stage::Draining) && self.draining.is_empty() {
            self.enter(State::Live(reference, Stage::Active));
        }
    }
}
