// SPDX-License-Identifier: MIT OR Apache-2.0
ghost use Rattle.std.specs.Prelude.{◌≡◌, ◌<◌, ◌≤◌, ◌++◌, map, length, OnOk};
ghost use Rattle.std.specs.List.{AllByRecursion};
ghost use Rattle.bssmap_codec.specs.Layer3.{IsLayer3};
ghost use Rattle.conn_messages.specs.StationMessage.{handing as handing_word};
ghost use Rattle.conn_rules.specs.Steps.{after_waiting, ask_for_held, hand_held, request_for};
ghost use Rattle.conn_rules.specs.Steps.{resting, resting_stage, waiting_outs};
ghost use Rattle.hold_queue.specs.HoldState.{messages};
ghost use Rattle.dtap_codec.specs.declared.sapi.Sapi.TheVariants.{Zero};

use crate::machine::Machine;
use bssmap_codec::Reference;
use conn_messages::station_message::{establish_request, handing};
use conn_messages::{Channel, Messages};
use conn_rules::{DOWN_LIMIT, ShortMessageLink, Stage, State};
use dtap_codec::Sapi;
use octets::{Memory, Octets};

impl Machine {
    // Appends to `put`: the held messages of SAPI 0 for `channel`, the ESTABLISH REQUEST for the
    // link of SAPI 3 if messages of SAPI 3 are held, and the message with which the waiting request
    // begins if `begins`.
    pub(crate) fn put_resuming(
        &self,
        channel: &Channel,
        begins: bool,
        reference: Reference,
        offer: Option<Channel>,
        put: &mut Messages,
    ) -> Result<(), Memory>
        requires layer3 { AllByRecursion IsLayer3 self.now.down.zero }
        requires few { length self.now.down.zero ≤ DOWN_LIMIT }
        ensures { OnOk result (put.new ≡ put.old
            ++ (map (handing_word channel.now Zero) self.now.down.zero
            ++ (request_for self.now.down.three channel.now
            ++ waiting_outs begins reference offer))) }
    {
        self.put_held(channel, Sapi::Zero, put)?;
        self.put_request_for(channel, put)?;
        self.put_waiting(begins, reference, offer, put)
    }

    // Drops the held messages of SAPI 0, which were handed before. Notes that the link of SAPI 3 is
    // asked for if messages of SAPI 3 are held. Begins the waiting request if `begins`.
    pub(crate) fn resume(&mut self, begins: bool, reference: Reference, offer: Option<Channel>)
        ensures { self.new ≡ after_waiting begins reference offer
            (ask_for_held (hand_held Zero self.old).next).next }
    {
        self.down.clear_sapi(Sapi::Zero);
        self.ask_for_held();
        self.begin_waiting(begins, reference, offer);
    }

    /// Appends to `put` the DATA REQUESTs that hand the held messages of `sapi` on `channel`.
    #[tactic(auto, using(crate::proofs::Pushing::all_at, crate::proofs::Pushing::all_taken))]
    pub(crate) fn put_held(
        &self,
        channel: &Channel,
        sapi: Sapi,
        put: &mut Messages,
    ) -> Result<(), Memory>
        requires layer3 { AllByRecursion IsLayer3 (messages self.now.down sapi) }
        requires few { length (messages self.now.down sapi) ≤ DOWN_LIMIT }
        ensures { OnOk result (put.new ≡ put.old
            ++ map (handing_word channel.now sapi) (messages self.now.down sapi)) }
    {
        for place in 0..DOWN_LIMIT {
            let Some(message) = self.down.get(sapi, place) else {
                break;
            };
            let message = Octets::copy(self.alloc, message)?;
            put.push(handing(channel, sapi, message))?;
        }
        Ok(())
    }

    /// Appends to `put` the ESTABLISH REQUEST for the link of SAPI 3 on `channel` if messages of
    /// SAPI 3 are held.
    pub(crate) fn put_request_for(
        &self,
        channel: &Channel,
        put: &mut Messages,
    ) -> Result<(), Memory>
        ensures { OnOk result (put.new ≡ put.old ++ request_for self.now.down.three channel.now) }
    {
        if self.down.get(Sapi::Three, 0).is_some() {
            put.push(establish_request(channel))?;
        }
        Ok(())
    }

    /// Notes that the link of SAPI 3 is asked for if messages of SAPI 3 are held.
    pub(crate) fn ask_for_held(&mut self)
        ensures { self.new ≡ (ask_for_held self.old).next }
    {
        if self.down.get(Sapi::Three, 0).is_some() {
            self.link = ShortMessageLink::Asked;
        }
    }

    pub(crate) fn rest(&mut self, reference: Reference)
        ensures { self.new ≡ resting reference self.old }
    {
        let stage = self.resting_stage();
        self.enter(State::Live(reference, stage));
    }

    pub(crate) fn resting_stage(&self) -> Stage
        ensures { result ≡ resting_stage self.now.draining }
    {
        if self.draining.is_empty() {
            Stage::Active
        } else {
            Stage::Draining
        }
    }
}
