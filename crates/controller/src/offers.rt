// SPDX-License-Identifier: MIT OR Apache-2.0
ghost use Rattle.std.specs.Prelude.{◌≡◌, ◌≤◌, Some};
ghost use Rattle.conn_rules.specs.Table.{row_of};
ghost use Rattle.connections.specs.Entries.{IsOffer};
ghost use Rattle.controller_model.specs.Channels as words;
ghost use Rattle.controller_model.specs.Controller.{Entry, entry_of};
ghost use Rattle.controller_model.specs.Life.{row_in};
ghost use Rattle.controller.specs.Offers.{may_begin as begins};

use crate::controller::Controller;
use conn_fsm::Channel;
use conn_rules::Input;
use controller_model::ChannelKind;
use controller_parts::{free_channel, kind_of};
use rsl_codec::HandoverReference;

impl Controller {
    /// The channel to offer to an assignment of connection `number` that may begin with `input` or
    /// right after it. `None` if no assignment can begin with this input, there is no such
    /// connection, or no channel is free.
    pub(crate) fn offer_for(&self, number: u32, input: &Input) -> Option<Channel>
        ensures offer { IsOffer self.now.settings result }
        ensures row { (e : Entry) → entry_of self.now number ≡ Some e →
            row_of e.connection input.now result ≡ row_in self.now e.connection input.now }
    {
        if !may_begin(input) {
            return None;
        }
        let entry = self.connections.get(number)?;
        let serving = entry.connection().serving_after(input);
        self.assignment_offer(&serving)
    }

    fn assignment_offer(&self, serving: &Channel) -> Option<Channel>
        requires { 1 ≤ serving.now.station }
        ensures value { result ≡ words.assignment_offer self.now serving.now }
        ensures offer { IsOffer self.now.settings result }
    {
        self.first_free(serving.station, HandoverReference(0), ChannelKind::Tch)
    }

    /// The channel to offer to a handover to `cell`: the first free channel in the cell that is of
    /// the same kind as `serving`. `None` if no such channel is free or the link of the cell's
    /// station is down.
    pub(crate) fn handover_offer(&self, serving: &Channel, cell: u16) -> Option<Channel>
        requires { 1 ≤ cell }
        ensures value { result ≡ words.handover_offer self.now serving.now cell }
        ensures offer { IsOffer self.now.settings result }
    {
        self.first_free(
            cell,
            HandoverReference(self.handovers),
            kind_of(serving.number),
        )
    }

    /// The channel for access: the first free SDCCH in the cell of `station`. `None` if no SDCCH is
    /// free or the station's link is down.
    pub(crate) fn access_channel(&self, station: u16) -> Option<Channel>
        requires { 1 ≤ station }
        ensures value { result ≡ words.access_channel self.now station }
        ensures offer { IsOffer self.now.settings result }
    {
        self.first_free(station, HandoverReference(0), ChannelKind::Sdcch)
    }

    // The first free channel of kind `kind` in the cell of `station`; `None` if no such channel is
    // free or the station's link is down.
    #[tactic(auto, using(crate::proofs::Cells::free_is_offer))]
    fn first_free(
        &self,
        station: u16,
        reference: HandoverReference,
        kind: ChannelKind,
    ) -> Option<Channel>
        requires { 1 ≤ station }
        ensures value { result ≡ words.first_free self.now station reference.0 kind }
        ensures offer { IsOffer self.now.settings result }
    {
        if !self.is_up(station) {
            return None;
        }
        free_channel(&self.settings, &self.channels, station, reference, kind)
    }
}

/// Whether a change may begin with the input or right after it.
fn may_begin(input: &Input) -> bool
    ensures { result ≡ begins input.now }
{
    matches!(
        input,
        Input::AssignmentRequest { .. }
            | Input::Complete { .. }
            | Input::Failure { .. }
            | Input::ActivationNack { .. }
            | Input::ReleaseAck { .. }
            | Input::Move
    )
}
