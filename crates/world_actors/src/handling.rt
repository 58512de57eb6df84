// SPDX-License-Identifier: MIT OR Apache-2.0
ghost use Rattle.std.specs.Prelude.{◌≡◌, IfOk, IsSome, OnErr, OnOk};
ghost use Rattle.world_model.specs.Relay.{acknowledged_tenure, after_handle, target_in};
ghost use Rattle.world_model.specs.Stations.{rsl_in as message_in};
ghost use Rattle.world_model.specs.Takes.{Takes};
ghost use Rattle.world_actors.specs.Handling.{after_item};

use crate::Network;
use conn_messages::Place;
use ipa_framing::Frame;
use octets::Memory;
use rsl_codec::Rsl;
use ruled_relay::{Item, What};
use world_ends::rsl_in;
use world_model::Tenure;

/// The controller handles items.
impl Network {
    /// The controller handles the first item of the inbox, and the controller's outputs join the
    /// outboxes. Returns whether there was an item; if the inbox is empty, nothing changes.
    pub fn handle(&mut self) -> Result<bool, Memory>
        ensures ok { IfOk result (λ taken. Takes self.old (after_handle self.old) taken self.new) }
        ensures memory { OnErr result (IsSome (after_handle self.old)) }
    {
        match self.relay.take_item() {
            Some(item) => {
                self.handle_item(item)?;
                Ok(true)
            }
            None => Ok(false),
        }
    }

    fn handle_item(&mut self, item: Item) -> Result<(), Memory>
        ensures { OnOk result (self.new ≡ after_item item self.old) }
    {
        let target = self.target_of(&item)?;
        self.relay.handle(&target, item)
    }

    // The last tenure of a channel, if the item is the CHANNEL ACTIVATION ACK of this channel;
    // `None` for any other item.
    fn target_of(&self, item: &Item) -> Result<Option<Tenure>, Memory>
        ensures { IfOk result (λ target.
            target ≡ target_in self.now item.now.source item.now.what) }
    {
        match &item.what {
            What::Frame(frame) => self.acknowledged_tenure(item.source, frame),
            What::Down => Ok(None),
        }
    }

    fn acknowledged_tenure(&self, station: u16, frame: &Frame) -> Result<Option<Tenure>, Memory>
        ensures { IfOk result (λ target.
            target ≡ acknowledged_tenure self.now station (message_in frame.now)) }
    {
        let message = rsl_in(self.alloc, frame)?;
        let target = self.tenure_in(station, &message);
        drop(message);
        Ok(target)
    }

    fn tenure_in(&self, station: u16, message: &Option<Rsl>) -> Option<Tenure>
        ensures { result ≡ acknowledged_tenure self.now station message.now }
    {
        match message {
            Some(Rsl::ChannelActivationAck(acknowledged)) => Some(self.last_tenure(Place {
                station,
                number: acknowledged.channel,
            })),
            _ => None,
        }
    }
}
