// SPDX-License-Identifier: MIT OR Apache-2.0
ghost use Rattle.std.specs.Prelude.{◌≡◌, None, Ok, Err, is_some, option_map};
ghost use Rattle.std.specs.Prelude.{if◌then◌else◌};
ghost use Rattle.std.specs.Result.{result_map_both};
ghost use Rattle.std.specs.Borrow.{sem};
ghost use Rattle.link_model.specs.AirLink.{give_answer, after_give, offered_message, after_reach};
ghost use Rattle.link_model.specs.AirLink.{after_ack, is_reached, is_empty, message_in};
ghost use Rattle.link_model.specs.RestsAfterReach.{RestsAfterReach};

use octets::Octets;
use std::marker::Model;
use std::mem;

/// The message in the air on one acknowledged link, if any. The station takes it once and then
/// acknowledges it.
#[derive(Drop)]
pub enum Air {
    Empty,
    /// Given to the link, not yet taken by the station.
    Given(Octets),
    /// Taken by the station, not yet acknowledged.
    Reached(Octets),
}

/// One acknowledged link (TS 44.006): the mobile gives a message to the link, the station takes the
/// message once, and the station's acknowledgement empties the link. No call allocates.
#[derive(Drop)]
pub struct AirLink {
    air: Air,
}

impl Model for AirLink {
    ghost use Rattle.link_model.specs.declared.air_link.Air.{Air};

    ghost Value = { Air };

    ghost view = { λ link. link.air };
}

impl AirLink {
    /// An empty link.
    pub fn new() -> AirLink
        ensures { result ≡ Air.Empty }
    {
        AirLink { air: Air::Empty }
    }

    /// Whether nothing is in the air.
    pub fn is_empty(&self) -> bool
        ensures { result ≡ is_empty self.now }
    {
        matches!(&self.air, Air::Empty)
    }

    /// Gives a message to the link. If a message is in the air already, `Err` hands the new message
    /// back and nothing changes.
    pub fn give(&mut self, message: Vec<u8>) -> Result<(), Vec<u8>>
        ensures answer { result_map_both (λ _. tt) (λ message. message.items) result
            ≡ give_answer self.old message.items }
        ensures after { self.new ≡ after_give self.old message.items }
    {
        if !self.is_empty() {
            return Err(message);
        }
        self.air = Air::Given(Octets::new(message));
        Ok(())
    }

    /// Marks the message in the air as taken by the station, and lends that message. Returns `None`
    /// if no message is in the air or if the station took the message already; nothing changes
    /// then.
    pub fn reach(&mut self) -> Option<&[u8]>
        ensures* after { sem 𝓛 (RestsAfterReach self.entry) }
        ensures message { option_map (λ message. message.now) result ≡ offered_message self.old }
    {
        if self.take() { self.message() } else { None }
    }

    /// Marks the message in the air as taken by the station. Returns whether a message was in the
    /// air that the station hadn't taken yet; if not, nothing changes.
    fn take(&mut self) -> bool
        ensures taken { result ≡ is_some (offered_message self.old) }
        ensures after { self.new ≡ after_reach self.old }
        ensures message { offered_message self.old
            ≡ (if result then message_in self.new else None) }
    {
        match mem::replace(&mut self.air, Air::Empty) {
            Air::Given(message) => {
                self.air = Air::Reached(message);
                true
            }
            air => {
                self.air = air;
                false
            }
        }
    }

    fn message(&self) -> Option<&[u8]>
        ensures { option_map (λ message. message.now) result ≡ message_in self.now }
    {
        match &self.air {
            Air::Empty => None,
            Air::Given(message) => Some(message.as_slice()),
            Air::Reached(message) => Some(message.as_slice()),
        }
    }

    /// Empties the link, since the station acknowledges the message that it took. Returns whether
    /// the station had taken the message in the air; if not, nothing changes.
    pub fn ack(&mut self) -> bool
        ensures acknowledged { result ≡ is_reached self.old }
        ensures after { self.new ≡ after_ack self.old }
    {
        match &self.air {
            Air::Reached(_) => {
                self.air = Air::Empty;
                true
            }
            _ => false,
        }
    }

    /// Breaks the link: empties it, and hands back the message in the air. The station hadn't taken
    /// that message or hadn't acknowledged it. `None` if no message was in the air.
    pub fn cut(&mut self) -> Option<Vec<u8>>
        ensures message { option_map (λ message. message.items) result ≡ message_in self.old }
        ensures after { self.new ≡ Air.Empty }
    {
        match mem::replace(&mut self.air, Air::Empty) {
            Air::Empty => None,
            Air::Given(message) => Some(message.into_vec()),
            Air::Reached(message) => Some(message.into_vec()),
        }
    }
}
