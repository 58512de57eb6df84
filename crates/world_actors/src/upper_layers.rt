// SPDX-License-Identifier: MIT OR Apache-2.0
ghost use Rattle.std.specs.Prelude.{◌≡◌, IfOk, IsSome, OnErr, true};
ghost use Rattle.conn_messages.specs.declared.parameters.TheConstants.{SWITCH_LINK};
ghost use Rattle.world_model.specs.Mobiles.{after_upper};
ghost use Rattle.world_model.specs.SwitchSide.{after_switch_does, after_switch_takes};
ghost use Rattle.world_model.specs.Takes.{Takes};
ghost use Rattle.world_model.specs.World.{is_up};
ghost use Rattle.world_model.specs.declared.event.SwitchAction.TheVariants as actions;

use crate::Network;
use conn_messages::SWITCH_LINK;
use dtap_codec::Sapi;
use octets::{MESSAGE_LIMIT, Memory};
use world_model::SwitchAction;

/// The upper layers of mobiles send messages, and the switch takes and sends messages.
impl Network {
    /// The upper layers of a mobile send a message. Returns whether the event was taken. It is
    /// taken only if the mobile is on a channel or between two channels, and the mobile's end takes
    /// the message.
    pub fn upper(&mut self, mobile: u8, sapi: Sapi, message: &[u8]) -> Result<bool, Memory>
        ensures ok { IfOk result (λ taken.
            Takes self.old (after_upper self.old mobile sapi message.now) taken self.new) }
        ensures memory { OnErr result (IsSome (after_upper self.old mobile sapi message.now)) }
    {
        self.mobiles.send(mobile, sapi, message)
    }

    /// The switch takes the first frame of its outbox. Returns whether the event was taken. It
    /// isn't taken if the switch's link isn't up, or if the outbox is empty.
    pub fn switch_takes(&mut self) -> Result<bool, Memory>
        ensures ok { IfOk result (λ taken.
            Takes self.old (after_switch_takes self.old) taken self.new) }
        ensures memory { OnErr result (IsSome (after_switch_takes self.old)) }
    {
        if !self.is_up(SWITCH_LINK) || self.relay.first_entry(SWITCH_LINK).is_none() {
            return Ok(false);
        }
        match self.relay.take_entry(SWITCH_LINK) {
            Some(entry) => {
                self.switch.take(&entry.out.frame)?;
                Ok(true)
            }
            None => Ok(false),
        }
    }

    /// The switch acts on one of its connections, unprompted by the controller. Returns whether the
    /// event was taken. It isn't taken if the switch's link isn't up, if the connection isn't open,
    /// or if a message to be sent doesn't have 1 to 251 octets.
    pub fn switch_does(&mut self, action: &SwitchAction) -> Result<bool, Memory>
        ensures ok { IfOk result (λ taken.
            Takes self.old (after_switch_does self.old action.now) taken self.new) }
        ensures memory { OnErr result (IsSome (after_switch_does self.old action.now)) }
    {
        if !self.is_up(SWITCH_LINK) {
            return Ok(false);
        }
        match action {
            SwitchAction::Assign(connection) => self.switch.assign(*connection),
            SwitchAction::Clear(connection) => self.switch.clear(*connection),
            SwitchAction::Dtap {
                connection,
                sapi,
                message,
            } => self.switch_sends(*connection, *sapi, message.as_slice()),
        }
    }

    fn switch_sends(&mut self, connection: u32, sapi: Sapi, message: &[u8]) -> Result<bool, Memory>
        requires { is_up self.old SWITCH_LINK ≡ true }
        ensures ok { IfOk result (λ taken. Takes self.old
            (after_switch_does self.old (actions.Dtap connection sapi message.now))
            taken self.new) }
        ensures memory { OnErr result
            (IsSome (after_switch_does self.old (actions.Dtap connection sapi message.now))) }
    {
        if message.is_empty() || message.len() > MESSAGE_LIMIT {
            return Ok(false);
        }
        self.switch.send(connection, sapi, message)
    }
}
