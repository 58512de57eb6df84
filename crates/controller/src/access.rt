// SPDX-License-Identifier: MIT OR Apache-2.0
ghost use Rattle.std.specs.Prelude.{◌≡◌, ◌≢◌, ◌<◌, ◌≤◌, ◌^◌, []};
ghost use Rattle.std.specs.Prelude.{◌∷◌, length, IfErr, IfOk, OnOk};
ghost use Rattle.conn_messages.specs.Out.{IsLawfulMessage, outs_of};
ghost use Rattle.conn_messages.specs.StationMessage.{access_activation};
ghost use Rattle.connections.specs.Entries.{IsOfCell};
ghost use Rattle.controller_model.specs.Life as words;
ghost use Rattle.controller.specs.Doing.{Turns, UnchangedOnErr};
ghost use Rattle.controller.specs.Wanting.{IsGiven};

use crate::controller::Controller;
use conn_fsm::{Channel, Outputs};
use conn_messages::station_message::access_activation;
use conn_messages::{Messages, SWITCH_LINK};
use controller_model::MAX_CONNECTION_NUMBER;
use octets::Memory;
use rsl_codec::RequestReference;
use std::alloc::Global;

impl Controller {
    /// Takes a CHANNEL REQUIRED of `station`: opens the next connection on the first free SDCCH of
    /// the station's cell. Ignores the CHANNEL REQUIRED if no SDCCH is free, the switch's link is
    /// down, or no number is left for a connection. If memory runs out, returns `Memory` and
    /// changes nothing.
    #[tactic(auto, using(crate::proofs::Wanting::given_on_refusal))]
    pub(crate) fn on_request(
        &mut self,
        station: u16,
        request: RequestReference,
        delay: u8,
        outputs: &mut Outputs,
    ) -> Result<(), Memory>
        requires { station ≢ 0 }
        ensures ok { OnOk result (Turns (words.asked self.old station request delay)
            self.old self.new outputs.old.outs outputs.new.outs) }
        ensures err { UnchangedOnErr result self.old self.new outputs.old.outs outputs.new.outs }
        ensures memory { IfErr result (λ _. IsGiven self.old station) }
    {
        if !self.may_open() {
            self.ignore();
            return Ok(());
        }
        match self.access_channel(station) {
            Some(channel) => self.open(channel, request, delay, outputs),
            None => {
                self.ignore();
                Ok(())
            }
        }
    }

    fn may_open(&self) -> bool
        ensures { result ≡ words.may_open self.now }
    {
        self.is_up(SWITCH_LINK) && self.next_number <= MAX_CONNECTION_NUMBER
    }

    // Opens the next connection on `channel`, and puts the CHANNEL ACTIVATION of this channel.
    fn open(
        &mut self,
        channel: Channel,
        request: RequestReference,
        delay: u8,
        outputs: &mut Outputs,
    ) -> Result<(), Memory>
        requires number { self.old.next_number < 2 ^ 24 }
        requires channel { IsOfCell self.old.settings channel }
        ensures ok { OnOk result (Turns (words.with_connection self.old channel request delay)
            self.old self.new outputs.old.outs outputs.new.outs) }
        ensures err { UnchangedOnErr result self.old self.new outputs.old.outs outputs.new.outs }
    {
        let number = self.next_number;
        let made = activation_frames(self.alloc, number, &channel, outputs)?;
        self.connections.open(number, channel, request, delay)?;
        self.channels.follow(number, made.as_slice());
        self.next_number = number + 1;
        outputs.append(made);
        Ok(())
    }
}

// Returns the frames that activate the access channel, and reserves room for these frames in
// `outputs`. Returns `Memory` if an allocation fails.
fn activation_frames(
    alloc: Global,
    number: u32,
    channel: &Channel,
    outputs: &mut Outputs,
) -> Result<Outputs, Memory>
    requires { number < 2 ^ 24 }
    ensures made { IfOk result
        (λ made. made.outs ≡ outs_of number (access_activation channel.now ∷ [])) }
    ensures lawful { IfOk result (λ _. IsLawfulMessage (access_activation channel.now)) }
    ensures room { IfOk result (λ made. length made.outs ≤ outputs.new.spare) }
    ensures outs { outputs.new.outs ≡ outputs.old.outs }
{
    outputs.reserve(1)?;
    let messages = activation_messages(alloc, channel)?;
    Outputs::made(alloc, number, &messages)
}

fn activation_messages(alloc: Global, channel: &Channel) -> Result<Messages, Memory>
    ensures messages { IfOk result
        (λ messages. messages ≡ access_activation channel.now ∷ []) }
    ensures lawful { IfOk result (λ _. IsLawfulMessage (access_activation channel.now)) }
{
    let activation = access_activation(alloc, channel)?;
    let mut messages = Messages::new(alloc);
    messages.push(activation)?;
    Ok(messages)
}
