// SPDX-License-Identifier: MIT OR Apache-2.0
ghost use Rattle.std.specs.Prelude.{◌≡◌, OnOk, None};
ghost use Rattle.std.specs.Option.{is_some};
ghost use Rattle.conn_rules.specs.declared.input.Input.TheVariants as inputs;
ghost use Rattle.conn_rules.specs.Validity.{IsCarried};
ghost use Rattle.conn_rules.specs.Table.{row_of};
ghost use Rattle.controller_model.specs.Controller as words;
ghost use Rattle.controller_model.specs.Life.{concerning_too, entry_at, frees as is_freed};
ghost use Rattle.controller_model.specs.Life.{on_state};
ghost use Rattle.controller.specs.Doing.{Turns, UnchangedOnErr};
ghost use Rattle.controller.specs.Offers.{awaits as awaits_by};
ghost use Rattle.controller.specs.Wanting.{WantsForRowOf};

use crate::controller::Controller;
use conn_fsm::{Conn, Outputs, is_at};
use conn_messages::Place;
use conn_rules::{Input, Stage, State};
use controller_model::ChannelState;
use octets::Memory;

impl Controller {
    /// Takes an input on the channel at `at`, and gives it to the connection that has or had the
    /// channel. An input on a free channel is ignored. Before the connection gets the input, an RF
    /// CHANNEL RELEASE ACK frees a channel that is releasing, and a CHANNEL ACTIVATION NACK frees a
    /// channel whose activation the connection waits for.
    pub(crate) fn on_channel(
        &mut self,
        at: &Place,
        input: Input,
        outputs: &mut Outputs,
    ) -> Result<(), Memory>
        requires { IsCarried input }
        ensures ok { OnOk result (Turns (on_state (words.channel_state self.old at.now) at.now input
            self.old (entry_at self.old (words.channel_state self.old at.now)))
            self.old self.new outputs.old.outs outputs.new.outs) }
        ensures err { UnchangedOnErr result self.old self.new outputs.old.outs outputs.new.outs }
        ensures memory { WantsForRowOf result
            (entry_at self.old (words.channel_state self.old at.now)) input }
    {
        let state = self.channels.state(*at);
        let Some(number) = holder(&state) else {
            drop(input);
            self.ignore();
            return Ok(());
        };
        if self.frees(&state, number, &input) {
            self.on_freed(at, number, input, outputs)
        } else {
            self.concern(number, input, outputs)
        }
    }

    // Frees the channel, then gives the input to connection `number`. If memory runs out, returns
    // `Memory` and changes nothing.
    fn on_freed(
        &mut self,
        at: &Place,
        number: u32,
        input: Input,
        outputs: &mut Outputs,
    ) -> Result<(), Memory>
        requires { IsCarried input }
        ensures ok { OnOk result (Turns (concerning_too input (words.freed at.now self.old)
            (words.entry_of self.old number))
            self.old self.new outputs.old.outs outputs.new.outs) }
        ensures err { UnchangedOnErr result self.old self.new outputs.old.outs outputs.new.outs }
        ensures memory { WantsForRowOf result (words.entry_of self.old number) input }
    {
        let state = self.channels.state(*at);
        self.channels.set(*at, ChannelState::Free);
        match self.do_row(number, input, outputs) {
            Ok(_) => Ok(()),
            Err(Memory) => {
                self.channels.set(*at, state);
                Err(Memory)
            }
        }
    }

    fn frees(&self, state: &ChannelState, number: u32, input: &Input) -> bool
        ensures { result ≡ is_freed state.now (words.entry_of self.now number) input.now }
    {
        match (state, input) {
            (ChannelState::Releasing(_), Input::ReleaseAck { .. }) => true,
            (_, Input::ActivationNack { at }) => match self.connections.get(number) {
                Some(entry) => awaits(entry.connection(), at),
                None => false,
            },
            _ => false,
        }
    }
}

/// The number of the connection that has the channel, or had it while the channel is releasing;
/// `None` if the channel is free.
pub(crate) fn holder(state: &ChannelState) -> Option<u32>
    ensures { result ≡ words.holder state.now }
{
    match state {
        ChannelState::Free => None,
        ChannelState::InUse(number) | ChannelState::Releasing(number) => Some(*number),
    }
}

// Whether the connection waits for the activation of the channel at `at`.
#[tactic(auto, using(crate::proofs::Concerning::nack_is_awaited))]
fn awaits(conn: &Conn, at: &Place) -> bool
    ensures { result ≡ is_some (row_of conn.now (inputs.ActivationNack at.now) None) }
{
    awaits_in(conn.state(), conn, at)
}

fn awaits_in(state: State, conn: &Conn, at: &Place) -> bool
    ensures { result ≡ awaits_by state conn.now at.now }
{
    match state {
        State::WaitActivation => is_at(at, &conn.serving()),
        State::Live(_, Stage::Preparing(target)) => is_at(at, &target.channel),
        _ => false,
    }
}
