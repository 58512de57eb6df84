// SPDX-License-Identifier: MIT OR Apache-2.0
ghost use Rattle.std.specs.Prelude.{◌≡◌, ◌<◌, ◌^◌, [], ◌∷◌, ◌++◌, IfOk, OnOk, OnErr};
ghost use Rattle.conn_messages.specs.Out.{IsLawfulMessage, IsSound, IsWritable, outs_of};
ghost use Rattle.std.specs.List.{AllByRecursion};
ghost use Rattle.conn_rules.specs.Connection.{new_connection, enter, emptied};

use crate::drains::Drains;
use conn_messages::{Channel, Message, Messages, Outputs};
use conn_rules::{DOWN_LIMIT, ShortMessageLink, State, UP_LIMIT};
use dtap_codec::Sapi;
use hold_queue::{Chain, Hold};
use octets::Memory;
use rsl_codec::{AccessDelay, RequestReference};
use std::alloc::Global;
use std::marker::Model;

/// The parts of a connection, and the rows of the state table. A row first makes its messages, then
/// appends their frames, then changes the parts. The last step allocates nothing, so an allocation
/// failure leaves the connection and the outputs unchanged.
#[derive(Drop)]
pub(crate) struct Machine {
    pub(crate) alloc: Global,
    pub(crate) number: u32,
    pub(crate) request: RequestReference,
    pub(crate) delay: AccessDelay,
    pub(crate) state: State,
    pub(crate) serving: Channel,
    pub(crate) link: ShortMessageLink,
    pub(crate) draining: Drains,
    pub(crate) down: Hold,
    pub(crate) up: Chain,
    pub(crate) waits: bool,
    pub(crate) waited: u64,
    pub(crate) drained: u64,
}

impl Model for Machine {
    ghost use Rattle.std.specs.Prelude.{◌<◌, ◌^◌};
    ghost use Rattle.conn_rules.specs.Connection.{Connection};

    ghost Value = { Connection };

    ghost view = { λ c. record {
      number = c.number;
      request = c.request;
      delay = c.delay.0;
      state = c.state;
      serving = c.serving;
      link = c.link;
      draining = c.draining;
      down = c.down;
      up = c.up;
      waits = c.waits;
      waited = c.waited;
      drained = c.drained;
    } };

    ghost invariant = { λ c. c.number < 2 ^ 24 };
}

impl Machine {
    pub(crate) fn new(
        alloc: Global,
        number: u32,
        channel: Channel,
        request: RequestReference,
        delay: AccessDelay,
    ) -> Result<Machine, Memory>
        requires { number < 2 ^ 24 }
        ensures { IfOk result (λ c. c ≡ new_connection number channel request delay.0) }
    {
        Ok(Machine {
            alloc,
            number,
            request,
            delay,
            state: State::WaitActivation,
            serving: channel,
            link: ShortMessageLink::Down,
            draining: Drains::new(alloc)?,
            down: Hold::new(alloc, DOWN_LIMIT),
            up: Chain::new(alloc, UP_LIMIT)?,
            waits: false,
            waited: 0,
            drained: 0,
        })
    }

    /// Appends the frames of the messages to `outputs`. If an allocation fails, returns `Memory`
    /// and appends nothing.
    pub(crate) fn put(&self, messages: &Messages, outputs: &mut Outputs) -> Result<(), Memory>
        ensures ok { OnOk result (outputs.new.outs ≡ outputs.old.outs
            ++ outs_of self.now.number messages.now) }
        ensures sound { AllByRecursion IsSound messages.now }
        ensures err { OnErr result (outputs.new.outs ≡ outputs.old.outs) }
    {
        outputs.put_all(self.alloc, self.number, messages)
    }

    /// Appends the frame of the message to `outputs`. If an allocation fails, returns `Memory` and
    /// appends nothing.
    pub(crate) fn put_one(&self, message: Message, outputs: &mut Outputs) -> Result<(), Memory>
        requires writable { IsWritable message }
        requires lawful { IsLawfulMessage message }
        ensures ok { OnOk result (outputs.new.outs ≡ outputs.old.outs
            ++ outs_of self.now.number (message ∷ [])) }
        ensures sound { AllByRecursion IsSound (message ∷ []) }
        ensures err { OnErr result (outputs.new.outs ≡ outputs.old.outs) }
    {
        outputs.put(self.alloc, self.number, &message)
    }

    /// Enters a state and sets the state's timer to 0.
    pub(crate) fn enter(&mut self, state: State)
        ensures { self.new ≡ enter state self.old }
    {
        self.state = state;
        self.waited = 0;
    }

    /// Enters a last state: drops the held messages, the waiting request and the old channels, and
    /// sets both timers to 0.
    pub(crate) fn empty(&mut self, state: State)
        ensures { self.new ≡ emptied state self.old }
    {
        self.enter(state);
        self.draining.clear();
        self.down.clear_sapi(Sapi::Zero);
        self.down.clear_sapi(Sapi::Three);
        self.up.clear();
        self.waits = false;
        self.drained = 0;
    }
}
