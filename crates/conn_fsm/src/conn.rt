// SPDX-License-Identifier: MIT OR Apache-2.0
ghost use Rattle.std.specs.Prelude.{◌≡◌, ◌<◌, ◌^◌, None, IfOk, length};
ghost use Rattle.conn_rules.specs.Connection.{new_connection};
ghost use Rattle.conn_rules.specs.Validity.{IsCarried, IsValid};
ghost use Rattle.conn_rules.specs.Table.{row_of, serving_after};
ghost use Rattle.hold_queue.specs.HoldState.{messages};
ghost use Rattle.conn_fsm.specs.Doing.{Commits, IsAsPlanned, IsPlanned, StepsOnOk, UnchangedOnErr};
ghost use Rattle.conn_fsm.specs.Doing.{WantsForHeld, WantsForRow, outs_in};
ghost use Rattle.conn_rules.specs.Timers.{after_pass};
ghost use Rattle.conn_fsm.specs.Views.{joined};

use crate::Plan;
use crate::machine::Machine;
use conn_messages::{Channel, Outputs};
use conn_rules::{Input, State};
use dtap_codec::Sapi;
use octets::{Memory, Octets};
use rsl_codec::{AccessDelay, RequestReference};
use std::alloc::Global;
use std::marker::Model;

/// A connection of the base station controller, from a mobile's access until the connection is
/// cleared (TS 48.008 clause 3.1, TS 44.018 clause 3). Each step is a row of the state table in
/// `conn_rules`.
#[derive(Drop)]
pub struct Conn {
    machine: Machine,
}

impl Model for Conn {
    ghost use Rattle.conn_rules.specs.Connection.{Connection};
    ghost use Rattle.conn_rules.specs.Validity.{IsValid};

    ghost Value = { Connection };

    ghost view = { λ c. c.machine };

    ghost invariant = { λ c. IsValid c.machine };
}

impl Conn {
    /// A connection with number `number`, which must be below 2^24. It waits for the activation of
    /// its access channel, `channel`; the caller puts the CHANNEL ACTIVATION. `request` and `delay`
    /// are those of the CHANNEL REQUIRED. Allocates room for all old channels and keeps the
    /// allocator. Returns `Memory` if an allocation fails.
    #[tactic(auto, using(crate::proofs::Keeping::new_is_valid))]
    pub fn new(
        alloc: Global,
        number: u32,
        channel: Channel,
        request: RequestReference,
        delay: AccessDelay,
    ) -> Result<Conn, Memory>
        requires { number < 2 ^ 24 }
        ensures { IfOk result (λ c. c ≡ new_connection number channel request delay.0) }
    {
        let machine = Machine::new(alloc, number, channel, request, delay)?;
        Ok(Conn { machine })
    }

    /// Does the row of the table that fits `input`: appends the row's frames to `outputs` and
    /// returns `true`. If no row fits, changes nothing and returns `false`. `offer` is the channel
    /// for a change that the row may begin. A layer 3 message in `input` must have 1 to 251 octets.
    /// If an allocation fails, changes nothing and returns `Memory`; this is possible only if a row
    /// fits.
    #[tactic(auto, unfolding(conn_rules::specs::Table::row_of), using(crate::proofs::Keeping::step_is_valid))]
    pub fn step(
        &mut self,
        input: Input,
        offer: Option<Channel>,
        outputs: &mut Outputs,
    ) -> Result<bool, Memory>
        requires { IsCarried input }
        ensures done { StepsOnOk result (row_of self.old input offer)
            self.old self.new outputs.old.outs outputs.new.outs }
        ensures err { UnchangedOnErr result self.old self.new outputs.old.outs outputs.new.outs }
        ensures memory { WantsForRow result (row_of self.old input offer) }
    {
        self.machine.step(input, offer, outputs)
    }

    /// Plans the step for `input`, which must be an expiry or a broken link; `commit` does the
    /// step. Returns `Memory` if an allocation fails, which is possible only if a row fits.
    pub fn plan(&self, input: Input) -> Result<Plan, Memory>
        requires { IsPlanned input }
        ensures was { IfOk result (λ plan. plan.was ≡ self.now) }
        ensures input { IfOk result (λ plan. plan.input ≡ input) }
        ensures outs { IfOk result
            (λ plan. plan.outs ≡ outs_in (row_of self.now input None) self.now.number) }
        ensures memory { WantsForRow result (row_of self.now input None) }
    {
        self.machine.plan(input)
    }

    /// Does the planned step and returns its frames. Since the step was planned, nothing but the
    /// timers of the connection may have changed. Allocates nothing.
    #[tactic(auto, using(crate::proofs::Keeping::commit_is_valid))]
    pub fn commit(&mut self, plan: Plan) -> Outputs
        requires { IsAsPlanned plan.was self.old }
        ensures { Commits (row_of self.old plan.input None) self.old self.new result.outs }
    {
        self.machine.commit(plan)
    }

    /// Advances the timer of the state by `ms` milliseconds, and also the drain time if a channel
    /// drains. Both timers saturate.
    #[tactic(auto, using(crate::proofs::Keeping::pass_is_valid))]
    pub fn pass(&mut self, ms: u32)
        ensures { self.new ≡ after_pass ms self.old }
    {
        self.machine.pass(ms);
    }

    /// The number of the connection, below 2^24, which is also its local reference towards the
    /// switch.
    pub fn number(&self) -> u32
        ensures number { result ≡ self.now.number }
        ensures three_octets { result < 2 ^ 24 }
    {
        self.machine.number
    }

    pub fn state(&self) -> State
        ensures { result ≡ self.now.state }
    {
        self.machine.state
    }

    /// The serving channel.
    pub fn serving(&self) -> Channel
        ensures { result ≡ self.now.serving }
    {
        self.machine.serving
    }

    /// The channel that would serve after the row for `input`: the target if the row completes a
    /// change, else the serving channel.
    pub fn serving_after(&self, input: &Input) -> Channel
        ensures { result ≡ serving_after self.now (row_of self.now input.now None) }
    {
        self.machine.serving_after(input)
    }

    /// The milliseconds since the connection entered its state; saturates.
    pub fn waited(&self) -> u64
        ensures { result ≡ self.now.waited }
    {
        self.machine.waited
    }

    /// The milliseconds for which the oldest old channel has drained as the oldest; saturates. The
    /// value is 0 if no channel drains.
    pub fn drained(&self) -> u64
        ensures { result ≡ self.now.drained }
    {
        self.machine.drained
    }

    /// The value of `waited` after `ms` more milliseconds.
    pub fn waited_after(&self, ms: u32) -> u64
        ensures { result ≡ (after_pass ms self.now).waited }
    {
        self.machine.waited_after(ms)
    }

    /// The value of `drained` after `ms` more milliseconds.
    pub fn drained_after(&self, ms: u32) -> u64
        ensures { result ≡ (after_pass ms self.now).drained }
    {
        self.machine.drained_after(ms)
    }

    /// A copy of the switch's messages of `sapi` that are held, in order. Returns `Memory` if an
    /// allocation fails, which is possible only if such messages are held.
    pub fn held(&self, sapi: Sapi) -> Result<Vec<Octets>, Memory>
        ensures list { IfOk result (λ list. list.items ≡ messages self.now.down sapi) }
        ensures memory { WantsForHeld result (messages self.now.down sapi) }
    {
        self.machine.held(sapi)
    }

    /// A copy of the mobile's messages of `sapi` that are held, in order, the oldest tenure first.
    /// Returns `Memory` if an allocation fails, which is possible only if such messages are held.
    pub fn held_up(&self, sapi: Sapi) -> Result<Vec<Octets>, Memory>
        ensures list { IfOk result (λ list. list.items ≡ joined sapi self.now.up.tenures) }
        ensures memory { WantsForHeld result (joined sapi self.now.up.tenures) }
    {
        self.machine.held_up(sapi)
    }

    /// The number of messages that `held` would return; copies nothing.
    pub fn held_count(&self, sapi: Sapi) -> usize
        ensures { result ≡ length (messages self.now.down sapi) }
    {
        self.machine.held_count(sapi)
    }

    /// The number of messages that `held_up` would return; copies nothing.
    pub fn held_up_count(&self, sapi: Sapi) -> usize
        ensures { result ≡ length (joined sapi self.now.up.tenures) }
    {
        self.machine.held_up_count(sapi)
    }
}
