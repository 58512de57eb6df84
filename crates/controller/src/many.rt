// SPDX-License-Identifier: MIT OR Apache-2.0
ghost use Rattle.std.specs.Prelude.{◌≡◌, ◌≢◌, ◌+◌, ◌≤◌, ◌++◌, [], map, sum_by, IfErr, IfOk};
ghost use Rattle.std.specs.Prelude.{IfSome, OnOk};
ghost use Rattle.conn_fsm.specs.Doing.{IsPlanned};
ghost use Rattle.connections.specs.Entries.{AreRising};
ghost use Rattle.controller_model.specs.Controller.{each, entry_of};
ghost use Rattle.controller.specs.Doing.{Turns};
ghost use Rattle.controller.specs.Many.{AreReady, IsReadyFor, all_due, due as due_input, due_of};
ghost use Rattle.controller.specs.Many.{carried_out, frames_of, planned_for};
ghost use Rattle.controller.specs.Wanting.{IsDue};

use crate::breaks::break_of;
use crate::controller::Controller;
use crate::time::expiry_after;
use conn_fsm::{Conn, Outputs, Plan};
use conn_rules::Input;
use octets::Memory;
use std::marker::Model;

/// An event that may concern all connections.
#[derive(Clone, Copy)]
pub(crate) enum Cause {
    /// The given number of milliseconds passes.
    Time(u32),
    /// The link with the given number breaks.
    Break(u16),
}

/// The planned step of the connection with number `number`.
#[derive(Drop)]
pub(crate) struct Planned {
    pub(crate) number: u32,
    pub(crate) plan: Plan,
}

impl Model for Planned {
    ghost use Rattle.controller.specs.Many.{IsRow, PlannedState};

    ghost Value = { PlannedState };

    ghost view = { λ one. record { number = one.number; plan = one.plan } };

    ghost invariant = { λ one. IsRow one.plan };
}

impl Controller {
    /// Plans the step of each connection that `cause` concerns, in the order of their numbers.
    /// Allocates all memory that these steps need, except room in the outputs. Returns `Memory` if
    /// an allocation fails.
    fn plan_all(&self, cause: &Cause) -> Result<Vec<Planned>, Memory>
        ensures planned { IfOk result (λ planned. map planned_for planned.items
            ≡ all_due cause.now self.now.settings.timers self.now.entries) }
        ensures rising { AreRising self.now.entries }
        ensures memory { IfErr result (λ _. IsDue cause.now self.now) }
    {
        let mut planned = Vec::new(self.alloc);
        for place in 0..self.connections.len() {
            let Some(entry) = self.connections.at(place) else {
                break;
            };
            self.plan_one(entry.connection(), cause, &mut planned)?;
        }
        Ok(planned)
    }

    /// Like `plan_all`, and also reserves room in `outputs` for the frames of all planned steps.
    #[tactic(auto, using(crate::proofs::Planning::some_due))]
    pub(crate) fn plan_with_room(
        &self,
        cause: &Cause,
        outputs: &mut Outputs,
    ) -> Result<Vec<Planned>, Memory>
        ensures planned { IfOk result (λ planned. map planned_for planned.items
            ≡ all_due cause.now self.now.settings.timers self.now.entries) }
        ensures rising { AreRising self.now.entries }
        ensures room { IfOk result
            (λ planned. sum_by frames_of planned.items ≤ outputs.new.spare) }
        ensures outs { outputs.new.outs ≡ outputs.old.outs }
        ensures memory { IfErr result (λ _. IsDue cause.now self.now) }
    {
        let planned = self.plan_all(cause)?;
        match make_room(planned.as_slice(), outputs) {
            Ok(()) => Ok(planned),
            Err(Memory) => Err(Memory),
        }
    }

    #[tactic(auto, using(crate::proofs::Planning::is_due))]
    fn plan_one(&self, conn: &Conn, cause: &Cause, planned: &mut Vec<Planned>) -> Result<(), Memory>
        ensures planned { OnOk result (map planned_for planned.new.items
            ≡ map planned_for planned.old.items
            ++ due_of cause.now self.now.settings.timers conn.now) }
        ensures memory { IfErr result
            (λ _. due_of cause.now self.now.settings.timers conn.now ≢ []) }
    {
        if let Some(input) = self.due(cause, conn) {
            let plan = conn.plan(input)?;
            let number = conn.number();
            planned.push(Planned { number, plan })?;
        }
        Ok(())
    }

    // The input that `cause` gives to the connection; `None` if it gives no input.
    fn due(&self, cause: &Cause, conn: &Conn) -> Option<Input>
        ensures input { result ≡ due_input cause.now self.now.settings.timers conn.now }
        ensures planned { IfSome result IsPlanned }
    {
        match cause {
            Cause::Time(ms) => expiry_after(&self.settings, conn, *ms),
            Cause::Break(source) => Some(break_of(*source)),
        }
    }

    /// Does the planned steps in order and appends their frames to `outputs`, which must have room
    /// for them. Allocates nothing.
    pub(crate) fn carry_out(&mut self, planned: Vec<Planned>, outputs: &mut Outputs)
        requires ready { AreReady (map planned_for planned.items) self.old.entries }
        requires room { sum_by frames_of planned.items ≤ outputs.old.spare }
        ensures { Turns (each carried_out self.old (map planned_for planned.items))
            self.old self.new outputs.old.outs outputs.new.outs }
    {
        for one in planned {
            self.carry_out_one(one, outputs);
        }
    }

    fn carry_out_one(&mut self, one: Planned, outputs: &mut Outputs)
        requires ready { IsReadyFor one.plan.was (entry_of self.old one.number) }
        requires room { frames_of one ≤ outputs.old.spare }
        ensures turns { Turns (carried_out self.old (planned_for one))
            self.old self.new outputs.old.outs outputs.new.outs }
        ensures room { outputs.old.spare ≤ outputs.new.spare + frames_of one }
    {
        let Planned { number, plan } = one;
        let made = self.connections.commit(number, plan);
        self.follow(number, made.as_slice());
        outputs.append(made);
    }
}

// Reserves room in `outputs` for the frames of the planned steps. Allocates nothing if there are no
// steps. Returns `Memory` if the allocation fails.
fn make_room(planned: &[Planned], outputs: &mut Outputs) -> Result<(), Memory>
    ensures room { OnOk result (sum_by frames_of planned.now ≤ outputs.new.spare) }
    ensures outs { outputs.new.outs ≡ outputs.old.outs }
    ensures memory { IfErr result (λ _. planned.now ≢ []) }
{
    if planned.is_empty() {
        return Ok(());
    }
    let count = frames(planned)?;
    outputs.reserve(count)
}

// The number of frames that the planned steps put. Returns `Memory` if the number overflows, since
// no memory holds so many frames.
fn frames(planned: &[Planned]) -> Result<usize, Memory>
    ensures { IfOk result (λ count. count ≡ sum_by frames_of planned.now) }
{
    let mut count: usize = 0;
    for one in planned {
        count = count.checked_add(one.plan.len()).ok_or(Memory)?;
    }
    Ok(count)
}
