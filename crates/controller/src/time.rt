// SPDX-License-Identifier: MIT OR Apache-2.0
ghost use Rattle.std.specs.Prelude.{◌≡◌, IfErr, OnOk};
ghost use Rattle.conn_rules.specs.Timers.{after_pass};
ghost use Rattle.controller_model.specs.declared.step.Step.TheVariants.{Tick};
ghost use Rattle.controller_model.specs.Life as words;
ghost use Rattle.controller.specs.Doing.{Turns, UnchangedOnErr};
ghost use Rattle.controller.specs.Wanting.{MayWantMemory};

use crate::controller::Controller;
use crate::many::Cause;
use conn_fsm::{Conn, Outputs};
use conn_messages::Change;
use conn_rules::{Input, Stage, State};
use octets::Memory;
use settings::Settings;

impl Controller {
    /// Lets `ms` milliseconds pass for all connections. Then each connection with an expired timer
    /// gets the expiry as an input, in the order of their numbers. Appends the frames that the
    /// controller puts to `outputs`. If memory runs out, returns `Memory` and changes nothing.
    pub fn tick(&mut self, ms: u32, outputs: &mut Outputs) -> Result<(), Memory>
        ensures ok { OnOk result (Turns (words.tick ms self.old)
            self.old self.new outputs.old.outs outputs.new.outs) }
        ensures err { UnchangedOnErr result self.old self.new outputs.old.outs outputs.new.outs }
        // Memory can run out only if a timer expires.
        ensures memory { IfErr result (λ _. MayWantMemory (Tick ms) self.old) }
    {
        let planned = self.plan_with_room(&Cause::Time(ms), outputs)?;
        self.connections.age(ms);
        self.carry_out(planned, outputs);
        Ok(())
    }
}

/// The expiry that is due once `ms` more milliseconds have passed: that of the state's timer, else
/// that of the drain time; `None` if neither has expired.
pub(crate) fn expiry_after(settings: &Settings, conn: &Conn, ms: u32) -> Option<Input>
    ensures { result ≡ words.expiry settings.now.timers (after_pass ms conn.now) }
{
    if is_over(time_of(settings, conn.state()), conn.waited_after(ms)) {
        Some(Input::Expiry)
    } else if u64::from(settings.drain_ms()) <= conn.drained_after(ms) {
        Some(Input::DrainExpiry)
    } else {
        None
    }
}

fn is_over(time: Option<u32>, waited: u64) -> bool
    ensures { result ≡ words.is_over time waited }
{
    match time {
        Some(ms) => u64::from(ms) <= waited,
        None => false,
    }
}

// The duration of a state's timer in ms: T3101 until the mobile has established its link, T3107
// during an assignment, T3103 during a handover. `None` for a state without a timer.
fn time_of(settings: &Settings, state: State) -> Option<u32>
    ensures { result ≡ words.time_of settings.now.timers state }
{
    match state {
        State::WaitActivation | State::WaitEstablish => Some(settings.t3101_ms()),
        State::Live(_, Stage::Preparing(target) | Stage::Changing(target)) => {
            Some(change_time(settings, target.change))
        }
        _ => None,
    }
}

fn change_time(settings: &Settings, change: Change) -> u32
    ensures { result ≡ words.change_time settings.now.timers change }
{
    match change {
        Change::Assignment => settings.t3107_ms(),
        Change::Handover => settings.t3103_ms(),
    }
}
