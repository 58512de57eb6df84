// SPDX-License-Identifier: MIT OR Apache-2.0
ghost use Rattle.std.specs.Prelude.{◌≡◌, IfErr, IfOk, List, OnOk};
ghost use Rattle.std.specs.List.{AllByRecursion};
ghost use Rattle.controller_model.specs.LifeLaws.Sending.{IsOctetStep, IsSent};
ghost use Rattle.controller_model.specs.declared.step.Step.{Step as StepValue};
ghost use Rattle.controller_model.specs.Controller.{Controller as ControllerValue, each, turn};
ghost use Rattle.controller_model.specs.Life as words;
ghost use Rattle.controller.specs.Doing.{Turns, UnchangedOnErr};
ghost use Rattle.controller.specs.Laws.{IsNew, KeepsLaws};
ghost use Rattle.controller.specs.Wanting.{MayWantMemory};
ghost use Rattle.settings.specs.Parameters.{AreAllowed, Parameters};

use crate::controller::Controller;
use crate::of_octets::arrive_in_octets;
use conn_fsm::Outputs;
use controller_model::Step;
use octets::Memory;
use settings::Settings;
use std::alloc::Global;

/// Runs a new controller with `settings` over `steps`. Returns the controller after the steps and
/// the frames that it put; both are those of the model's `life`. Therefore the laws of a life
/// (`KeepsLaws`) hold of this controller and these frames. For each connection, the messages uplink
/// and downlink are conserved in order; no message is handed while the connection's channel changes
/// or once the connection is closed; and no other connection uses its channels. Returns `Memory` if
/// memory runs out.
pub fn run(
    alloc: Global,
    settings: Settings,
    steps: Vec<Step>,
) -> Result<(Controller, Outputs), Memory>
    ensures life { IfOk result (λ both. (both.0 ≡ (words.life settings steps.items).next)
        × (both.1.outs ≡ (words.life settings steps.items).outs)) }
    ensures laws { IfOk result
        (λ both. KeepsLaws settings steps.items (turn both.1.outs both.0)) }

    // Settings of the code are always allowed, and steps of the code always carry octets. Therefore
    // each frame that is put has a body of at most 2,048 octets and is read as the message that was
    // put, or is PONG.
    ensures allowed { AreAllowed settings }
    ensures octets { AllByRecursion IsOctetStep steps.items }
    ensures sent { IfOk result (λ both. AllByRecursion IsSent both.1.outs) }
{
    arrive_in_octets(&steps);
    live(alloc, settings, steps)
}

/// Law: the laws of a life (`KeepsLaws`) hold of every life of the model, and of any steps that a
/// new controller does. Assumes: the settings are allowed.
pub fn lives_keep_laws()
    ensures lives { (p : Parameters) (steps : List StepValue) → AreAllowed p
        → KeepsLaws p steps (words.life p steps) }
    ensures new { (start : ControllerValue) (steps : List StepValue) → IsNew start
        → KeepsLaws start.settings steps (each words.step start steps) }
{}

// Makes a new controller and does the steps, one after the other.
#[tactic(auto, unfolding(controller_model::specs::Life::life))]
fn live(
    alloc: Global,
    settings: Settings,
    steps: Vec<Step>,
) -> Result<(Controller, Outputs), Memory>
    ensures life { IfOk result (λ both. (both.0 ≡ (words.life settings steps.items).next)
        × (both.1.outs ≡ (words.life settings steps.items).outs)) }
    ensures allowed { AreAllowed settings }
{
    let mut controller = Controller::new(alloc, settings)?;
    let mut outputs = Outputs::new(alloc);
    match controller.run_all(steps, &mut outputs) {
        Ok(()) => Ok((controller, outputs)),
        Err(Memory) => {
            drop(controller);
            Err(Memory)
        }
    }
}

impl Controller {
    /// Does a step, and appends the frames that the controller puts to `outputs`. If memory runs
    /// out, returns `Memory` and changes nothing.
    pub fn run_one(&mut self, step: Step, outputs: &mut Outputs) -> Result<(), Memory>
        ensures ok { OnOk result (Turns (words.step self.old step)
            self.old self.new outputs.old.outs outputs.new.outs) }
        ensures err { UnchangedOnErr result self.old self.new outputs.old.outs outputs.new.outs }
        ensures memory { IfErr result (λ _. MayWantMemory step self.old) }
    {
        self.run_shown(&step, outputs)
    }

    /// Like `run_one`, but borrows the step.
    pub fn run_shown(&mut self, step: &Step, outputs: &mut Outputs) -> Result<(), Memory>
        ensures ok { OnOk result (Turns (words.step self.old step.now)
            self.old self.new outputs.old.outs outputs.new.outs) }
        ensures err { UnchangedOnErr result self.old self.new outputs.old.outs outputs.new.outs }
        ensures memory { IfErr result (λ _. MayWantMemory step.now self.old) }
    {
        match step {
            Step::Take(item) => self.take(item, outputs),
            Step::Tick(ms) => self.tick(*ms, outputs),
        }
    }

    // Does these steps, one after the other, and appends the frames that the controller puts to
    // `outputs`. Returns `Memory` at the first step for which memory runs out.
    fn run_all(&mut self, steps: Vec<Step>, outputs: &mut Outputs) -> Result<(), Memory>
        ensures { OnOk result (Turns (each words.step self.old steps.items)
            self.old self.new outputs.old.outs outputs.new.outs) }
    {
        for step in steps {
            self.run_one(step, outputs)?;
        }
        Ok(())
    }
}
