// SPDX-License-Identifier: MIT OR Apache-2.0
ghost use Rattle.std.specs.Prelude.{◌≡◌, IfOk, OnOk};
ghost use Rattle.connection_notes.specs.Notes.{notes_at};
ghost use Rattle.controller_model.specs.Controller.{new_controller};
ghost use Rattle.controller_model.specs.Life as words;
ghost use Rattle.rerun.specs.Concerning.{concerns};

use crate::concerning::concerns;
use connection_notes::{Note, note_expired, note_steps, puts_of, sights};
use controller::{Controller, Outputs, Settings, Step};
use octets::Memory;
use std::alloc::Global;
use std::marker::Model;

/// The results of a repeated step.
#[derive(Drop)]
pub struct Again {
    /// The frames that the step put.
    pub outputs: Outputs,
    /// The changes of the controller's connections; expired timers come first.
    pub notes: Vec<Note>,
}

/// A controller that repeats the steps of a record, one by one.
#[derive(Drop)]
pub struct Rerun {
    alloc: Global,
    controller: Controller,
}

impl Model for Rerun {
    ghost use Rattle.controller_model.specs.Controller.{Controller as ControllerValue};

    ghost Value = { ControllerValue };

    ghost view = { λ r. r.controller };
}

impl Rerun {
    /// A new controller with these settings. Fails only if an allocation fails.
    pub fn new(alloc: Global, settings: Settings) -> Result<Rerun, Memory>
        ensures { IfOk result (λ r. r ≡ new_controller settings) }
    {
        let controller = Controller::new(alloc, settings)?;
        Ok(Rerun { alloc, controller })
    }

    /// Repeats a step, and returns its results. Fails only if an allocation fails; the state of the
    /// controller is unspecified then.
    pub fn give(&mut self, step: &Step) -> Result<Again, Memory>
        ensures next { OnOk result (self.new ≡ (words.step self.old step.now).next) }
        ensures outs { IfOk result (λ again.
            again.outputs.outs ≡ (words.step self.old step.now).outs) }
        ensures notes { IfOk result (λ again.
            again.notes.items ≡ notes_at self.old step.now) }
    {
        let mut notes = Vec::new(self.alloc);
        note_expired(&self.controller, step, &mut notes)?;
        let before = sights(self.alloc, &self.controller)?;
        let mut outputs = Outputs::new(self.alloc);
        self.controller.run_shown(step, &mut outputs)?;
        let behind = sights(self.alloc, &self.controller)?;
        let puts = puts_of(&outputs);
        note_steps(puts, before.as_slice(), behind.as_slice(), &mut notes)?;
        Ok(Again { outputs, notes })
    }

    /// Whether a step takes a frame for the connection with the number `number`: the frame has the
    /// connection's reference, or came on the connection's serving channel or target channel. Fails
    /// only if an allocation fails.
    pub fn concerns(&self, step: &Step, number: u32) -> Result<bool, Memory>
        ensures { IfOk result (λ is. is ≡ concerns self.now step.now number) }
    {
        concerns(self.alloc, &self.controller, step, number)
    }
}
