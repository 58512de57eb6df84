// SPDX-License-Identifier: MIT OR Apache-2.0
//! Steps of the controller, which are shown to the clock.
ghost use Rattle.std.specs.Prelude.{◌≡◌, [], IfErr, OnOk, OnErr};
ghost use Rattle.controller.specs.Doing.{Turns};
ghost use Rattle.controller.specs.Wanting.{MayWantMemory};
ghost use Rattle.controller_model.specs.Life as words;
ghost use Rattle.controller_worker.specs.Seen.{seen};

use crate::clock::Clock;
use crate::worker::CallWorker;
use controller_model::Step;
use octets::Memory;

impl<K: Clock> CallWorker<K> {
    /// Does a step of the controller, replaces the content of `outputs` by the outputs of the step,
    /// and shows the step and its outputs to the clock. If memory runs out, returns `Memory` and
    /// changes nothing but `outputs`, which contains no output of the step.
    pub(crate) fn step_shown(&mut self, step: Step) -> Result<(), Memory>
        ensures ok { OnOk result (Turns (words.step self.old.controller step)
            self.old.controller self.new.controller [] self.new.outputs.outs) }
        ensures kept { OnOk result (seen K.told self.new
            ≡ record (seen K.told self.old) { controller = self.new.controller }) }
        ensures err { OnErr result (seen K.told self.new ≡ seen K.told self.old) }
        ensures memory { IfErr result (λ _. MayWantMemory step self.old.controller) }
    {
        self.outputs.clear();
        self.controller.run_shown(&step, &mut self.outputs)?;
        self.clock.see_step(&step, &self.controller, &self.outputs);
        Ok(())
    }
}
