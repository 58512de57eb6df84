// SPDX-License-Identifier: MIT OR Apache-2.0
use conn_messages::Outputs;
use controller::Controller;
use controller_model::Step;

/// Tells how much time passes. A clock may also observe the controller's steps.
pub trait Clock {
    ghost use Rattle.std.specs.Prelude.{◌≡◌, ℕ, ◌+◌};

    /// The sum of all results of `elapsed` so far, in milliseconds.
    ghost told: { Self → ℕ };

    /// The milliseconds since the last call of `elapsed`.
    fn elapsed(&mut self) -> u32
        ensures { told self.new ≡ told self.old + result };

    /// Observes a step. The worker calls it after each step, with the step, the controller after
    /// the step, and the outputs of the step.
    fn see_step(&mut self, _step: &Step, _controller: &Controller, _outputs: &Outputs)
        ensures { told self.new ≡ told self.old }
    {}
}
