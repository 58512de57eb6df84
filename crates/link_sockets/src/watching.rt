// SPDX-License-Identifier: MIT OR Apache-2.0
use crate::stopwatch::Stopwatch;
use crate::watch::Watch;
use conn_messages::Outputs;
use controller::Controller;
use controller_model::Step;
use log::Log;
use std::time::Clock;
use step_recorder::Recorder;

/// A stopwatch that also watches the controller's steps, and records them if a record is asked for.
#[derive(Drop)]
pub(crate) struct WatchingClock<R> {
    pub(crate) stopwatch: Stopwatch<R>,
    pub(crate) watch: Watch<R>,
    pub(crate) recorder: Option<Recorder<R>>,
}

impl<R: Clock + Log + Drop> controller_worker::Clock for WatchingClock<R> {
    ghost told = { λ c. c.stopwatch.told };

    fn elapsed(&mut self) -> u32 {
        let passed = controller_worker::Clock::elapsed(&mut self.stopwatch);
        self.watch.pass(passed);
        passed
    }

    fn see_step(&mut self, step: &Step, controller: &Controller, outputs: &Outputs) {
        if let Some(recorder) = &mut self.recorder {
            recorder.see_step(step, outputs);
        }
        self.watch.see_step(step, controller, outputs);
    }
}
