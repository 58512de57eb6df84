// SPDX-License-Identifier: MIT OR Apache-2.0
use controller_model::Step;
use ipa_framing::Frame;
use run_record::Stamp;
use std::marker::Model;

/// A frame that a step put.
#[derive(Drop)]
pub struct PutFrame {
    /// The link on which the frame was put: 0 for the link of the switch, i for the link of the
    /// station of cell i.
    pub link: u8,
    pub frame: Frame,
}

/// A step of the controller, as recorded.
#[derive(Drop)]
pub struct RecordedStep {
    /// The time at which the step was written to the record.
    pub stamp: Stamp,
    pub step: Step,
    /// The frames that the step put, in order.
    pub puts: Vec<PutFrame>,
}

impl Model for RecordedStep {
    ghost use Rattle.record_steps.specs.Steps.{StepDone};

    ghost Value = { StepDone };

    ghost view = { λ s. record { stamp = s.stamp; step = s.step; puts = s.puts.items } };
}
