// SPDX-License-Identifier: MIT OR Apache-2.0
use crate::machine::Machine;
use conn_messages::Outputs;
use conn_rules::{Input, State};
use std::marker::Model;
use std::snapshot::Snapshot;

/// A planned step of a connection for an expiry or a broken link. All memory that the step needs is
/// already allocated.
#[derive(Drop)]
pub struct Plan {
    pub(crate) outputs: Outputs,
    pub(crate) last: Option<State>,
    pub(crate) was: Snapshot<Machine>,
    pub(crate) input: Snapshot<Input>,
}

impl Model for Plan {
    ghost use Rattle.std.specs.Prelude.{None};
    ghost use Rattle.conn_rules.specs.Table.{row_of};
    ghost use Rattle.conn_fsm.specs.Doing.{IsPlanned, Plans};
    ghost use Rattle.conn_fsm.specs.PlanState.{PlanState};

    ghost Value = { PlanState };

    ghost view = { λ plan. record {
      outs = plan.outputs.outs;
      last = plan.last;
      was = plan.was.value;
      input = plan.input.value;
    } };

    ghost invariant = { λ plan. IsPlanned plan.input.value
        × Plans plan.outputs.outs plan.last
        (row_of plan.was.value plan.input.value None) plan.was.value };
}

impl Plan {
    ghost use Rattle.std.specs.Prelude.{◌≡◌, ◌↔◌, IsTrue, length};

    /// The number of frames that the step puts.
    pub fn len(&self) -> usize
        ensures { result ≡ length self.now.outs }
    {
        self.outputs.len()
    }

    /// Whether the step puts no frames.
    pub fn is_empty(&self) -> bool
        ensures { IsTrue result ↔ (length self.now.outs ≡ 0) }
    {
        self.outputs.len() == 0
    }
}
