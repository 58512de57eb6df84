// SPDX-License-Identifier: MIT OR Apache-2.0
ghost use Rattle.std.specs.Prelude.{◌≡◌, ◌<◌, ◌^◌, ◌++◌, None, IfErr, IfOk, OnOk, OnErr};
ghost use Rattle.std.specs.Prelude.{length};
ghost use Rattle.std.specs.Option.{is_some};
ghost use Rattle.conn_fsm.specs.Doing.{AreSound, IsAsPlanned, WantsForRow, outs_in};
ghost use Rattle.conn_rules.specs.Validity.{IsCarried};
ghost use Rattle.conn_rules.specs.Table.{row_of};
ghost use Rattle.controller_model.specs.Life.{aged, averages_after, new_entry, with_report};
ghost use Rattle.ho_decision.specs.State.{IsCompared};
ghost use Rattle.connections.specs.Entries.{IsKept, IsOfCell, IsOffer, decision_over_all};
ghost use Rattle.connections.specs.Entries.{is_removed};
ghost use Rattle.connections.specs.Steps.{after_row};

use crate::cells::Cells;
use conn_fsm::{Channel, Conn, Input, Outputs, Plan};
use conn_rules::State;
use dtap_codec::Report;
use ho_decision::{Averages, Decision};
use octets::Memory;
use rsl_codec::{AccessDelay, RequestReference};
use std::alloc::Global;
use std::marker::Model;

/// A connection, and the averages of its serving channel.
#[derive(Drop)]
pub struct Entry {
    conn: Conn,
    averages: Averages,
}

impl Model for Entry {
    ghost use Rattle.controller_model.specs.Controller.{Entry as EntryState};

    ghost Value = { EntryState };

    ghost view = { λ e. record { connection = e.conn; averages = e.averages } };
}

impl Entry {
    pub(crate) fn new(
        alloc: Global,
        number: u32,
        channel: Channel,
        request: RequestReference,
        delay: u8,
        cells: &Cells,
    ) -> Result<Entry, Memory>
        requires number { number < 2 ^ 24 }
        requires channel { IsOfCell cells.now channel }
        ensures { IfOk result (λ e. e ≡ new_entry cells.now number channel request delay) }
    {
        let averages = Averages::new(alloc, cells.handover(channel.station))?;
        let conn = Conn::new(alloc, number, channel, request, AccessDelay(delay))?;
        Ok(Entry { conn, averages })
    }

    pub fn connection(&self) -> &Conn
        ensures { result.now ≡ self.now.connection }
    {
        &self.conn
    }

    /// The averages of the serving channel.
    pub fn averages(&self) -> &Averages
        ensures { result.now ≡ self.now.averages }
    {
        &self.averages
    }

    pub(crate) fn is_removed(&self) -> bool
        ensures { result ≡ is_removed self.now.connection.state }
    {
        matches!(self.conn.state(), State::Removed)
    }

    /// Applies the row that fits `input`, and appends the row's frames to `outputs`. `Ok(true)` if
    /// a row fits; `Ok(false)` if no row fits, and nothing changes. `Err(Memory)` if a row fits and
    /// an allocation fails; nothing changes then.
    #[tactic(auto, using(crate::proofs::Kept::stepping))]
    pub(crate) fn step(
        &mut self,
        input: Input,
        offer: Option<Channel>,
        cells: &Cells,
        outputs: &mut Outputs,
    ) -> Result<bool, Memory>
        requires carried { IsCarried input }
        requires kept { IsKept cells.now self.old }
        requires offer { IsOffer cells.now offer }
        ensures fits { IfOk result
            (λ fits. fits ≡ is_some (row_of self.old.connection input offer)) }
        ensures entry { OnOk result (self.new
            ≡ after_row cells.now self.old (row_of self.old.connection input offer)) }
        ensures outputs { OnOk result (outputs.new.outs ≡ outputs.old.outs
            ++ outs_in (row_of self.old.connection input offer) self.old.connection.number) }
        ensures sound { OnOk result (AreSound (row_of self.old.connection input offer)) }
        ensures err { OnErr result (self.new ≡ self.old) }
        ensures err_outputs { OnErr result (outputs.new.outs ≡ outputs.old.outs) }
        ensures memory { WantsForRow result (row_of self.old.connection input offer) }
    {
        let before = self.conn.serving();
        let fits = self.conn.step(input, offer, outputs)?;
        if fits {
            self.follow(&before, cells);
        }
        Ok(fits)
    }

    /// Applies the planned step `plan`, and returns the frames of the step.
    #[tactic(auto, using(crate::proofs::Kept::committing))]
    pub(crate) fn commit(&mut self, plan: Plan, cells: &Cells) -> Outputs
        requires plan { IsAsPlanned plan.was self.old.connection }
        requires kept { IsKept cells.now self.old }
        ensures entry { self.new
            ≡ after_row cells.now self.old (row_of self.old.connection plan.input None) }
        ensures outputs { result.outs
            ≡ outs_in (row_of self.old.connection plan.input None) self.old.connection.number }
        ensures sound { AreSound (row_of self.old.connection plan.input None) }
    {
        let before = self.conn.serving();
        let outputs = self.conn.commit(plan);
        self.follow(&before, cells);
        outputs
    }

    // Restarts the averages if another channel than `before` serves.
    fn follow(&mut self, before: &Channel, cells: &Cells)
        requires channel { IsOfCell cells.now self.old.connection.serving }
        requires cells { length cells.now.cells ≡ length self.old.averages.settings.cells }
        ensures { self.new ≡ record self.old {
          averages = averages_after cells.now before.now
              self.old.connection.serving self.old.averages;
        } }
    {
        let serving = self.conn.serving();
        if before.station != serving.station || before.number != serving.number {
            self.averages.restart(cells.handover(serving.station));
        }
    }

    /// Lets `ms` milliseconds pass.
    pub(crate) fn pass(&mut self, ms: u32)
        ensures { self.new ≡ aged ms self.old }
    {
        self.conn.pass(ms);
    }

    /// Adds `report`, a report of the serving channel with the number `number`.
    pub(crate) fn add(&mut self, report: &Report, number: u8)
        ensures { self.new ≡ with_report number report.now self.old }
    {
        self.averages.add(report, number);
    }

    /// The handover decision after `add` of `report` with `number`. Changes nothing. `Err(Memory)`
    /// if levels are compared and an allocation fails.
    #[tactic(auto, using(controller_model::proofs::Decides::decision_is))]
    pub(crate) fn decide_with(
        &self,
        alloc: Global,
        cells: &Cells,
        report: &Report,
        number: u8,
    ) -> Result<Decision, Memory>
        requires { IsKept cells.now self.now }
        ensures decision { IfOk result
            (λ d. d ≡ decision_over_all (with_report number report.now self.now)) }
        ensures memory { IfErr result (λ _. IsCompared self.now.averages report.now number) }
    {
        let settings = cells.handover(self.conn.serving().station);
        self.averages.decide_with(alloc, settings, report, number)
    }
}
