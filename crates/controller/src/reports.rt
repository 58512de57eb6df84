// SPDX-License-Identifier: MIT OR Apache-2.0
ghost use Rattle.std.specs.Prelude.{◌≡◌, ◌≤◌, ◌&&◌, IfErr, IsSome, OnOk, option_map, true};
ghost use Rattle.conn_rules.specs.declared.input.Input.TheVariants as inputs;
ghost use Rattle.conn_rules.specs.Connection.{is_at as at_channel};
ghost use Rattle.controller_model.specs.Controller.{channel_state, entry_of};
ghost use Rattle.controller_model.specs.Life as words;
ghost use Rattle.controller.specs.Doing.{Turns, UnchangedOnErr};
ghost use Rattle.controller.specs.Offers.{HasCell};
ghost use Rattle.controller.specs.Reporting.{decided_in, measured_in, measures_in, moved_in};
ghost use Rattle.controller.specs.Wanting.{MayWantReport, MayWantReportAt, MovesBy};
ghost use Rattle.controller.specs.Wanting.{WantsForRowOf};

use crate::channels::holder;
use crate::controller::Controller;
use conn_fsm::{Conn, Outputs, is_at};
use conn_messages::{Channel, Place};
use conn_rules::{Input, State};
use dtap_codec::Report;
use ho_decision::Decision;
use octets::Memory;

impl Controller {
    /// Takes a valid measurement report on the channel at `at`. If the channel serves a connection
    /// for which the switch was asked and which isn't closed, the report is added to the
    /// connection's averages and may begin a handover. Otherwise the report is ignored. If memory
    /// runs out, returns `Memory` and changes nothing.
    pub(crate) fn on_report(
        &mut self,
        at: &Place,
        number: u8,
        report: &Report,
        outputs: &mut Outputs,
    ) -> Result<(), Memory>
        requires { report.now.valid ≡ true }
        ensures ok { OnOk result (Turns (words.on_report at.now number report.now
            self.old (words.entry_at self.old (channel_state self.old at.now)))
            self.old self.new outputs.old.outs outputs.new.outs) }
        ensures err { UnchangedOnErr result self.old self.new outputs.old.outs outputs.new.outs }
        ensures memory { IfErr result (λ _. MayWantReportAt at.now number report.now
            (words.entry_at self.old (channel_state self.old at.now))) }
    {
        let state = self.channels.state(*at);
        let Some(connection) = holder(&state) else {
            self.ignore();
            return Ok(());
        };
        self.on_report_of(connection, at, number, report, outputs)
    }

    // Like `on_report`, where `connection` is the number of the connection that has the channel, or
    // had it.
    #[tactic(auto, using(crate::proofs::Wanting::measured_wants))]
    fn on_report_of(
        &mut self,
        connection: u32,
        at: &Place,
        number: u8,
        report: &Report,
        outputs: &mut Outputs,
    ) -> Result<(), Memory>
        requires { report.now.valid ≡ true }
        ensures ok { OnOk result (Turns (words.on_report at.now number report.now
            self.old (entry_of self.old connection))
            self.old self.new outputs.old.outs outputs.new.outs) }
        ensures err { UnchangedOnErr result self.old self.new outputs.old.outs outputs.new.outs }
        ensures memory { IfErr result (λ _. MayWantReportAt at.now number report.now
            (entry_of self.old connection)) }
    {
        if self.measures(connection, at) {
            self.measure(connection, number, report, outputs)
        } else {
            self.ignore();
            Ok(())
        }
    }

    // Whether the connection exists, the channel at `at` serves it, and its state lets reports
    // count.
    fn measures(&self, connection: u32, at: &Place) -> bool
        ensures { result ≡ measures_in at.now (entry_of self.now connection) }
    {
        match self.connections.get(connection) {
            Some(entry) => measures_at(entry.connection(), at),
            None => false,
        }
    }

    // Decides on a handover by the report, begins the handover, then adds the report to the
    // averages. The report is added last because the decision and the handover can run out of
    // memory, while adding can't.
    #[tactic(auto, using(crate::proofs::Wanting::reports))]
    fn measure(
        &mut self,
        connection: u32,
        number: u8,
        report: &Report,
        outputs: &mut Outputs,
    ) -> Result<(), Memory>
        requires valid { report.now.valid ≡ true }
        requires there { IsSome (entry_of self.old connection) }
        ensures ok { OnOk result (Turns (measured_in number report.now
            self.old (entry_of self.old connection))
            self.old self.new outputs.old.outs outputs.new.outs) }
        ensures err { UnchangedOnErr result self.old self.new outputs.old.outs outputs.new.outs }
        ensures memory { IfErr result
            (λ _. MayWantReport number report.now (entry_of self.old connection)) }
    {
        let decision = self.connections.decide_with(connection, report, number)?;
        self.follow_decision(connection, decision, outputs)?;
        self.connections.add(connection, report, number);
        Ok(())
    }

    fn follow_decision(
        &mut self,
        connection: u32,
        decision: Decision,
        outputs: &mut Outputs,
    ) -> Result<(), Memory>
        requires { HasCell decision }
        ensures ok { OnOk result (Turns (decided_in decision
            self.old (entry_of self.old connection))
            self.old self.new outputs.old.outs outputs.new.outs) }
        ensures err { UnchangedOnErr result self.old self.new outputs.old.outs outputs.new.outs }
        ensures memory { IfErr result
            (λ _. MovesBy decision (entry_of self.old connection)) }
    {
        match decision {
            Decision::Stay => Ok(()),
            Decision::Move(cell) => self.hand_over(connection, u16::from(cell), outputs),
        }
    }

    // Begins a handover of the connection to `cell` if a row fits.
    fn hand_over(&mut self, connection: u32, cell: u16, outputs: &mut Outputs) -> Result<(), Memory>
        requires { 1 ≤ cell }
        ensures ok { OnOk result (Turns (moved_in cell self.old (entry_of self.old connection))
            self.old self.new outputs.old.outs outputs.new.outs) }
        ensures err { UnchangedOnErr result self.old self.new outputs.old.outs outputs.new.outs }
        ensures memory { WantsForRowOf result (entry_of self.old connection) inputs.Move }
    {
        let Some(serving) = self.serving_of(connection) else {
            return Ok(());
        };
        let offer = self.handover_offer(&serving, cell);
        self.do_row_with(connection, Input::Move, offer, outputs)?;
        Ok(())
    }

    // The serving channel of a connection; `None` if there is no such connection.
    fn serving_of(&self, connection: u32) -> Option<Channel>
        ensures { result
            ≡ option_map (λ e. e.connection.serving) (entry_of self.now connection) }
    {
        match self.connections.get(connection) {
            Some(entry) => Some(entry.connection().serving()),
            None => None,
        }
    }
}

fn measures_at(conn: &Conn, at: &Place) -> bool
    ensures { result ≡ (at_channel at.now conn.now.serving && words.is_measured conn.now.state) }
{
    is_at(at, &conn.serving()) && is_measured(conn.state())
}

// Whether reports count in this state: from the connection request to the switch until the
// connection is closed.
fn is_measured(state: State) -> bool
    ensures { result ≡ words.is_measured state }
{
    matches!(state, State::WaitConfirm | State::Live(_, _))
}
