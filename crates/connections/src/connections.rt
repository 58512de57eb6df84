// SPDX-License-Identifier: MIT OR Apache-2.0
ghost use Rattle.std.specs.Prelude.{◌≡◌, ◌<◌, ◌^◌, ◌↔◌, [], ◌∷◌};
ghost use Rattle.std.specs.Prelude.{◌++◌, IsTrue, IfErr, IfOk, OnOk, OnErr, length, map, slice_get};
ghost use Rattle.std.specs.List.{AllByRecursion};
ghost use Rattle.std.specs.Option.{ForSome, option_copied};
ghost use Rattle.conn_fsm.specs.Doing.{WantsForRow};
ghost use Rattle.conn_rules.specs.Validity.{IsCarried};
ghost use Rattle.controller_model.specs.Life.{aged, new_entry};
ghost use Rattle.connections.specs.Entries.{AreKept, IsBelow, IsKept, IsOfCell, IsOffer};
ghost use Rattle.connections.specs.Entries.{ComparesWith, decision_with, entry_in};
ghost use Rattle.connections.specs.Steps.{CommitsFor, IsLeft, IsPlanFor, StepsFor, all_with_report};
ghost use Rattle.connections.specs.Steps.{row_at};

use crate::Entry;
use crate::cells::Cells;
use crate::table::Table;
use conn_fsm::{Channel, Input, Outputs, Plan};
use dtap_codec::Report;
use ho_decision::Decision;
use octets::Memory;
use rsl_codec::RequestReference;
use settings::Settings;
use std::alloc::Global;
use std::marker::Model;

/// The connections of a controller, by rising number, and the controller's settings. A removed
/// connection isn't kept.
#[derive(Drop)]
pub struct Connections {
    alloc: Global,
    cells: Cells,
    table: Table,
}

impl Model for Connections {
    ghost use Rattle.connections.specs.Entries.{AreKept, ConnectionsState};

    ghost Value = { ConnectionsState };

    ghost view = { λ c. record { settings = c.cells; entries = c.table } };

    ghost invariant = { λ c. AreKept c.cells c.table };
}

impl Connections {
    /// No connections, for a controller with `settings`. Prepares the settings of the handover
    /// decision for each cell; `alloc` is kept for later calls. Fails only if memory runs out.
    pub fn new(alloc: Global, settings: &Settings) -> Result<Connections, Memory>
        ensures { IfOk result (λ c. c ≡ record { settings = settings.now; entries = [] }) }
    {
        Ok(Connections {
            alloc,
            cells: Cells::new(alloc, settings)?,
            table: Table::new(alloc),
        })
    }

    /// Adds a connection with the number `number`. The connection waits for the activation of its
    /// access channel, `channel`; the caller puts the CHANNEL ACTIVATION. `request` and `delay` are
    /// those of the CHANNEL REQUIRED. `Err(Memory)` if an allocation fails; nothing changes then.
    /// Assumes: `number` is below 2^24 and above the numbers of all connections, and `channel` is a
    /// channel of a cell.
    pub fn open(
        &mut self,
        number: u32,
        channel: Channel,
        request: RequestReference,
        delay: u8,
    ) -> Result<(), Memory>
        requires number { number < 2 ^ 24 }
        requires last { AllByRecursion (IsBelow number) self.old.entries }
        requires channel { IsOfCell self.old.settings channel }
        ensures ok { OnOk result (self.new ≡ record self.old {
          entries = self.old.entries
              ++ new_entry self.old.settings number channel request delay ∷ [];
        }) }
        ensures err { OnErr result (self.new ≡ self.old) }
    {
        let entry = Entry::new(self.alloc, number, channel, request, delay, &self.cells)?;
        self.table.push(entry)
    }

    /// The number of connections.
    pub fn len(&self) -> usize
        ensures len { result ≡ length self.now.entries }
        ensures kept { AreKept self.now.settings self.now.entries }
    {
        self.table.len()
    }

    /// Whether there are no connections.
    pub fn is_empty(&self) -> bool
        ensures { IsTrue result ↔ (self.now.entries ≡ []) }
    {
        self.table.len() == 0
    }

    /// The connection with this number; `None` if there is no such connection.
    pub fn get(&self, number: u32) -> Option<&Entry>
        ensures entry { option_copied result ≡ entry_in number self.now.entries }
        ensures kept { ForSome (option_copied result) (IsKept self.now.settings) }
    {
        self.table.get(number)
    }

    /// The connection at `place`, from 0, by rising number; `None` past the last connection.
    pub fn at(&self, place: usize) -> Option<&Entry>
        ensures { option_copied result ≡ slice_get self.now.entries place }
    {
        self.table.at(place)
    }

    /// Gives `input` to the connection with the number `number`. If a row of the table fits, the
    /// row is applied to the connection, the row's frames are appended to `outputs`, and the result
    /// is `Ok(true)`. `offer` is the channel for a change that begins in this row. The averages
    /// restart if another channel serves after the row. A connection that the row removes isn't
    /// kept.
    ///
    /// If no row fits or there is no such connection, the result is `Ok(false)` and nothing
    /// changes. `Err(Memory)` if a row fits and an allocation fails; nothing changes then. Assumes:
    /// layer 3 messages of `input` have 1 to 251 octets, and `offer` is a channel of a cell.
    pub fn step(
        &mut self,
        number: u32,
        input: Input,
        offer: Option<Channel>,
        outputs: &mut Outputs,
    ) -> Result<bool, Memory>
        requires carried { IsCarried input }
        requires offer { IsOffer self.old.settings offer }
        ensures done { IfOk result (λ fits. StepsFor self.old.settings
            (entry_in number self.old.entries) input offer fits
            self.old.entries self.new.entries outputs.old.outs outputs.new.outs) }
        ensures err { OnErr result (IsLeft
            self.old.entries self.new.entries outputs.old.outs outputs.new.outs) }
        ensures memory { WantsForRow result
            (row_at input offer (entry_in number self.old.entries)) }
        ensures settings { self.new.settings ≡ self.old.settings }
    {
        self.table.step(number, input, offer, &self.cells, outputs)
    }

    /// Applies the planned step `plan` to the connection with the number `number`, and returns the
    /// frames of the step. Allocates nothing. Assumes: the connection is as it was when the step
    /// was planned, except that time may have passed for the connection.
    pub fn commit(&mut self, number: u32, plan: Plan) -> Outputs
        requires { IsPlanFor plan (entry_in number self.old.entries) }
        ensures done { CommitsFor self.old.settings (entry_in number self.old.entries) plan.input
            self.old.entries self.new.entries result.outs }
        ensures settings { self.new.settings ≡ self.old.settings }
    {
        self.table.commit(number, plan, &self.cells)
    }

    /// Lets `ms` milliseconds pass for all connections.
    pub fn age(&mut self, ms: u32)
        ensures { self.new ≡ record self.old { entries = map (aged ms) self.old.entries } }
    {
        self.table.age(ms);
    }

    /// Adds `report`, a report of the serving channel with the number `report_number`, to the
    /// averages of the connection with the number `number`. A no-op if there is no such connection.
    pub fn add(&mut self, number: u32, report: &Report, report_number: u8)
        ensures { self.new ≡ record self.old {
          entries = all_with_report report_number report.now
              (entry_in number self.old.entries) self.old.entries;
        } }
    {
        self.table.add(number, report, report_number);
    }

    /// The handover decision for the connection with the number `number` after `add` of `report`
    /// with `report_number`; `Stay` if there is no such connection. Changes nothing. `Err(Memory)`
    /// if levels are compared and an allocation fails.
    pub fn decide_with(
        &self,
        number: u32,
        report: &Report,
        report_number: u8,
    ) -> Result<Decision, Memory>
        ensures decision { IfOk result (λ d. d ≡ decision_with
            report_number report.now (entry_in number self.now.entries)) }
        ensures memory { IfErr result (λ _. ComparesWith
            report_number report.now (entry_in number self.now.entries)) }
    {
        match self.table.get(number) {
            Some(entry) => entry.decide_with(self.alloc, &self.cells, report, report_number),
            None => Ok(Decision::Stay),
        }
    }
}
