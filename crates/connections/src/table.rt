// SPDX-License-Identifier: MIT OR Apache-2.0
ghost use Rattle.std.specs.Prelude.{◌≡◌, ◌∷◌, [], ◌++◌, IfOk, OnOk, OnErr, None};
ghost use Rattle.std.specs.Prelude.{false, length, map, slice_get};
ghost use Rattle.std.specs.List.{AllByRecursion};
ghost use Rattle.std.specs.Option.{ForSome, option_copied};
ghost use Rattle.conn_fsm.specs.Doing.{WantsForRow};
ghost use Rattle.conn_rules.specs.Validity.{IsCarried};
ghost use Rattle.controller_model.specs.Life.{aged};
ghost use Rattle.connections.specs.Entries.{IsBelow, IsKept, IsOffer, entry_in, is_removed};
ghost use Rattle.connections.specs.Steps.{CommitsFor, IsLeft, IsPlanFor, StepsFor, all_with_report};
ghost use Rattle.connections.specs.Steps.{row_at};

use crate::Entry;
use crate::cells::Cells;
use crate::index::Index;
use crate::slots::{add_at, commit_at, pass_at, settle, step_at};
use conn_fsm::{Channel, Input, Outputs, Plan};
use dtap_codec::Report;
use octets::Memory;
use slab::Slab;
use std::alloc::Global;
use std::marker::Model;

/// Entries in a slab, listed by rising number. The index has the number of each entry with the key
/// of the entry's slot.
#[derive(Drop)]
pub(crate) struct Table {
    slots: Slab<Entry>,
    index: Index,
}

impl Model for Table {
    ghost use Rattle.std.specs.Prelude.{List};
    ghost use Rattle.controller_model.specs.Controller.{Entry as EntryState};
    ghost use Rattle.connections.specs.Index.{listed, IsTable};

    ghost Value = { List EntryState };

    ghost view = { λ t. listed t.slots.slots t.index.entries };

    ghost invariant = { λ t. IsTable t.slots.slots t.index.entries };
}

impl Table {
    pub(crate) fn new(alloc: Global) -> Table
        ensures { result ≡ [] }
    {
        Table {
            slots: Slab::new(alloc),
            index: Index::new(alloc),
        }
    }

    pub(crate) fn push(&mut self, entry: Entry) -> Result<(), Memory>
        requires last { AllByRecursion (IsBelow entry.connection.number) self.old }
        requires stays { is_removed entry.connection.state ≡ false }
        ensures ok { OnOk result (self.new ≡ self.old ++ entry ∷ []) }
        ensures err { OnErr result (self.new ≡ self.old) }
    {
        self.slots.reserve(1)?;
        self.index.reserve()?;
        let number = entry.connection().number();
        let key = self.slots.insert_reserved(entry);
        self.index.push_reserved(number, key);
        Ok(())
    }

    pub(crate) fn len(&self) -> usize
        ensures { result ≡ length self.now }
    {
        self.index.len()
    }

    pub(crate) fn get(&self, number: u32) -> Option<&Entry>
        ensures { option_copied result ≡ entry_in number self.now }
    {
        match self.index.key_of(number) {
            Some(key) => self.slots.get(key),
            None => None,
        }
    }

    pub(crate) fn at(&self, place: usize) -> Option<&Entry>
        ensures { option_copied result ≡ slice_get self.now place }
    {
        match self.index.at(place) {
            Some(key) => self.slots.get(key),
            None => None,
        }
    }

    pub(crate) fn step(
        &mut self,
        number: u32,
        input: Input,
        offer: Option<Channel>,
        cells: &Cells,
        outputs: &mut Outputs,
    ) -> Result<bool, Memory>
        requires carried { IsCarried input }
        requires kept { ForSome (entry_in number self.old) (IsKept cells.now) }
        requires offer { IsOffer cells.now offer }
        ensures done { IfOk result (λ fits. StepsFor cells.now
            (entry_in number self.old) input offer fits
            self.old self.new outputs.old.outs outputs.new.outs) }
        ensures err { OnErr result (IsLeft self.old self.new outputs.old.outs outputs.new.outs) }
        ensures memory { WantsForRow result (row_at input offer (entry_in number self.old)) }
    {
        let Some(key) = self.index.key_of(number) else {
            return Ok(false);
        };
        let fits = step_at(&mut self.slots, key, input, offer, cells, outputs)?;
        settle(&mut self.slots, &mut self.index, number, key);
        Ok(fits)
    }

    pub(crate) fn commit(&mut self, number: u32, plan: Plan, cells: &Cells) -> Outputs
        requires plan { IsPlanFor plan (entry_in number self.old) }
        requires kept { ForSome (entry_in number self.old) (IsKept cells.now) }
        ensures { CommitsFor cells.now (entry_in number self.old) plan.input
            self.old self.new result.outs }
    {
        let Some(key) = self.index.key_of(number) else {
            unreachable!()
        };
        let outputs = commit_at(&mut self.slots, key, plan, cells);
        settle(&mut self.slots, &mut self.index, number, key);
        outputs
    }

    pub(crate) fn age(&mut self, ms: u32)
        ensures { self.new ≡ map (aged ms) self.old }
    {
        for key in 0..self.slots.capacity() {
            pass_at(&mut self.slots, key, ms);
        }
    }

    pub(crate) fn add(&mut self, number: u32, report: &Report, report_number: u8)
        ensures { self.new ≡ all_with_report report_number report.now
            (entry_in number self.old) self.old }
    {
        if let Some(key) = self.index.key_of(number) {
            add_at(&mut self.slots, key, report, report_number);
        }
    }
}
