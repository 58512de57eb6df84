// SPDX-License-Identifier: MIT OR Apache-2.0
ghost use Rattle.std.specs.Prelude.{◌≡◌, ◌++◌, None, IfOk, OnOk, OnErr};
ghost use Rattle.std.specs.Prelude.{option_map};
ghost use Rattle.std.specs.Option.{ForSome, is_some};
ghost use Rattle.conn_fsm.specs.Doing.{AreSound, WantsForRow, outs_in};
ghost use Rattle.conn_rules.specs.Validity.{IsCarried};
ghost use Rattle.controller_model.specs.Life.{aged, with_report};
ghost use Rattle.connections.specs.Entries.{IsKept, IsOffer};
ghost use Rattle.connections.specs.Index.{Settles, is_gone};
ghost use Rattle.connections.specs.Steps.{IsPlanFor, number_at, row_at, stepped};
ghost use Rattle.slab.specs.Slab.{get, Updates};

use crate::Entry;
use crate::cells::Cells;
use crate::index::Index;
use conn_fsm::{Channel, Input, Outputs, Plan};
use dtap_codec::Report;
use octets::Memory;
use slab::Slab;

/// Applies the row that fits `input` to the entry with this key, and appends the row's frames to
/// `outputs`. `Ok(true)` if a row fits; `Ok(false)` if no row fits or there is no entry, and
/// nothing changes. `Err(Memory)` if a row fits and an allocation fails; nothing changes then.
pub(crate) fn step_at(
    slots: &mut Slab<Entry>,
    key: usize,
    input: Input,
    offer: Option<Channel>,
    cells: &Cells,
    outputs: &mut Outputs,
) -> Result<bool, Memory>
    requires carried { IsCarried input }
    requires kept { ForSome (get slots.old key) (IsKept cells.now) }
    requires offer { IsOffer cells.now offer }
    ensures fits { IfOk result
        (λ fits. fits ≡ is_some (row_at input offer (get slots.old key))) }
    ensures slot { OnOk result (Updates slots.old slots.new key
        (option_map (stepped cells.now input offer) (get slots.old key))) }
    ensures outputs { OnOk result (outputs.new.outs ≡ outputs.old.outs
        ++ outs_in (row_at input offer (get slots.old key)) (number_at (get slots.old key))) }
    ensures sound { OnOk result (AreSound (row_at input offer (get slots.old key))) }
    ensures err { OnErr result (Updates slots.old slots.new key (get slots.old key)) }
    ensures err_outputs { OnErr result (outputs.new.outs ≡ outputs.old.outs) }
    ensures memory { WantsForRow result (row_at input offer (get slots.old key)) }
{
    match slots.get_mut(key) {
        Some(entry) => entry.step(input, offer, cells, outputs),
        None => Ok(false),
    }
}

/// Applies the planned step `plan` to the entry with this key, and returns the frames of the step.
pub(crate) fn commit_at(slots: &mut Slab<Entry>, key: usize, plan: Plan, cells: &Cells) -> Outputs
    requires plan { IsPlanFor plan (get slots.old key) }
    requires kept { ForSome (get slots.old key) (IsKept cells.now) }
    ensures slot { Updates slots.old slots.new key
        (option_map (stepped cells.now plan.input None) (get slots.old key)) }
    ensures outputs { result.outs
        ≡ outs_in (row_at plan.input None (get slots.old key)) (number_at (get slots.old key)) }
    ensures sound { AreSound (row_at plan.input None (get slots.old key)) }
{
    match slots.get_mut(key) {
        Some(entry) => entry.commit(plan, cells),
        None => unreachable!(),
    }
}

/// If the connection of the entry with this key is removed, empties the entry's slot and removes
/// `number` from the index; otherwise a no-op.
pub(crate) fn settle(slots: &mut Slab<Entry>, index: &mut Index, number: u32, key: usize)
    ensures { Settles (is_gone (get slots.old key)) number key
        slots.old.slots slots.new.slots index.old.entries index.new.entries }
{
    let is_removed = match slots.get(key) {
        Some(entry) => entry.is_removed(),
        None => false,
    };
    if is_removed {
        slots.try_remove(key);
        index.remove(number);
    }
}

/// Lets `ms` milliseconds pass for the entry with this key; a no-op if there is no entry.
pub(crate) fn pass_at(slots: &mut Slab<Entry>, key: usize, ms: u32)
    ensures slot { Updates slots.old slots.new key (option_map (aged ms) (get slots.old key)) }
{
    if let Some(entry) = slots.get_mut(key) {
        entry.pass(ms);
    }
}

/// Adds `report`, a report of the serving channel with the number `number`, to the entry with this
/// key; a no-op if there is no entry.
pub(crate) fn add_at(slots: &mut Slab<Entry>, key: usize, report: &Report, number: u8)
    ensures slot { Updates slots.old slots.new key
        (option_map (with_report number report.now) (get slots.old key)) }
{
    if let Some(entry) = slots.get_mut(key) {
        entry.add(report, number);
    }
}
