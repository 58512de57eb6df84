// SPDX-License-Identifier: MIT OR Apache-2.0
ghost use Rattle.std.specs.Prelude.{◌≡◌, ◌++◌, OnOk, option_to_list, slice_get};
ghost use Rattle.connection_notes.specs.Notes.{change_timer, expired, expired_at, expiry_notes};
ghost use Rattle.connection_notes.specs.Notes.{state_timer, timer_by};

use crate::note::{Note, Timer};
use conn_messages::Change;
use conn_rules::{Input, Stage, State};
use controller::Controller;
use controller_model::Step;
use octets::Memory;

/// Appends a note for each timer that expires at `step`, a step that the controller is about to
/// take. `Err`: allocation failed.
pub fn note_expired(
    controller: &Controller,
    step: &Step,
    notes: &mut Vec<Note>,
) -> Result<(), Memory>
    ensures { OnOk result (notes.new.items
        ≡ notes.old.items ++ expired_at controller.now step.now) }
{
    match step {
        Step::Tick(ms) => note_after(controller, *ms, notes),
        Step::Take(_) => Ok(()),
    }
}

/// Appends a note for each timer that expires within the next `ms` milliseconds.
fn note_after(controller: &Controller, ms: u32, notes: &mut Vec<Note>) -> Result<(), Memory>
    ensures { OnOk result (notes.new.items ≡ notes.old.items
        ++ expiry_notes controller.now.settings.timers ms controller.now.entries) }
{
    for place in 0..controller.connection_count() {
        note_expiry(controller, place, ms, notes)?;
    }
    Ok(())
}

#[tactic(auto, using(crate::proofs::Seeing::expiring))]
fn note_expiry(
    controller: &Controller,
    place: usize,
    ms: u32,
    notes: &mut Vec<Note>,
) -> Result<(), Memory>
    ensures { OnOk result (notes.new.items ≡ notes.old.items
        ++ expiry_notes controller.now.settings.timers ms
        (option_to_list (slice_get controller.now.entries place))) }
{
    let Some(conn) = controller.connection_at(place) else {
        return Ok(());
    };
    let Some(input) = controller.expiry_at(place, ms) else {
        return Ok(());
    };
    note_timer(conn.number(), timer_by(conn.state(), &input), notes)
}

/// Appends a note that `timer` expired for connection `number`, if there is a timer. `Err`:
/// allocation failed.
pub fn note_timer(number: u32, timer: Option<Timer>, notes: &mut Vec<Note>) -> Result<(), Memory>
    ensures { OnOk result (notes.new.items ≡ notes.old.items ++ expired number timer) }
{
    if let Some(timer) = timer {
        notes.push(Note::Expired { number, timer })?;
    }
    Ok(())
}

/// The timer whose expiry `input` is, for a connection in `state`. `None` if `input` isn't an
/// expiry, or if no timer runs in `state`.
pub fn timer_by(state: State, input: &Input) -> Option<Timer>
    ensures { result ≡ timer_by state input.now }
{
    match input {
        Input::Expiry => state_timer(state),
        Input::DrainExpiry => Some(Timer::Drain),
        _ => None,
    }
}

/// The timer that runs in a state, apart from the drain time; `None` if no timer runs.
fn state_timer(state: State) -> Option<Timer>
    ensures { result ≡ state_timer state }
{
    match state {
        State::WaitActivation | State::WaitEstablish => Some(Timer::T3101),
        State::Live(_, Stage::Preparing(target) | Stage::Changing(target)) => {
            Some(change_timer(target.change))
        }
        _ => None,
    }
}

fn change_timer(change: Change) -> Timer
    ensures { result ≡ change_timer change }
{
    match change {
        Change::Assignment => Timer::T3107,
        Change::Handover => Timer::T3103,
    }
}
