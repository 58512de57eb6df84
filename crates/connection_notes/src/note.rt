// SPDX-License-Identifier: MIT OR Apache-2.0
ghost use Rattle.std.specs.Prelude.{◌≡◌, ◌∷◌, ◌++◌, [], IfOk, List, OnOk, drop, slice_get};
ghost use Rattle.std.specs.Prelude.{option_map};
ghost use Rattle.connection_notes.specs.declared.sight.Sight.{Sight as SightState};
ghost use Rattle.connection_notes.specs.Notes.{absent, change_of, down_notes, hold_notes, is_way};
ghost use Rattle.connection_notes.specs.Notes.{is_live, is_put, number_of, puts_of};
ghost use Rattle.connection_notes.specs.Notes.{is_unchanged};
ghost use Rattle.connection_notes.specs.Notes.{notes_between, order, phase_notes, same, step_notes};
ghost use Rattle.connection_notes.specs.Notes.{up_notes};

use crate::sight::{Phase, Sight};
use conn_messages::{Out, Outputs, SWITCH_LINK};
use dtap_codec::Sapi;
use octets::Memory;

/// A timer of a connection (TS 44.018 clause 11.1.2, TS 48.008 clause 3.1.5), or `Drain`: the time
/// for which an old channel may still bring messages.
#[derive(Clone, Copy)]
pub enum Timer {
    T3101,
    T3103,
    T3107,
    Drain,
}

/// The direction of held messages.
#[derive(Clone, Copy)]
pub enum Way {
    /// From the switch to the mobile.
    Down,
    /// From the mobile to the switch.
    Up,
}

/// The directions in which a step puts a frame: down to a station, up to the switch.
#[derive(Clone, Copy)]
pub struct Puts {
    pub down: bool,
    pub up: bool,
}

/// What a step did with messages of a hold.
#[derive(Clone, Copy)]
pub enum Holding {
    /// The messages joined the hold.
    Held,
    /// The messages left the hold and were sent.
    Relayed,
    /// The messages left the hold and are lost.
    Dropped,
}

/// What happened to connection `number` at a step: a timer expired, its phase changed, or messages
/// joined or left a hold.
#[derive(Clone, Copy)]
pub enum Note {
    Expired {
        number: u32,
        timer: Timer,
    },
    Changed {
        number: u32,
        from: Phase,
        to: Phase,
    },
    /// `count` messages of one direction and SAPI joined the hold or left it.
    Hold {
        number: u32,
        holding: Holding,
        count: usize,
        way: Way,
        sapi: Sapi,
    },
}

impl Note {
    /// The number of the connection.
    pub fn number(self) -> u32
        ensures { result ≡ number_of self }
    {
        match self {
            Note::Expired { number, .. } => number,
            Note::Changed { number, .. } => number,
            Note::Hold { number, .. } => number,
        }
    }
}

/// The directions of the frames that a step put.
pub fn puts_of(outputs: &Outputs) -> Puts
    ensures { result ≡ puts_of outputs.now.outs }
{
    let outs = outputs.as_slice();
    Puts {
        down: is_put(Way::Down, outs),
        up: is_put(Way::Up, outs),
    }
}

fn is_put(way: Way, outs: &[Out]) -> bool
    ensures { result ≡ is_put way outs.now }
{
    for out in outs {
        if is_way(way, out.to) {
            return true;
        }
    }
    false
}

/// Whether a frame on `link` goes in the direction `way`: up on the switch's link, else down.
fn is_way(way: Way, link: u16) -> bool
    ensures { result ≡ is_way way link }
{
    match way {
        Way::Down => link != SWITCH_LINK,
        Way::Up => link == SWITCH_LINK,
    }
}

/// The index of a phase in the order of a connection's life.
fn order(phase: Phase) -> u8
    ensures { result ≡ order phase }
{
    match phase {
        Phase::Absent => 0,
        Phase::WaitActivation => 1,
        Phase::WaitEstablish => 2,
        Phase::WaitConfirm => 3,
        Phase::Active => 4,
        Phase::Preparing => 5,
        Phase::Changing => 6,
        Phase::Draining => 7,
        Phase::Closed => 8,
    }
}

/// Whether the switch confirmed the connection and neither side has cleared it.
fn is_live(phase: Phase) -> bool
    ensures { result ≡ is_live phase }
{
    matches!(
        phase,
        Phase::Active | Phase::Preparing | Phase::Changing | Phase::Draining
    )
}

/// The view of a connection that doesn't exist: nothing is held.
fn absent(number: u32) -> Sight
    ensures { result ≡ absent number }
{
    Sight {
        number,
        phase: Phase::Absent,
        down_zero: 0,
        down_three: 0,
        up_zero: 0,
        up_three: 0,
    }
}

/// Appends the notes at a step. `before` and `behind` are the views of all connections before and
/// after the step, by rising number. `Err`: allocation failed.
pub fn note_steps(
    puts: Puts,
    before: &[Sight],
    behind: &[Sight],
    notes: &mut Vec<Note>,
) -> Result<(), Memory>
    ensures { OnOk result
        (notes.new.items ≡ notes.old.items ++ notes_between puts before.now behind.now) }
{
    let mut next = 0;
    for sight in before {
        next = note_beside(puts, sight, behind, next, notes)?;
    }
    note_begun(puts, behind, next, notes)
}

/// Appends the notes on the connection that `before` is a view of. If this connection still exists,
/// its view is at index `next` of `behind`. Returns the index of `behind` at which the view of the
/// next connection is looked for.
fn note_beside(
    puts: Puts,
    before: &Sight,
    behind: &[Sight],
    next: usize,
    notes: &mut Vec<Note>,
) -> Result<usize, Memory>
    ensures { IfOk result (λ last. (others : List SightState) →
        notes.new.items ++ notes_between puts others (drop last behind.now)
        ≡ notes.old.items ++ notes_between puts (before.now ∷ others) (drop next behind.now)) }
{
    match same_at(behind, next, before.number) {
        Some(sight) => {
            note_kept(puts, before, sight, notes)?;
            Ok(next + 1)
        }
        None => {
            note_step(puts, before, &absent(before.number), notes)?;
            Ok(next)
        }
    }
}

/// The view at index `place`, if there is one and its number is `number`.
fn same_at(sights: &[Sight], place: usize, number: u32) -> Option<&Sight>
    ensures { option_map (λ s. s.now) result ≡ same number (slice_get sights.now place) }
{
    match sights.get(place) {
        Some(sight) if sight.number == number => Some(sight),
        _ => None,
    }
}

/// Appends the notes on the connections from index `next` of `behind` on, all of which began.
fn note_begun(
    puts: Puts,
    behind: &[Sight],
    next: usize,
    notes: &mut Vec<Note>,
) -> Result<(), Memory>
    ensures { OnOk result
        (notes.new.items ≡ notes.old.items ++ notes_between puts [] (drop next behind.now)) }
{
    for place in next..behind.len() {
        let sight = &behind[place];
        note_step(puts, &absent(sight.number), sight, notes)?;
    }
    Ok(())
}

/// Appends the notes on a connection that still exists. Most connections have no notes at a step,
/// so the two views are first compared in place.
#[tactic(auto, using(crate::proofs::Turning::unchanged_none))]
fn note_kept(
    puts: Puts,
    before: &Sight,
    behind: &Sight,
    notes: &mut Vec<Note>,
) -> Result<(), Memory>
    ensures { OnOk result
        (notes.new.items ≡ notes.old.items ++ step_notes puts before.now behind.now) }
{
    if is_unchanged(before, behind) {
        return Ok(());
    }
    note_step(puts, before, behind, notes)
}

/// Whether the phase and all counts of held messages are the same in both views.
fn is_unchanged(before: &Sight, behind: &Sight) -> bool
    ensures { result ≡ is_unchanged before.now behind.now }
{
    order(before.phase) == order(behind.phase)
        && before.down_zero == behind.down_zero
        && before.down_three == behind.down_three
        && before.up_zero == behind.up_zero
        && before.up_three == behind.up_three
}

/// Appends the notes on one connection, from its views before and after a step.
fn note_step(
    puts: Puts,
    before: &Sight,
    behind: &Sight,
    notes: &mut Vec<Note>,
) -> Result<(), Memory>
    ensures { OnOk result
        (notes.new.items ≡ notes.old.items ++ step_notes puts before.now behind.now) }
{
    note_phase(before.number, before.phase, behind.phase, notes)?;
    note_down(puts, before, behind, notes)?;
    note_up(puts, before, behind, notes)
}

fn note_phase(number: u32, from: Phase, to: Phase, notes: &mut Vec<Note>) -> Result<(), Memory>
    ensures { OnOk result (notes.new.items ≡ notes.old.items ++ phase_notes number from to) }
{
    if order(from) != order(to) {
        notes.push(Note::Changed { number, from, to })?;
    }
    Ok(())
}

/// Appends the notes on messages held for the mobile.
fn note_down(
    puts: Puts,
    before: &Sight,
    behind: &Sight,
    notes: &mut Vec<Note>,
) -> Result<(), Memory>
    ensures { OnOk result
        (notes.new.items ≡ notes.old.items ++ down_notes puts before.now behind.now) }
{
    let number = before.number;
    let are_put = puts.down && is_live(behind.phase);
    let zero = change_of(are_put, before.down_zero, behind.down_zero);
    let three = change_of(are_put, before.down_three, behind.down_three);
    note_hold(number, Way::Down, Sapi::Zero, zero, notes)?;
    note_hold(number, Way::Down, Sapi::Three, three, notes)
}

/// Appends the notes on messages held for the switch.
fn note_up(puts: Puts, before: &Sight, behind: &Sight, notes: &mut Vec<Note>) -> Result<(), Memory>
    ensures { OnOk result
        (notes.new.items ≡ notes.old.items ++ up_notes puts before.now behind.now) }
{
    let number = before.number;
    let are_put = puts.up && is_live(behind.phase);
    let zero = change_of(are_put, before.up_zero, behind.up_zero);
    let three = change_of(are_put, before.up_three, behind.up_three);
    note_hold(number, Way::Up, Sapi::Zero, zero, notes)?;
    note_hold(number, Way::Up, Sapi::Three, three, notes)
}

/// The change of a hold from `before` to `behind` messages, and the number of messages that joined
/// or left it. `None` if there is no change. Messages that left the hold were sent if `are_put`,
/// else dropped.
fn change_of(are_put: bool, before: usize, behind: usize) -> Option<(Holding, usize)>
    ensures { result ≡ change_of are_put before behind }
{
    if before < behind {
        Some((Holding::Held, behind - before))
    } else if before == behind {
        None
    } else if are_put {
        Some((Holding::Relayed, before - behind))
    } else {
        Some((Holding::Dropped, before - behind))
    }
}

fn note_hold(
    number: u32,
    way: Way,
    sapi: Sapi,
    change: Option<(Holding, usize)>,
    notes: &mut Vec<Note>,
) -> Result<(), Memory>
    ensures { OnOk result
        (notes.new.items ≡ notes.old.items ++ hold_notes number way sapi change) }
{
    if let Some((holding, count)) = change {
        notes.push(Note::Hold {
            number,
            holding,
            count,
            way,
            sapi,
        })?;
    }
    Ok(())
}
