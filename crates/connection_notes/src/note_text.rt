// SPDX-License-Identifier: MIT OR Apache-2.0
//! The text of a note.
ghost use Rattle.std.specs.Prelude.{◌≡◌, Some, codes};
ghost use Rattle.connection_notes.specs.NoteText.{holding_text, note_text, phase_text, sapi_text};
ghost use Rattle.connection_notes.specs.NoteText.{timer_text, way_text};

use crate::note::{Holding, Note, Timer, Way};
use crate::sight::Phase;
use dtap_codec::Sapi;
use std::fmt;

/// The text of the note, without the connection's number.
impl fmt::Display for Note {
    ghost output = { λ note. Some (note_text note) };

    fn fmt<W: fmt::Write>(&self, f: &mut fmt::Formatter<W>) -> fmt::Result {
        match *self {
            Note::Expired { timer, .. } => write!(f, "{} expired", timer_text(timer)),
            Note::Changed { from, to, .. } => {
                write!(f, "{} to {}", phase_text(from), phase_text(to))
            }
            Note::Hold {
                holding,
                count,
                way,
                sapi,
                ..
            } => write!(
                f,
                "{} {count} {} {}",
                holding_text(holding),
                way_text(way),
                sapi_text(sapi)
            ),
        }
    }
}

fn timer_text(timer: Timer) -> &'static str
    ensures { result.now ≡ timer_text timer }
{
    match timer {
        Timer::T3101 => "T3101",
        Timer::T3103 => "T3103",
        Timer::T3107 => "T3107",
        Timer::Drain => "drain time",
    }
}

/// The name of a phase; `none` if the connection doesn't exist.
fn phase_text(phase: Phase) -> &'static str
    ensures { result.now ≡ phase_text phase }
{
    match phase {
        Phase::Absent => "none",
        Phase::WaitActivation => "WaitActivation",
        Phase::WaitEstablish => "WaitEstablish",
        Phase::WaitConfirm => "WaitConfirm",
        Phase::Active => "Active",
        Phase::Preparing => "Preparing",
        Phase::Changing => "Changing",
        Phase::Draining => "Draining",
        Phase::Closed => "Closed",
    }
}

fn holding_text(holding: Holding) -> &'static str
    ensures { result.now ≡ holding_text holding }
{
    match holding {
        Holding::Held => "held",
        Holding::Relayed => "relayed",
        Holding::Dropped => "dropped",
    }
}

fn way_text(way: Way) -> &'static str
    ensures { result.now ≡ way_text way }
{
    match way {
        Way::Down => "down",
        Way::Up => "up",
    }
}

fn sapi_text(sapi: Sapi) -> &'static str
    ensures { result.now ≡ sapi_text sapi }
{
    match sapi {
        Sapi::Zero => "SAPI 0",
        Sapi::Three => "SAPI 3",
    }
}
