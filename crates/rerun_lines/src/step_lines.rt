// SPDX-License-Identifier: MIT OR Apache-2.0
ghost use Rattle.std.specs.Prelude.{◌≡◌, ◌++◌, IfErr, OnOk};
ghost use Rattle.std.specs.List.{flat_map};
ghost use Rattle.dtap_codec.specs.Number.{count_of};
ghost use Rattle.program_io.specs.Status.{status_of};
ghost use Rattle.rerun_lines.specs.StepText.{note_shown, out_shown, step_text, taken_shown};
ghost use Rattle.rerun_lines.specs.StepText.{what_line};

use crate::choice::Choice;
use crate::ends::Way;
use crate::frame_line::{put_break_line, put_frame_line};
use crate::mark::Mark;
use crate::note_line::put_note_line;
use conn_messages::Out;
use connection_notes::Note;
use controller_model::{Item, Step};
use dtap_codec::Modulus;
use program_io::Failure;
use ruled_relay::What;
use std::alloc::Global;

/// How the lines of a run are shown, and which.
#[derive(Clone, Copy)]
pub struct View {
    /// How many numbers messages of the flow have.
    pub modulus: Modulus,
    pub choice: Choice,
}

/// Appends the lines of a step that are shown: what it took, the frames that it put, and what became
/// of connections. `concerns` says whether it takes a frame for the connection that is wanted.
pub fn put_step(
    alloc: Global,
    view: &View,
    mark: Mark,
    concerns: bool,
    step: &Step,
    outs: &[Out],
    notes: &[Note],
    text: &mut Vec<u8>,
) -> Result<(), Failure>
    ensures text { OnOk result (text.new.items ≡ text.old.items
        ++ step_text (count_of view.now.modulus) view.now.choice mark concerns step.now outs.now
        notes.now) }
    ensures err { IfErr result (λ failure. status_of failure ≡ 3) }
{
    if !view.choice.shows_time(mark.stamp) {
        return Ok(());
    }
    put_taken(alloc, view, mark, concerns, step, text)?;
    put_outs(alloc, view, mark, outs, text)?;
    let touched = view.choice.touches(step, outs);
    put_notes(view.choice, mark, touched, notes, text)
}

/// Appends the line of what a step took.
fn put_taken(
    alloc: Global,
    view: &View,
    mark: Mark,
    concerns: bool,
    step: &Step,
    text: &mut Vec<u8>,
) -> Result<(), Failure>
    ensures text { OnOk result (text.new.items ≡ text.old.items
        ++ taken_shown (count_of view.now.modulus) view.now.choice mark concerns step.now) }
    ensures err { IfErr result (λ failure. status_of failure ≡ 3) }
{
    match step {
        Step::Take(item) if view.choice.shows_taken(concerns, item.source) => {
            put_item(alloc, view.modulus, mark, item, text)
        }
        _ => Ok(()),
    }
}

/// Appends the line of what a link gave.
fn put_item(
    alloc: Global,
    modulus: Modulus,
    mark: Mark,
    item: &Item,
    text: &mut Vec<u8>,
) -> Result<(), Failure>
    ensures text { OnOk result (text.new.items ≡ text.old.items
        ++ what_line (count_of modulus) mark item.now.source item.now.what) }
    ensures err { IfErr result (λ failure. status_of failure ≡ 3) }
{
    match &item.what {
        What::Frame(frame) => {
            put_frame_line(alloc, modulus, mark, Way::Taken, item.source, frame, text)
        }
        What::Down => {
            put_break_line(mark, item.source, text)?;
            Ok(())
        }
    }
}

/// Appends the lines of the frames that a step put.
fn put_outs(
    alloc: Global,
    view: &View,
    mark: Mark,
    outs: &[Out],
    text: &mut Vec<u8>,
) -> Result<(), Failure>
    ensures text { OnOk result (text.new.items ≡ text.old.items
        ++ flat_map (out_shown (count_of view.now.modulus) view.now.choice mark) outs.now) }
    ensures err { IfErr result (λ failure. status_of failure ≡ 3) }
{
    for out in outs {
        put_out(alloc, view, mark, out, text)?;
    }
    Ok(())
}

/// Appends the line of a frame that was put, where it is shown.
fn put_out(
    alloc: Global,
    view: &View,
    mark: Mark,
    out: &Out,
    text: &mut Vec<u8>,
) -> Result<(), Failure>
    ensures text { OnOk result (text.new.items ≡ text.old.items
        ++ out_shown (count_of view.now.modulus) view.now.choice mark out.now) }
    ensures err { IfErr result (λ failure. status_of failure ≡ 3) }
{
    if !view.choice.shows_out(out) {
        return Ok(());
    }
    put_frame_line(
        alloc,
        view.modulus,
        mark,
        Way::Put,
        out.to,
        &out.frame,
        text,
    )
}

/// Appends the lines of what became of connections.
fn put_notes(
    choice: Choice,
    mark: Mark,
    touched: bool,
    notes: &[Note],
    text: &mut Vec<u8>,
) -> Result<(), Failure>
    ensures text { OnOk result (text.new.items ≡ text.old.items
        ++ flat_map (note_shown choice mark touched) notes.now) }
    ensures err { IfErr result (λ failure. status_of failure ≡ 3) }
{
    for note in notes {
        put_one_note(choice, mark, touched, *note, text)?;
    }
    Ok(())
}

/// Appends the line of what became of a connection, where it is shown.
fn put_one_note(
    choice: Choice,
    mark: Mark,
    touched: bool,
    note: Note,
    text: &mut Vec<u8>,
) -> Result<(), Failure>
    ensures text { OnOk result
        (text.new.items ≡ text.old.items ++ note_shown choice mark touched note) }
    ensures err { IfErr result (λ failure. status_of failure ≡ 3) }
{
    if !choice.shows_note(touched, note) {
        return Ok(());
    }
    put_note_line(mark, note, text)
}
