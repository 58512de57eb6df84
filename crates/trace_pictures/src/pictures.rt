// SPDX-License-Identifier: MIT OR Apache-2.0
ghost use Rattle.std.specs.Prelude.{◌≡◌, IfOk, IsOkAnd, OnOk, IfSome, length};
ghost use Rattle.std.specs.Io.KnownBytes.{IsAtEnd};
ghost use Rattle.frame_pictures.specs.Capture.{capture_of};
ghost use Rattle.program_base.specs.SettingsText.{settings_of};
ghost use Rattle.program_base.specs.WholeScript.{IsScript};
ghost use Rattle.trace_pictures.specs.FramesSent.{frames_sent};
ghost use Rattle.world_model.specs.World.{new_actors};

use crate::captured_events::capture_events;
use crate::charting::chart_of;
use frame_pictures::{Chart, svg_of, text_of};
use octets::Memory;
use program_base::{KeptScript, ProgramFault, read_kept_script, read_settings};
use program_io::Failure;
use settings::Settings;
use std::alloc::Global;
use std::io::Read;
use world_actors::Network;
use world_model::Event;

/// The form of a chart.
#[derive(Clone, Copy)]
pub enum Form {
    Text,
    Svg,
}

/// The form of a chart that a word names: `text` or `svg`. `None` for any other word.
pub fn form_of(word: &str) -> Option<Form> {
    match word {
        "text" => Some(Form::Text),
        "svg" => Some(Form::Svg),
        _ => None,
    }
}

/// Reads the settings in `settings`, and then a script of their world to its end. Answers the fault
/// of the settings if they are faulty. The first line that isn't the text of an event ends the read
/// with `Failed(BadEvent)` and the line's number. An allocation failure and a failed read also
/// answer `Failed`.
pub fn whole_script<R: Read>(
    alloc: Global,
    settings: &str,
    input: &mut R,
) -> Result<KeptScript, ProgramFault>
    ensures read { OnOk result (IsAtEnd (R.remaining input.new)) }
    ensures events { IfOk result (λ kept. IsOkAnd (settings_of settings.now) (λ parameters.
        IfSome (R.remaining input.old) (λ octets.
        IsScript (length parameters.cells) octets kept.events.items))) }
{
    let settings = read_settings(alloc, settings)?;
    let cells = u16::from(settings.cell_count());
    Ok(read_kept_script(alloc, cells, input)?)
}

/// Lets these events happen in the world of the settings in `settings`, and answers the capture
/// file of the frames that the events put on links. Fails only for a fault of the settings or on
/// allocation failure.
pub fn captured(alloc: Global, settings: &str, events: &[Event]) -> Result<Vec<u8>, ProgramFault>
    ensures { IfOk result (λ file. IsOkAnd (settings_of settings.now) (λ parameters.
        file.items ≡ capture_of (frames_sent (new_actors parameters) 0 events.now))) }
{
    let settings = read_settings(alloc, settings)?;
    let file = capture_in(alloc, settings, events).map_err(Failure::from)?;
    Ok(file)
}

fn capture_in(alloc: Global, settings: Settings, events: &[Event]) -> Result<Vec<u8>, Memory>
    ensures { IfOk result (λ file.
        file.items ≡ capture_of (frames_sent (new_actors settings) 0 events.now)) }
{
    let mut network = Network::new(alloc, settings)?;
    capture_events(alloc, &mut network, events)
}

/// Lets the events of a script happen in the world of the settings in `settings`, and answers the
/// events' chart in this form. Fails for a fault of the settings or on allocation failure.
pub fn drawn(
    alloc: Global,
    settings: &str,
    script: &KeptScript,
    form: Form,
) -> Result<Vec<u8>, ProgramFault> {
    let settings = read_settings(alloc, settings)?;
    Ok(draw_in(alloc, settings, script, form)?)
}

fn draw_in(
    alloc: Global,
    settings: Settings,
    script: &KeptScript,
    form: Form,
) -> Result<Vec<u8>, Failure> {
    let chart = chart_in(alloc, settings, script)?;
    Ok(picture_of(alloc, &chart, form)?)
}

fn chart_in(alloc: Global, settings: Settings, script: &KeptScript) -> Result<Chart, Failure> {
    let cells = u16::from(settings.cell_count());
    let mut network = Network::new(alloc, settings)?;
    let events = script.events.as_slice();
    chart_of(alloc, cells, &mut network, events, script.octets.as_slice())
}

fn picture_of(alloc: Global, chart: &Chart, form: Form) -> Result<Vec<u8>, Memory> {
    match form {
        Form::Text => text_of(alloc, chart),
        Form::Svg => svg_of(alloc, chart),
    }
}
