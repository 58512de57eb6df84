// SPDX-License-Identifier: MIT OR Apache-2.0
ghost use Rattle.std.specs.Prelude.{◌≡◌, IfErr, IfOk, length, map};
ghost use Rattle.program_io.specs.Status.{status_of};
ghost use Rattle.trace_pictures.specs.Numbered.{line_numbers};

use crate::lifelines::Lifelines;
use connection_notes::{Holding, Note};
use frame_pictures::{Arrow, Chart, ChartEvent, Fate, Mark};
use frame_words::write_message_name;
use octets::Memory;
use program_base::split_first_line;
use program_io::Failure;
use std::alloc::Global;
use std::io::Write;
use world_actors::Network;
use world_model::Event;
use world_trace::{Crossing, End, EventTrace, Passage, Tracing};

/// Lets these events happen in a world of `cells` cells, and answers the events' chart. `script`
/// holds the events' lines. Each event of the chart has the number of its line, from 1. A failure
/// has status 3; the network is then unspecified.
pub fn chart_of(
    alloc: Global,
    cells: u16,
    network: &mut Network,
    events: &[Event],
    script: &[u8],
) -> Result<Chart, Failure>
    ensures numbers { IfOk result (λ chart.
        map (λ event. event.number) chart.events.items ≡ line_numbers (length events.now)) }
    ensures err { IfErr result (λ failure. status_of failure ≡ 3) }
{
    let lifelines = Lifelines::of(alloc, cells, events)?;
    let labels = lifelines.labels(alloc)?;
    let events = chart_events(alloc, &lifelines, network, events, script)?;
    Ok(Chart { labels, events })
}

/// Lets these events happen, and charts each event.
fn chart_events(
    alloc: Global,
    lifelines: &Lifelines,
    network: &mut Network,
    events: &[Event],
    script: &[u8],
) -> Result<Vec<ChartEvent>, Failure>
    ensures numbers { IfOk result (λ charted.
        map (λ event. event.number) charted.items ≡ line_numbers (length events.now)) }
    ensures err { IfErr result (λ failure. status_of failure ≡ 3) }
{
    let mut tracing = Tracing::of(alloc, network)?;
    let mut charted = Vec::new(alloc);
    let mut number = 0_u64;
    let mut rest = script;
    for event in events {
        let (line, others) = split_first_line(rest);
        number = number.saturating_add(1);
        let trace = tracing.step(network, event)?;
        let drawn = chart_event(alloc, lifelines, &trace, event, number, line)?;
        charted.push(drawn).map_err(Memory::from)?;
        rest = others;
    }
    Ok(charted)
}

/// The chart of an event, drawn from the event's trace.
fn chart_event(
    alloc: Global,
    lifelines: &Lifelines,
    trace: &EventTrace,
    event: &Event,
    number: u64,
    line: &[u8],
) -> Result<ChartEvent, Failure>
    ensures number { IfOk result (λ drawn. drawn.number ≡ number) }
    ensures err { IfErr result (λ failure. status_of failure ≡ 3) }
{
    let text = Vec::from_slice(alloc, line).map_err(Memory::from)?;
    let arrows = arrows_of(alloc, lifelines, trace.crossings.as_slice())?;
    let marks = marks_of(alloc, lifelines, trace.notes.as_slice())?;
    Ok(ChartEvent {
        number,
        text,
        actor: lifelines.actor(event),
        is_taken: trace.refusal.is_none(),
        arrows,
        marks,
    })
}

/// An arrow for each frame that was put on a link.
fn arrows_of(
    alloc: Global,
    lifelines: &Lifelines,
    crossings: &[Crossing],
) -> Result<Vec<Arrow>, Failure>
    ensures err { IfErr result (λ failure. status_of failure ≡ 3) }
{
    let mut arrows = Vec::new(alloc);
    for crossing in crossings {
        if is_sent(crossing.passage) {
            let drawn = arrow_of(alloc, lifelines, crossing)?;
            arrows.push(drawn).map_err(Memory::from)?;
        }
    }
    Ok(arrows)
}

fn is_sent(passage: Passage) -> bool {
    match passage {
        Passage::Sent => true,
        Passage::Made | Passage::Got => false,
    }
}

fn arrow_of(alloc: Global, lifelines: &Lifelines, crossing: &Crossing) -> Result<Arrow, Failure>
    ensures err { IfErr result (λ failure. status_of failure ≡ 3) }
{
    let mut name = Vec::new(alloc);
    write_message_name(alloc, &crossing.frame, &mut name)?;
    Ok(Arrow {
        from: lifelines.end(crossing.from),
        to: lifelines.end(crossing.to),
        name,
        fate: Fate::Passed,
    })
}

/// A mark for each note on messages that were held, relayed from the hold, or dropped.
fn marks_of(alloc: Global, lifelines: &Lifelines, notes: &[Note]) -> Result<Vec<Mark>, Failure>
    ensures err { IfErr result (λ failure. status_of failure ≡ 3) }
{
    let mut marks = Vec::new(alloc);
    for note in notes {
        if let Some(drawn) = mark_of(alloc, lifelines, *note)? {
            marks.push(drawn).map_err(Memory::from)?;
        }
    }
    Ok(marks)
}

/// The mark of a `Hold` note, with the words of the note's line; `None` for any other note.
fn mark_of(alloc: Global, lifelines: &Lifelines, note: Note) -> Result<Option<Mark>, Failure>
    ensures err { IfErr result (λ failure. status_of failure ≡ 3) }
{
    let Note::Hold {
        number,
        holding,
        ..
    } = note
    else {
        return Ok(None);
    };
    let mut words = Vec::new(alloc);
    write!(words, "conn {number}: {note}")?;
    Ok(Some(Mark {
        place: lifelines.end(End::Controller),
        words,
        fate: fate_of(holding),
    }))
}

fn fate_of(holding: Holding) -> Fate {
    match holding {
        Holding::Held => Fate::Held,
        Holding::Relayed => Fate::Passed,
        Holding::Dropped => Fate::Dropped,
    }
}
