// SPDX-License-Identifier: MIT OR Apache-2.0
//! Compares `world_trace::step`, which no program calls, with `Tracing::step`. Both must give the
//! same trace of each event of a script.
use crate::settled_worlds::{EAGER, HANDED_OVER};
use connection_notes::Note;
use octets::Memory;
use program_base::{read_script, read_settings};
use std::alloc::Global;
use std::test::Fail;
use world_actors::Network;
use world_model::Event;
use world_trace::{Crossing, End, EventTrace, Tracing, step};

/// After the handover a second mobile gets no channel in time, and the links of both cells break.
/// Two events aren't taken: `handle` with an empty inbox, and `basetakes` on a broken link.
const BROKEN: &[u8] =
    b"connect 2 1 052471 y\nbasepush 1\nhandle\nbasetakes 1\nbasepush 1\nhandle\ntick 60000\n\
    basedown 2\nhandle\nswitchtakes\nhandle\nbasedown 1\nbasetakes 1\n";

const NOT_TAKEN: usize = 2;

/// The octet that stands for a missing refusal or a missing fate.
const NONE: u8 = 0xff;

fn events_of(alloc: Global) -> Result<Vec<Event>, Fail> {
    let mut octets = Vec::from_slice(alloc, HANDED_OVER)?;
    octets.extend_from_slice(BROKEN)?;
    let mut input = octets.as_slice();
    Ok(read_script(alloc, 2, &mut input)?)
}

/// Puts the trace of each event, made by `step`. Returns how many events weren't taken.
fn put_alone(
    alloc: Global,
    network: &mut Network,
    events: &[Event],
    octets: &mut Vec<u8>,
) -> Result<usize, Fail> {
    let mut refused = 0_usize;
    for event in events {
        let trace = step(alloc, network, event)?;
        refused = refused.saturating_add(usize::from(trace.refusal.is_some()));
        put_trace(&trace, octets)?;
    }
    Ok(refused)
}

/// Puts the trace of each event, made by a `Tracing`, which keeps its sights from event to event.
/// Returns how many events weren't taken.
fn put_in_turn(
    alloc: Global,
    network: &mut Network,
    events: &[Event],
    octets: &mut Vec<u8>,
) -> Result<usize, Fail> {
    let mut tracing = Tracing::of(alloc, network)?;
    let mut refused = 0_usize;
    for event in events {
        let trace = tracing.step(network, event)?;
        refused = refused.saturating_add(usize::from(trace.refusal.is_some()));
        put_trace(&trace, octets)?;
    }
    Ok(refused)
}

/// How the traces of a network are made.
#[derive(Clone, Copy)]
enum Way {
    Alone,
    InTurn,
}

/// Puts the traces of the events in a network in which nothing has happened before.
fn put_traces(
    alloc: Global,
    way: Way,
    events: &[Event],
    octets: &mut Vec<u8>,
) -> Result<usize, Fail> {
    let settings = read_settings(alloc, EAGER)?;
    let mut network = Network::new(alloc, settings)?;
    match way {
        Way::Alone => put_alone(alloc, &mut network, events, octets),
        Way::InTurn => put_in_turn(alloc, &mut network, events, octets),
    }
}

/// Puts the contents of a trace. Different traces, and different lists of traces, give different
/// octets.
fn put_trace(trace: &EventTrace, octets: &mut Vec<u8>) -> Result<(), Memory> {
    octets.push(trace.refusal.map_or(NONE, |cause| cause as u8))?;
    octets.push(trace.fate.map_or(NONE, |fate| fate as u8))?;
    put_crossings(&trace.crossings, octets)?;
    put_crossings(&trace.made, octets)?;
    octets.extend_from_slice(&trace.notes.len().to_be_bytes())?;
    for note in &trace.notes {
        put_note(*note, octets)?;
    }
    Ok(())
}

fn put_crossings(crossings: &[Crossing], octets: &mut Vec<u8>) -> Result<(), Memory> {
    octets.extend_from_slice(&crossings.len().to_be_bytes())?;
    for crossing in crossings {
        let body = crossing.frame.body.as_slice();
        octets.push(crossing.passage as u8)?;
        put_end(crossing.from, octets)?;
        put_end(crossing.to, octets)?;
        octets.push(crossing.frame.stream)?;
        octets.extend_from_slice(&body.len().to_be_bytes())?;
        octets.extend_from_slice(body)?;
    }
    Ok(())
}

fn put_end(end: End, octets: &mut Vec<u8>) -> Result<(), Memory> {
    let number = match end {
        End::Switch => 0,
        End::Station(number) => number,
        End::Controller => u16::MAX,
    };
    octets.extend_from_slice(&number.to_be_bytes())?;
    Ok(())
}

fn put_note(note: Note, octets: &mut Vec<u8>) -> Result<(), Memory> {
    match note {
        Note::Expired { number, timer } => {
            octets.extend_from_slice(&number.to_be_bytes())?;
            octets.extend_from_slice(&[0, timer as u8])?;
        }
        Note::Changed { number, from, to } => {
            octets.extend_from_slice(&number.to_be_bytes())?;
            octets.extend_from_slice(&[1, from as u8, to as u8])?;
        }
        Note::Hold {
            number,
            holding,
            count,
            way,
            sapi,
        } => {
            octets.extend_from_slice(&number.to_be_bytes())?;
            octets.extend_from_slice(&[2, holding as u8, way as u8, sapi as u8])?;
            octets.extend_from_slice(&count.to_be_bytes())?;
        }
    }
    Ok(())
}

#[test]
fn a_trace_is_the_same_where_what_was_seen_is_kept(rt: HostRuntime) -> Result<(), Fail> {
    let events = events_of(rt.alloc())?;
    let (mut alone, mut in_turn) = (Vec::new(rt.alloc()), Vec::new(rt.alloc()));
    let first = put_traces(rt.alloc(), Way::Alone, &events, &mut alone)?;
    let second = put_traces(rt.alloc(), Way::InTurn, &events, &mut in_turn)?;
    assert!(rt; first == NOT_TAKEN && second == NOT_TAKEN);
    assert!(rt; alone.len() > events.len() && alone.as_slice() == in_turn.as_slice());
    Ok(())
}
